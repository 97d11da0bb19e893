//! The nine values of std_ulogic.

ghost use Rattle.std.specs.Prelude.{◌≡◌, ◌≢◌, IfSome, IfNone};
ghost use Rattle.sim_logic.specs.declared.logic.Logic as logic;
ghost use Rattle.sim_logic.specs.Logic.{byte_of};

/// A value of std_ulogic, in the order of its declaration (IEEE 1164, type `std_ulogic`).
#[derive(Clone, Copy, Debug, Default, PartialEq, Eq, Hash)]
pub enum Logic {
    /// `'U'`, uninitialized: the leftmost value, and therefore the default value of a signal.
    #[default]
    U,
    /// `'X'`, forcing unknown.
    X,
    /// `'0'`, forcing 0.
    Zero,
    /// `'1'`, forcing 1.
    One,
    /// `'Z'`, high impedance.
    Z,
    /// `'W'`, weak unknown.
    W,
    /// `'L'`, weak 0.
    L,
    /// `'H'`, weak 1.
    H,
    /// `'-'`, don't care.
    Dash,
}

impl Logic {
    /// The value whose character literal has this byte, or `None` if there is none. The literals
    /// are case sensitive.
    pub fn from_byte(byte: u8) -> Option<Logic>
        ensures some { IfSome result (λ value. byte_of value ≡ byte) }
        ensures none { IfNone result ((value : logic.Logic) → byte_of value ≢ byte) }
    {
        match byte {
            b'U' => Some(Logic::U),
            b'X' => Some(Logic::X),
            b'0' => Some(Logic::Zero),
            b'1' => Some(Logic::One),
            b'Z' => Some(Logic::Z),
            b'W' => Some(Logic::W),
            b'L' => Some(Logic::L),
            b'H' => Some(Logic::H),
            b'-' => Some(Logic::Dash),
            _ => None,
        }
    }

    /// The byte of the value's character literal.
    pub fn to_byte(self) -> u8
        ensures { result ≡ byte_of self }
    {
        match self {
            Logic::U => b'U',
            Logic::X => b'X',
            Logic::Zero => b'0',
            Logic::One => b'1',
            Logic::Z => b'Z',
            Logic::W => b'W',
            Logic::L => b'L',
            Logic::H => b'H',
            Logic::Dash => b'-',
        }
    }
}
