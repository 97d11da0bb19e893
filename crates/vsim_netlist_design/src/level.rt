//! The constants of a netlist.

/// A constant of a netlist.
#[derive(Clone, Copy, PartialEq, Eq)]
pub enum Level {
    Zero,
    One,
    Unknown,
    HighImpedance,
}

impl Level {
    /// The level that a letter stands for in a netlist or a VCD, in upper or lower case.
    pub fn from_byte(byte: u8) -> Option<Level> {
        Some(match byte {
            b'0' | b'l' | b'L' => Level::Zero,
            b'1' | b'h' | b'H' => Level::One,
            b'x' | b'X' | b'u' | b'U' | b'w' | b'W' | b'-' => Level::Unknown,
            b'z' | b'Z' => Level::HighImpedance,
            _ => return None,
        })
    }

    /// The literal of the level.
    pub fn literal(self) -> &'static str {
        match self {
            Level::Zero => "'0'",
            Level::One => "'1'",
            Level::Unknown => "'X'",
            Level::HighImpedance => "'Z'",
        }
    }
}
