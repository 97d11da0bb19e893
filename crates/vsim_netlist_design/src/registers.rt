//! The registers and latches of Yosys' library.

use crate::bits::Bit;
use crate::level::Level;
use crate::library::Conflict;

/// The kinds of registers in Yosys' library, by how they are set.
#[derive(Clone, Copy, PartialEq, Eq)]
pub enum Style {
    /// `$_DFF_` and `$_DFFE_`, without a reset.
    Plain,
    /// `$_SDFF_` and `$_SDFFE_`: the reset is taken at the edge, before the enable.
    Synchronous,
    /// `$_SDFFCE_`: the reset is taken at the edge, if enabled.
    SynchronousEnabled,
    /// `$_DFF_` and `$_DFFE_` with a reset at any time.
    Asynchronous,
    /// `$_ALDFF_` and `$_ALDFFE_`, which load at any time.
    Loaded,
    /// `$_DFFSR_` and `$_DFFSRE_`, which are set and reset at any time.
    SetReset,
    /// `$_DLATCH_` and `$_DLATCHSR_`.
    Latch,
    /// `$_SR_`.
    Bare,
}

/// A control pin: its connection, and whether it is active at `1` or at `0`.
#[derive(Clone, Copy)]
pub struct Control {
    pub bit: Bit,
    pub is_high: bool,
}

/// A register or latch, with its pins.
#[derive(Clone, Copy)]
pub struct Register {
    pub style: Style,
    pub clock: Option<Control>,
    pub enable: Option<Control>,
    pub reset: Option<Control>,
    pub set: Option<Control>,
    pub load: Option<Control>,
    pub data: Option<Bit>,
    pub loaded: Option<Bit>,
    /// The reset value. A set gives the other one.
    pub value: Level,
    /// What happens while both set and reset are active, if that is not the reset.
    pub conflict: Option<Conflict>,
    pub output: usize,
}

impl Register {
    /// A register without connections.
    pub fn new(style: Style, output: usize) -> Register {
        Register {
            style,
            clock: None,
            enable: None,
            reset: None,
            set: None,
            load: None,
            data: None,
            loaded: None,
            value: Level::Zero,
            conflict: None,
            output,
        }
    }

    /// Connects the pin with a letter.
    pub fn connect(&mut self, pin: u8, control: Control) {
        let control = Some(control);
        match pin {
            b'C' => self.clock = control,
            b'E' => self.enable = control,
            b'R' => self.reset = control,
            b'S' => self.set = control,
            _ => self.load = control,
        }
    }
}
