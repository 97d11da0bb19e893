//! Values of variables.

use sim_logic::Logic;

/// The value of a variable, of type std_ulogic or boolean.
#[derive(Clone, Copy, Debug, PartialEq, Eq)]
pub enum Held {
    Bit(Logic),
    Truth(bool),
}
