//! The bits that pins and ports are connected to.

use crate::level::Level;

/// The connection of a pin: a net, by its index among the nets, or a constant.
#[derive(Clone, Copy, PartialEq, Eq)]
pub enum Bit {
    Net(usize),
    Constant(Level),
}
