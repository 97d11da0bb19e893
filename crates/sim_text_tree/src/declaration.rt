//! Declarations (IEEE 1076-2008, 6).

use crate::list::NonEmpty;
use crate::name::Name;
use sim_logic::Logic;
use sqlite_items::Items;

/// The initial value of a declaration (6.4.2.3): a character literal and its place, or a name.
#[derive(Drop)]
pub enum Initial {
    Literal { value: Logic, at: usize },
    Named(Name),
}

/// A mode (6.5.2).
#[derive(Clone, Copy, Debug, PartialEq, Eq)]
pub enum Mode {
    In,
    Out,
    Inout,
}

/// Ports of one mode and type mark (6.5.2).
#[derive(Drop)]
pub struct PortDeclaration {
    /// Whether `signal` is written.
    pub signal: bool,
    pub names: NonEmpty<Name>,
    /// The mode, if one is written.
    pub mode: Option<Mode>,
    pub mark: Name,
    pub initial: Option<Initial>,
}

/// Signals (6.4.2.3) or variables (6.4.2.4) of one type mark.
#[derive(Drop)]
pub struct ObjectDeclaration {
    pub names: NonEmpty<Name>,
    pub mark: Name,
    pub initial: Option<Initial>,
}

/// A component declaration (6.8).
#[derive(Drop)]
pub struct ComponentDeclaration {
    pub name: Name,
    /// Whether `is` is written.
    pub is: bool,
    /// Empty if there is no port clause.
    pub ports: Items<PortDeclaration>,
    /// Whether the name is written again at the end.
    pub name_repeated: bool,
}

/// A declaration of an architecture (3.3.2).
#[derive(Drop)]
pub enum Declaration {
    Signal(ObjectDeclaration),
    Component(ComponentDeclaration),
}
