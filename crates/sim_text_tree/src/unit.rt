//! Concurrent statements (IEEE 1076-2008, 11) and design units (3 and 13).

use crate::declaration::{Declaration, ObjectDeclaration, PortDeclaration};
use crate::list::NonEmpty;
use crate::name::Name;
use crate::sequential::Sequential;
use crate::waveform::ConcurrentSignalAssignment;
use sim_logic::Logic;
use sqlite_items::Items;

/// A sensitivity list (10.2).
#[derive(Drop)]
pub enum Sensitivity {
    All,
    Names(NonEmpty<Name>),
}

/// A process statement (11.3).
#[derive(Drop)]
pub struct Process {
    pub label: Option<Name>,
    pub postponed: bool,
    pub sensitivity: Sensitivity,
    /// Whether `is` is written.
    pub is: bool,
    pub variables: Items<ObjectDeclaration>,
    pub statements: Items<Sequential>,
    /// Whether `postponed` is written again at the end.
    pub postponed_repeated: bool,
    /// Whether the label is written again at the end.
    pub label_repeated: bool,
}

/// An actual of a port map (6.5.7).
#[derive(Drop)]
pub enum Actual {
    Named(Name),
    Literal { value: Logic, at: usize },
    /// The word `open`.
    Open { at: usize },
}

/// An association of a port map (6.5.7).
#[derive(Drop)]
pub struct Association {
    /// `None` if the association is positional.
    pub formal: Option<Name>,
    pub actual: Actual,
}

/// The component or entity of an instance (11.7).
#[derive(Drop)]
pub enum Instantiated {
    Component {
        /// Whether `component` is written.
        word_written: bool,
        component: Name,
    },
    Entity {
        library: Name,
        entity: Name,
        /// The architecture, if one is written.
        architecture: Option<Name>,
    },
}

/// A component instantiation statement (11.7).
#[derive(Drop)]
pub struct Instance {
    pub label: Name,
    pub unit: Instantiated,
    /// Empty if there is no port map.
    pub associations: Items<Association>,
}

/// A concurrent statement (11.1).
#[derive(Drop)]
pub enum Concurrent {
    Assignment(ConcurrentSignalAssignment),
    Process(Process),
    Instance(Instance),
}

/// A selected name of a use clause (8.3).
#[derive(Drop)]
pub struct SelectedName {
    pub prefix: Name,
    pub suffixes: Items<Name>,
    /// Whether the last suffix is `all`.
    pub all: bool,
}

/// A context item (13.4).
#[derive(Drop)]
pub enum ContextItem {
    Library(NonEmpty<Name>),
    Use(NonEmpty<SelectedName>),
}

/// An entity declaration (3.2).
#[derive(Drop)]
pub struct Entity {
    pub name: Name,
    /// Empty if there is no port clause.
    pub ports: Items<PortDeclaration>,
    /// Whether `entity` is written again at the end.
    pub word_repeated: bool,
    /// Whether the name is written again at the end.
    pub name_repeated: bool,
}

/// An architecture body (3.3).
#[derive(Drop)]
pub struct Architecture {
    pub name: Name,
    pub entity: Name,
    pub declarations: Items<Declaration>,
    pub statements: Items<Concurrent>,
    /// Whether `architecture` is written again at the end.
    pub word_repeated: bool,
    /// Whether the name is written again at the end.
    pub name_repeated: bool,
}

/// A library unit (13.1).
#[derive(Drop)]
pub enum LibraryUnit {
    Entity(Entity),
    Architecture(Architecture),
}

/// A design unit (13.1).
pub struct DesignUnit {
    pub context: Items<ContextItem>,
    pub library_unit: LibraryUnit,
}

/// Written by hand so that crates which drop a unit need no proof about its contents.
impl Drop for DesignUnit {
    fn drop(self) {
        let DesignUnit {
            context,
            library_unit,
        } = self;
        drop(context);
        drop(library_unit);
    }
}
