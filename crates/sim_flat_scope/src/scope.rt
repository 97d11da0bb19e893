//! Declarative regions: the meanings of the names declared in one (IEEE 1076-2008, 12).

ghost use Rattle.std.specs.Prelude.{◌≡◌, [], OnOk, OnErr, IfOk, is_none};
ghost use Rattle.sim_flat_scope.specs.Scopes as spec;

use crate::predefined::predefined;
use indexmap::IndexMap;
use sim_text_tree::declaration::Mode;
use std::alloc::{AllocError, Global};
use std::marker::Model;

/// A type of expressions: std_ulogic, with its subtype std_logic, or boolean (5.2.3).
#[derive(Clone, Copy, PartialEq, Eq)]
pub enum Type {
    Logic,
    Boolean,
}

/// The meaning of a name. It has no type if the type mark is at fault.
#[derive(Clone, Copy)]
pub enum Meaning {
    /// A port, with its position among the ports and signals of its architecture, ports first.
    Port {
        object: usize,
        mode: Mode,
        type_: Option<Type>,
    },
    /// A signal, with its position among the ports and signals of its architecture.
    Signal {
        object: usize,
        type_: Option<Type>,
    },
    /// A variable, with its position among the variables of its process.
    Variable {
        place: usize,
        type_: Option<Type>,
    },
    /// A component, with its position among the components of its architecture.
    Component {
        place: usize,
    },
    /// The label of a statement.
    Label,
    /// A type mark: `std_logic`, whose signals are resolved, or `std_ulogic`.
    LogicMark {
        resolved: bool,
    },
    /// The type mark `boolean`.
    BooleanMark,
    /// `true` or `false`.
    Truth(bool),
    /// `rising_edge`, or `falling_edge` if not `rising`.
    Edge {
        rising: bool,
    },
}

/// A declarative region, or a part of one, to which names are added.
pub trait Declare<'a> {
    /// Its names, each with its first declaration.
    ghost declared: { Self → spec.Region };

    /// Declares a name, unless it is already declared, and returns whether it is new.
    fn declare(&mut self, name: &'a [u8], meaning: Meaning) -> Result<bool, AllocError>
        ensures declared { OnOk result (declared self.new ≡ spec.with_first (declared self.old) name.now meaning) }
        ensures is_new { IfOk result (λ b. b ≡ is_none (spec.found (declared self.old) name.now)) }
        ensures kept { OnErr result (declared self.new ≡ declared self.old) };
}

/// A part of a declarative region: the ports of an entity, which the region of each of its
/// architectures extends.
pub struct DeclarativeRegion<'a> {
    /// The meaning of each name, in the order of the declarations.
    meanings: IndexMap<&'a [u8], Meaning>,
}

/// Written by hand so that code which drops it needs no proof about its contents.
impl<'a> Drop for DeclarativeRegion<'a> {
    fn drop(self) {
        let DeclarativeRegion { meanings } = self;
        drop(meanings);
    }
}

impl<'a> Model for DeclarativeRegion<'a> {
    ghost use Rattle.std.specs.Prelude.{ℕ, List, map};
    ghost use Rattle.sim_flat_scope.specs.declared.scope.Meaning.{Meaning};

    ghost Value = { List (List ℕ × Meaning) };

    ghost view = { λ s. map (λ e. (e.0.now, e.1)) s.meanings.entries };
}

impl<'a> DeclarativeRegion<'a> {
    /// An empty part.
    pub fn new(alloc: Global) -> DeclarativeRegion<'a>
        ensures { result ≡ [] }
    {
        DeclarativeRegion {
            meanings: IndexMap::new(alloc),
        }
    }

    /// The meaning of a name, if it is declared in this part. Most parts are empty, and then the
    /// name is not hashed.
    pub fn find(&self, name: &[u8]) -> Option<Meaning>
        ensures { result ≡ spec.found self.now name.now }
    {
        if self.meanings.is_empty() {
            return None;
        }
        self.meanings.get(name).copied()
    }
}

impl<'a> Declare<'a> for DeclarativeRegion<'a> {
    ghost use Rattle.sim_flat_scope.specs.Scopes.{Region};

    ghost declared = { λ (part : Region). part };

    fn declare(&mut self, name: &'a [u8], meaning: Meaning) -> Result<bool, AllocError> {
        if self.meanings.contains_key(name) {
            return Ok(false);
        }
        self.meanings.insert(name, meaning)?;
        Ok(true)
    }
}

/// The meaning of a name in the part that a region extends, if there is one.
#[tactic(auto, unfolding(crate::specs::Scopes::found))]
fn found_in(part: Option<&DeclarativeRegion<'_>>, name: &[u8]) -> Option<Meaning>
    ensures { result ≡ spec.found (spec.part_at part.entry) name.now }
{
    match part {
        None => None,
        Some(part) => part.find(name),
    }
}

/// The names of a declarative region, each with its first declaration. If it extends another part,
/// as an architecture does its entity's, that part is shared.
pub struct Scope<'a> {
    first: Option<&'a DeclarativeRegion<'a>>,
    own: DeclarativeRegion<'a>,
}

/// Written by hand so that code which drops it needs no proof about its contents.
impl<'a> Drop for Scope<'a> {
    fn drop(self) {
        let Scope { first: _, own } = self;
        drop(own);
    }
}

impl<'a> Model for Scope<'a> {
    ghost use Rattle.std.specs.Prelude.{ℕ, List, ◌++◌};
    ghost use Rattle.sim_flat_scope.specs.declared.scope.Meaning.{Meaning};
    ghost use Rattle.sim_flat_scope.specs.Scopes as spec;

    ghost Value = { List (List ℕ × Meaning) };

    ghost view = { λ s. spec.part_at s.first ++ s.own };
}

impl<'a> Scope<'a> {
    /// An empty region.
    pub fn new(alloc: Global) -> Scope<'a>
        ensures { result ≡ [] }
    {
        Scope {
            first: None,
            own: DeclarativeRegion::new(alloc),
        }
    }

    /// The region of one part.
    pub fn of(part: DeclarativeRegion<'a>) -> Scope<'a>
        ensures { result ≡ part.entry }
    {
        Scope {
            first: None,
            own: part,
        }
    }

    /// A region that extends this part.
    pub fn after(alloc: Global, part: &'a DeclarativeRegion<'a>) -> Scope<'a>
        ensures { result ≡ part.now }
    {
        Scope {
            first: Some(part),
            own: DeclarativeRegion::new(alloc),
        }
    }

    /// The meaning of a name, if it is declared in this region.
    pub fn find(&self, name: &[u8]) -> Option<Meaning>
        ensures { result ≡ spec.found self.now name.now }
    {
        match found_in(self.first, name) {
            Some(meaning) => Some(meaning),
            None => self.own.find(name),
        }
    }
}

impl<'a> Declare<'a> for Scope<'a> {
    ghost use Rattle.sim_flat_scope.specs.Scopes.{Region};

    ghost declared = { λ (region : Region). region };

    fn declare(&mut self, name: &'a [u8], meaning: Meaning) -> Result<bool, AllocError> {
        if found_in(self.first, name).is_some() {
            return Ok(false);
        }
        let is_new = self.own.declare(name, meaning)?;
        Ok(is_new)
    }
}

/// The meaning of a name in an inner region within an outer one; otherwise its predefined one.
#[tactic(auto, unfolding(crate::specs::Scopes::means))]
pub fn look_up(inner: &Scope<'_>, outer: &Scope<'_>, name: &[u8]) -> Option<Meaning>
    ensures { result ≡ spec.means inner.now outer.now name.now }
{
    if let Some(meaning) = inner.find(name) {
        return Some(meaning);
    }
    if let Some(meaning) = outer.find(name) {
        return Some(meaning);
    }
    predefined(name)
}
