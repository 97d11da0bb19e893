//! Flat designs.

ghost use Rattle.std.specs.Prelude.{◌≡◌};
ghost use Rattle.std.specs.Bool.{Decides};

use crate::instance_path::{InstancePath, PathPiece};
use crate::pieces::{all_joined, are_joined, are_same_joined};
use crate::process::Process;
use sim_logic::Logic;
use sqlite_items::Items;
use std::alloc::{AllocError, Global};
use std::marker::Model;
use std::sync::Arc;

/// A flat source of a net: a driver, by number, or a constant.
#[derive(Clone, Copy, Debug, PartialEq, Eq)]
pub enum Source {
    Driver(usize),
    Constant(Logic),
}

/// A net, with its name and its flat sources, from left to right (14.7.3). The nets of an instance
/// share the path of the instance.
#[derive(Drop)]
pub struct Net {
    path: InstancePath,
    simple_name: String,
    sources: Items<Source>,
}

impl Model for Net {
    ghost use Rattle.std.specs.Prelude.{◌++◌, string_bytes};
    ghost use Rattle.sim_flat_design.specs.Designs.{Net};

    ghost Value = { Net };

    ghost view = { λ n. record { name = n.path ++ string_bytes n.simple_name; sources = n.sources } };
}

impl Net {
    ghost use Rattle.std.specs.Prelude.{◌≡◌, ◌++◌, string_bytes, IfOk};
    ghost use Rattle.std.specs.List.{concat};
    ghost use Rattle.std.specs.Bool.{Decides};

    /// The net with this simple name in the instance with this path, and with these sources.
    pub fn new(
        alloc: Global,
        path: &InstancePath,
        simple_name: &str,
        sources: Items<Source>,
    ) -> Result<Net, AllocError>
        ensures { IfOk result (λ net. net ≡ record { name = path.now ++ simple_name.now; sources = sources }) }
    {
        let path = path.try_copy()?;
        let simple_name = String::from_str(alloc, simple_name)?;
        Ok(Net {
            path,
            simple_name,
            sources,
        })
    }

    /// Its name in pieces: the labels of the enclosing instances, each followed by `.`, and its
    /// simple name.
    pub fn name_pieces(&self) -> (&[PathPiece], &str)
        ensures { concat result.0.now ++ result.1.now ≡ self.now.name }
    {
        (self.path.pieces(), self.simple_name.as_str())
    }

    /// Its full name: the labels and its simple name, separated by `.`.
    pub fn to_name(&self, alloc: Global) -> Result<String, AllocError>
        ensures { IfOk result (λ name. string_bytes name ≡ self.now.name) }
    {
        let (pieces, simple_name) = self.name_pieces();
        all_joined(alloc, pieces, simple_name)
    }

    /// Whether this is its full name. No memory is allocated.
    pub fn is_named(&self, name: &str) -> bool
        ensures { Decides result (self.now.name ≡ name.now) }
    {
        let (pieces, simple_name) = self.name_pieces();
        are_joined(pieces, simple_name.as_bytes(), name.as_bytes())
    }

    /// Whether the other net has the same name.
    fn is_namesake(&self, other: &Net) -> bool
        ensures { Decides result (self.now.name ≡ other.now.name) }
    {
        let (pieces, simple_name) = self.name_pieces();
        let (others, other_name) = other.name_pieces();
        are_same_joined(
            pieces,
            simple_name.as_bytes(),
            others,
            other_name.as_bytes(),
        )
    }

    /// Its flat sources; a net without drivers has a constant.
    pub fn sources(&self) -> &[Source]
        ensures { result.now ≡ self.now.sources }
    {
        self.sources.as_slice()
    }

    /// Whether the two nets are equal.
    fn same(&self, other: &Net) -> bool
        ensures { Decides result (self.now ≡ other.now) }
    {
        self.is_namesake(other) && same_sources(self.sources(), other.sources())
    }
}

/// Whether these are the same sources, in the same order.
fn same_sources(sources: &[Source], others: &[Source]) -> bool
    ensures { Decides result (sources.now ≡ others.now) }
{
    sources == others
}

/// Whether these are the same nets, in the same order.
fn same_nets(nets: &[Net], others: &[Net]) -> bool
    ensures { Decides result (nets.now ≡ others.now) }
{
    nets.len() == others.len() && nets.iter().zip(others).all(|(net, other)| net.same(other))
}

/// Whether these are the same processes, in the same order.
fn same_processes(processes: &[Process], others: &[Process]) -> bool
    ensures { Decides result (processes.now ≡ others.now) }
{
    processes.len() == others.len()
        && processes
            .iter()
            .zip(others)
            .all(|(process, other)| process.same(other))
}

/// A driver: its process and its net, by number, and its initial value, which is the default value
/// of the name that the process assigns (14.7.2).
#[derive(Clone, Copy, Debug, PartialEq, Eq)]
pub struct DriverOf {
    pub process: usize,
    pub net: usize,
    pub first: Logic,
}

/// Whether these are the same drivers, in the same order.
fn same_drivers(drivers: &[DriverOf], others: &[DriverOf]) -> bool
    ensures { Decides result (drivers.now ≡ others.now) }
{
    drivers == others
}

#[derive(Drop)]
struct Parts {
    nets: Items<Net>,
    processes: Items<Process>,
    drivers: Items<DriverOf>,
}

/// A flat design, which its copies share.
pub struct Design {
    parts: Arc<Parts, Global>,
}

/// Written by hand so that crates which drop a design need no proof about its contents.
impl Drop for Design {
    fn drop(self) {
        let Design { parts } = self;
        drop(parts);
    }
}

impl Model for Design {
    ghost use Rattle.std.specs.Arc.{arc_value};
    ghost use Rattle.std.specs.Coded.{codes};
    ghost use Rattle.sim_flat_design.specs.Designs.{Design, IsDesign};
    ghost use Rattle.sim_flat_design.specs.contracts.expression.LogicExpression as logic;
    ghost use Rattle.sim_flat_design.specs.contracts.expression.BooleanExpression as boolean;
    ghost use Rattle.sim_flat_design.specs.contracts.statement.Statement as statement;

    ghost Value = { Design };

    ghost coded = { Prim.hlevel (codes, logic.the_row.coded, boolean.the_row.coded, statement.the_row.coded) };

    ghost view = { λ d. let x = arc_value d.parts in record { nets = x.nets; processes = x.processes; drivers = x.drivers } };

    ghost invariant = { λ d. let x = arc_value d.parts in
        IsDesign (record { nets = x.nets; processes = x.processes; drivers = x.drivers }) };
}

impl Design {
    ghost use Rattle.std.specs.Prelude.{◌≡◌, ◌<◌, ◌≤◌, ◌≢◌, IfOk, length};
    ghost use Rattle.std.specs.Bool.{Decides};
    ghost use Rattle.std.specs.List.{All};
    ghost use Rattle.std.specs.Option.{MatchOption};
    ghost use Rattle.sim_flat_design.specs.Designs.{AreOwned, IsDesign, IsFirstNamed, IsNet, IsPlaced, Net, most};

    /// The design with these nets, processes and drivers.
    pub fn new(
        alloc: Global,
        nets: Items<Net>,
        processes: Items<Process>,
        drivers: Items<DriverOf>,
    ) -> Result<Design, AllocError>
        requires { IsDesign (record { nets = nets; processes = processes; drivers = drivers }) }
        ensures { IfOk result (λ d. d ≡ record { nets = nets; processes = processes; drivers = drivers }) }
    {
        let parts = Arc::new(
            alloc,
            Parts {
                nets,
                processes,
                drivers,
            },
        )?;
        Ok(Design { parts })
    }

    /// The same design, shared.
    pub fn try_copy(&self) -> Result<Design, AllocError>
        ensures { IfOk result (λ d. d ≡ self.now) }
    {
        let parts = Arc::try_clone(&self.parts)?;
        Ok(Design { parts })
    }

    /// The nets, by number.
    pub fn nets(&self) -> &[Net]
        ensures value { result.now ≡ self.now.nets }
        ensures bound { length result.now ≤ most }
        ensures nets { All (IsNet (length self.now.drivers)) result.now }
    {
        self.parts.nets.as_slice()
    }

    /// The processes, by number.
    pub fn processes(&self) -> &[Process]
        ensures value { result.now ≡ self.now.processes }
        ensures bound { length result.now ≤ most }
        ensures placed { All (IsPlaced (length self.now.nets)) result.now }
    {
        self.parts.processes.as_slice()
    }

    /// The drivers, by number: grouped by process, and within a process in the order of the first
    /// assignments to their targets.
    pub fn drivers(&self) -> &[DriverOf]
        ensures value { result.now ≡ self.now.drivers }
        ensures bound { length result.now ≤ most }
        ensures owned { AreOwned (length self.now.nets) 0 0 self.now.processes result.now }
    {
        self.parts.drivers.as_slice()
    }

    /// The number of the first net with this name, which is in lower case (15.4.2); `None` exactly
    /// if no net has it.
    pub fn net_named(&self, name: &str) -> Option<usize>
        ensures { MatchOption result (All (λ (net : Net). net.name ≢ name.now) self.now.nets) (λ n. IsFirstNamed name.now n self.now.nets) }
    {
        self.nets().iter().position(|net| net.is_named(name))
    }

    /// Whether the two designs are equal. No memory is allocated.
    pub fn same(&self, other: &Design) -> bool
        ensures { Decides result (self.now ≡ other.now) }
    {
        same_nets(self.nets(), other.nets())
            && same_drivers(self.drivers(), other.drivers())
            && same_processes(self.processes(), other.processes())
    }
}
