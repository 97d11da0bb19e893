//! The processes of a flat design.

use crate::body::Body;
use sqlite_items::Items;
use std::alloc::{AllocError, Global};
use std::marker::Model;
use std::sync::Arc;

/// The nets of the ports and signals of an instance, which all of its processes share.
#[derive(Drop)]
pub struct ObjectNets {
    nets: Arc<Items<usize>, Global>,
}

impl Model for ObjectNets {
    ghost use Rattle.std.specs.Prelude.{ℕ, List};
    ghost use Rattle.std.specs.Arc.{arc_value};

    ghost Value = { List ℕ };

    ghost view = { λ h. arc_value h.nets };
}

impl ObjectNets {
    ghost use Rattle.std.specs.Prelude.{◌≡◌, IfOk};

    /// The nets of these ports and signals, by number.
    pub fn new(alloc: Global, nets: Items<usize>) -> Result<ObjectNets, AllocError>
        ensures { IfOk result (λ h. h ≡ nets) }
    {
        let nets = Arc::new(alloc, nets)?;
        Ok(ObjectNets { nets })
    }

    /// The same nets, shared.
    pub fn try_copy(&self) -> Result<ObjectNets, AllocError>
        ensures { IfOk result (λ h. h ≡ self.now) }
    {
        let nets = Arc::try_clone(&self.nets)?;
        Ok(ObjectNets { nets })
    }

    /// The number of the net of each port and signal.
    pub fn as_slice(&self) -> &[usize]
        ensures { result.now ≡ self.now }
    {
        self.nets.as_slice()
    }
}

#[derive(Drop)]
struct Parts {
    sensitivity: Items<usize>,
    reads: Items<usize>,
    object_nets: ObjectNets,
    first_driver: usize,
    postponed: bool,
    body: Body,
}

/// A process: its sensitivity, the nets that it reads, and its body. Its copies share it.
pub struct Process {
    parts: Arc<Parts, Global>,
}

/// Written by hand so that crates which drop a process need no proof about its contents.
impl Drop for Process {
    fn drop(self) {
        let Process { parts } = self;
        drop(parts);
    }
}

impl Model for Process {
    ghost use Rattle.std.specs.Arc.{arc_value};
    ghost use Rattle.std.specs.Coded.{codes};
    ghost use Rattle.sim_flat_design.specs.Processes.{Process, IsProcess};
    ghost use Rattle.sim_flat_design.specs.contracts.expression.LogicExpression as logic;
    ghost use Rattle.sim_flat_design.specs.contracts.expression.BooleanExpression as boolean;
    ghost use Rattle.sim_flat_design.specs.contracts.statement.Statement as statement;

    ghost Value = { Process };

    ghost coded = { Prim.hlevel (codes, logic.the_row.coded, boolean.the_row.coded, statement.the_row.coded) };

    ghost view = { λ p. let x = arc_value p.parts in
        record {
          sensitivity = x.sensitivity;
          reads = x.reads;
          nets = x.object_nets;
          first_driver = x.first_driver;
          postponed = x.postponed;
          body = x.body;
        } };

    ghost invariant = { λ p. let x = arc_value p.parts in
        IsProcess (record {
          sensitivity = x.sensitivity;
          reads = x.reads;
          nets = x.object_nets;
          first_driver = x.first_driver;
          postponed = x.postponed;
          body = x.body;
        }) };
}

impl Process {
    ghost use Rattle.std.specs.Prelude.{◌≡◌, IfOk, length};
    ghost use Rattle.std.specs.Bool.{Decides};
    ghost use Rattle.sim_flat_design.specs.Bodies.{objects_of};
    ghost use Rattle.sim_flat_design.specs.Processes.{IsProcess, nets_of, rising};

    /// A process from its sensitivity, the nets that it reads, the nets of its architecture's ports
    /// and signals, the number of its first driver, whether it is postponed, and its body.
    pub fn new(
        alloc: Global,
        sensitivity: Items<usize>,
        reads: Items<usize>,
        object_nets: ObjectNets,
        first_driver: usize,
        postponed: bool,
        body: Body,
    ) -> Result<Process, AllocError>
        requires { IsProcess (record {
          sensitivity = sensitivity;
          reads = reads;
          nets = object_nets;
          first_driver = first_driver;
          postponed = postponed;
          body = body;
        }) }
        ensures { IfOk result (λ p. p ≡ record {
          sensitivity = sensitivity;
          reads = reads;
          nets = object_nets;
          first_driver = first_driver;
          postponed = postponed;
          body = body;
        }) }
    {
        let parts = Arc::new(
            alloc,
            Parts {
                sensitivity,
                reads,
                object_nets,
                first_driver,
                postponed,
                body,
            },
        )?;
        Ok(Process { parts })
    }

    /// The same process, shared, in constant time.
    pub fn try_copy(&self) -> Result<Process, AllocError>
        ensures { IfOk result (λ p. p ≡ self.now) }
    {
        let parts = Arc::try_clone(&self.parts)?;
        Ok(Process { parts })
    }

    /// The nets to which it is sensitive, in ascending order (11.3).
    pub fn sensitivity(&self) -> &[usize]
        ensures value { result.now ≡ self.now.sensitivity }
        ensures rises { rising result.now ≡ result.now }
    {
        self.parts.sensitivity.as_slice()
    }

    /// The nets that it reads, also by `'event` or an edge function, in ascending order.
    pub fn reads(&self) -> &[usize]
        ensures value { result.now ≡ self.now.reads }
        ensures reads { result.now ≡ rising (nets_of self.now.nets (objects_of self.now.body.statements)) }
    {
        self.parts.reads.as_slice()
    }

    /// The nets of its architecture's ports and signals, as the processes of an instance share them.
    pub fn object_nets(&self) -> &ObjectNets
        ensures value { result.now ≡ self.now.nets }
        ensures placed { length result.now ≡ self.now.body.objects }
    {
        &self.parts.object_nets
    }

    /// The net of each port and signal of its architecture, by position in the body.
    pub fn nets(&self) -> &[usize]
        ensures value { result.now ≡ self.now.nets }
        ensures placed { length result.now ≡ self.now.body.objects }
    {
        self.parts.object_nets.as_slice()
    }

    /// The number of its first driver; its other drivers follow.
    pub fn first_driver(&self) -> usize
        ensures { result ≡ self.now.first_driver }
    {
        self.parts.first_driver
    }

    /// Whether it is a postponed process, which is executed once a time has settled (14.7.5.3).
    pub fn postponed(&self) -> bool
        ensures { result ≡ self.now.postponed }
    {
        self.parts.postponed
    }

    /// The body that it executes.
    pub fn body(&self) -> &Body
        ensures { result.now ≡ self.now.body }
    {
        &self.parts.body
    }

    /// Whether the two processes are equal. No memory is allocated.
    pub fn same(&self, other: &Process) -> bool
        ensures { Decides result (self.now ≡ other.now) }
    {
        self.first_driver() == other.first_driver()
            && self.postponed() == other.postponed()
            && self.sensitivity() == other.sensitivity()
            && self.reads() == other.reads()
            && self.nets() == other.nets()
            && self.body().same(other.body())
    }
}
