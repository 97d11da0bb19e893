//! Architectures in which ports and signals are identified by position, ports first.

use crate::links::Links;
use sim_flat_design::Body;
use sim_logic::Logic;
use sim_text_tree::name::Name;
use sqlite_items::Items;
use std::alloc::{AllocError, Global};
use std::marker::Model;
use std::sync::Arc;

/// A port or signal.
#[derive(Drop)]
pub struct Object {
    pub name: Name,
    /// Whether it is of type std_logic.
    pub resolved: bool,
    pub default: Logic,
}

#[derive(Drop)]
pub struct Port {
    pub object: Object,
    /// Whether its mode is out or inout.
    pub drives: bool,
}

/// The ports of an entity, by position, which all of its architectures share.
pub struct Ports {
    list: Arc<Items<Port>, Global>,
}

/// Written by hand, as below, so that code which drops it needs no proof about its contents.
impl Drop for Ports {
    fn drop(self) {
        let Ports { list } = self;
        drop(list);
    }
}

impl Model for Ports {
    ghost use Rattle.std.specs.Prelude.{List};
    ghost use Rattle.std.specs.Arc.{arc_value};
    ghost use Rattle.sim_flat_blocks.specs.declared.parts.Port.{Port};

    ghost Value = { List Port };

    ghost view = { λ p. arc_value p.list };
}

impl Ports {
    ghost use Rattle.std.specs.Prelude.{◌≡◌, IfOk};

    /// The ports, by position.
    pub fn as_slice(&self) -> &[Port]
        ensures { result.now ≡ self.now }
    {
        self.list.as_slice()
    }

    /// The same ports, shared.
    pub fn try_copy(&self) -> Result<Ports, AllocError>
        ensures { IfOk result (λ p. p ≡ self.now) }
    {
        let list = Arc::try_clone(&self.list)?;
        Ok(Ports { list })
    }

    /// These ports.
    pub fn new(alloc: Global, ports: Items<Port>) -> Result<Ports, AllocError>
        ensures { IfOk result (λ p. p ≡ ports) }
    {
        let list = Arc::new(alloc, ports)?;
        Ok(Ports { list })
    }
}

/// A process of an architecture.
pub struct BlockProcess {
    pub sensitivity: Items<usize>,
    /// The ports and signals that it reads, in ascending order.
    pub reads: Items<usize>,
    /// The port or signal of each driver, by the driver's position.
    pub targets: Items<usize>,
    /// Whether it is a postponed process.
    pub postponed: bool,
    pub body: Body,
}

impl Drop for BlockProcess {
    fn drop(self) {
        let BlockProcess {
            sensitivity,
            reads,
            targets,
            postponed: _,
            body,
        } = self;
        drop(sensitivity);
        drop(reads);
        drop(targets);
        drop(body);
    }
}

pub struct Instance {
    pub label: Name,
    /// The offset at which the entity or component is named.
    pub at: usize,
    pub block: usize,
    /// One for each port of the block.
    pub links: Links,
}

impl Drop for Instance {
    fn drop(self) {
        let Instance {
            label,
            at: _,
            block: _,
            links,
        } = self;
        drop(label);
        drop(links);
    }
}

/// An architecture with its entity.
pub struct Block {
    pub ports: Ports,
    pub signals: Items<Object>,
    pub processes: Items<BlockProcess>,
    pub instances: Items<Instance>,
}

impl Drop for Block {
    fn drop(self) {
        let Block {
            ports,
            signals,
            processes,
            instances,
        } = self;
        drop(ports);
        drop(signals);
        drop(processes);
        drop(instances);
    }
}
