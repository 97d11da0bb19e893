//! The ports of an entity and their region, which the region of each of its architectures extends
//! (IEEE 1076-2008, 12.1).

ghost use Rattle.std.specs.Prelude.{◌≡◌, [], IfOk};
ghost use Rattle.sim_flat_scope.specs.Regions as spec;

use crate::names::Names;
use crate::{DeclarativeRegion, Scope, region};
use sim_text_tree::declaration::PortDeclaration;
use std::alloc::{AllocError, Global};
use std::marker::Model;

/// The ports of an entity. Their region is made only once, for all of its architectures.
pub struct EntityPorts<'a> {
    declarations: &'a [PortDeclaration],
    labels: DeclarativeRegion<'a>,
    region: DeclarativeRegion<'a>,
    count: usize,
}

/// Written by hand so that code which drops it needs no proof about its contents.
impl<'a> Drop for EntityPorts<'a> {
    fn drop(self) {
        let EntityPorts {
            declarations: _,
            labels,
            region,
            count: _,
        } = self;
        drop(labels);
        drop(region);
    }
}

impl<'a> Model for EntityPorts<'a> {
    ghost use Rattle.std.specs.Prelude.{◌≡◌, List, []};
    ghost use Rattle.sim_text_tree.specs.declared.declaration.PortDeclaration.{PortDeclaration};
    ghost use Rattle.sim_flat_scope.specs.Regions as spec;

    ghost Value = { List PortDeclaration };

    ghost view = { λ e. e.declarations.now };

    ghost invariant = { λ e.
        (e.labels ≡ spec.port_labels e.declarations.now)
        × (e.region ≡ spec.ports_region [] e.declarations.now)
        × (e.count ≡ spec.port_count e.declarations.now) };
}

/// The region of the ports of an entity, which no other encloses.
fn region_of<'a>(
    alloc: Global,
    declarations: &'a [PortDeclaration],
) -> Result<DeclarativeRegion<'a>, AllocError>
    ensures { IfOk result (λ part. part ≡ spec.ports_region [] declarations.now) }
{
    let nothing = Scope::new(alloc);
    region::ports(alloc, declarations, &nothing)
}

impl<'a> EntityPorts<'a> {
    /// The ports that an entity declares.
    pub fn of(
        alloc: Global,
        declarations: &'a [PortDeclaration],
    ) -> Result<EntityPorts<'a>, AllocError>
        ensures { IfOk result (λ e. e ≡ declarations.now) }
    {
        let region = region_of(alloc, declarations)?;
        let names = Names::of_ports(alloc, declarations)?;
        let count = names.len();
        let labels = region::labels(alloc, &names)?;
        Ok(EntityPorts {
            declarations,
            labels,
            region,
            count,
        })
    }

    /// Their declarations.
    pub fn declarations(&self) -> &'a [PortDeclaration]
        ensures { result.now ≡ self.now }
    {
        self.declarations
    }

    /// Their names, declared as labels only.
    pub fn labels(&self) -> &DeclarativeRegion<'a>
        ensures { result.now ≡ spec.port_labels self.now }
    {
        &self.labels
    }

    /// The meanings of their names.
    pub fn region(&self) -> &DeclarativeRegion<'a>
        ensures { result.now ≡ spec.ports_region [] self.now }
    {
        &self.region
    }

    /// The number of ports.
    pub fn count(&self) -> usize
        ensures { result ≡ spec.port_count self.now }
    {
        self.count
    }
}
