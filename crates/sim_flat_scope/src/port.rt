//! The ports of an entity or a component, one by one.

ghost use Rattle.std.specs.Prelude.{◌≡◌, ◌++◌, IfOk, OnOk};
ghost use Rattle.sim_flat_scope.specs.Regions.{mode_of};
ghost use Rattle.sim_flat_scope.specs.Ports as spec;

use sim_text_tree::declaration::{Initial, Mode, PortDeclaration};
use sim_text_tree::name::Name;
use std::alloc::{AllocError, Global};
use std::marker::Model;

/// The mode that is written, or `in` if there is none (IEEE 1076-2008, 6.5.2).
pub fn mode_of(written: Option<Mode>) -> Mode
    ensures { result ≡ mode_of written }
{
    match written {
        Some(mode) => mode,
        None => Mode::In,
    }
}

/// A port: its name, and the declaration that contains it.
#[derive(Drop)]
pub struct Port<'a> {
    name: &'a Name,
    declaration: &'a PortDeclaration,
}

impl<'a> Model for Port<'a> {
    ghost use Rattle.sim_flat_scope.specs.Ports as spec;

    ghost Value = { spec.Port };

    ghost view = { λ p. spec.port_of p.declaration.now p.name.now };
}

impl<'a> Port<'a> {
    /// Its name.
    pub fn name(&self) -> &'a Name
        ensures { result.now ≡ self.now.name }
    {
        self.name
    }

    /// Its mode.
    pub fn mode(&self) -> Mode
        ensures { result ≡ self.now.mode }
    {
        mode_of(self.declaration.mode)
    }

    /// Its type mark.
    pub fn mark(&self) -> &'a Name
        ensures { result.now ≡ self.now.mark }
    {
        &self.declaration.mark
    }

    /// Its default expression, if it has one.
    pub fn initial(&self) -> &'a Option<Initial>
        ensures { result.now ≡ self.now.initial }
    {
        &self.declaration.initial
    }
}

/// Appends the ports of a declaration.
#[tactic(auto, using(crate::proofs::NameLists::appends), unfolding(crate::specs::Ports::ports_named))]
fn push_ports<'a>(
    ports: &mut Vec<Port<'a>>,
    declaration: &'a PortDeclaration,
) -> Result<(), AllocError>
    ensures { OnOk result (ports.new.items ≡ ports.old.items ++ spec.ports_named declaration.now declaration.now.names) }
{
    for name in declaration.names.as_slice() {
        ports.push(Port { name, declaration })?;
    }
    Ok(())
}

/// The ports of declarations, by position, from 0.
#[tactic(auto, using(crate::proofs::NameLists::appends), unfolding(crate::specs::Ports::ports_of))]
pub fn ports_of<'a>(
    alloc: Global,
    declarations: &'a [PortDeclaration],
) -> Result<Vec<Port<'a>>, AllocError>
    ensures { IfOk result (λ ports. ports.items ≡ spec.ports_of declarations.now) }
{
    let mut ports = Vec::new(alloc);
    for declaration in declarations {
        push_ports(&mut ports, declaration)?;
    }
    Ok(ports)
}
