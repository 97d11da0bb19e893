//! Registers that read inputs a delta cycle after those have changed: what changes with their clock
//! comes after its edge.

use crate::reading::Reading;
use vsim_netlist_design::{Bit, Cell, Control, Netlist, Port, Register, Style};

/// What a net is: an input, one that another net follows, or none.
#[derive(Clone, Copy)]
enum Role {
    Inner,
    Input,
    Followed(usize),
}

/// The nets of a netlist, and the buffers that follow inputs.
struct LateInputs<'a> {
    reading: &'a mut Reading,
    roles: Vec<Role>,
    buffers: &'a mut Vec<Cell>,
}

/// Written by hand so that code which drops it needs no proof about its contents.
impl Drop for LateInputs<'_> {
    fn drop(self) {
        let LateInputs {
            reading: _,
            roles,
            buffers: _,
        } = self;
        drop(roles);
    }
}

/// Marks the bits of an input.
fn mark_input(roles: &mut Vec<Role>, port: &Port) {
    for bit in port.bits.iter() {
        if let Bit::Net(place) = bit {
            if let Some(role) = roles.get_mut(*place) {
                *role = Role::Input;
            }
        }
    }
}

/// The roles of nets, by their indices, as far as they are known from the ports.
fn roles(reading: &mut Reading, ports: &[Port]) -> Vec<Role> {
    let (alloc, count) = (reading.alloc, reading.count());
    let mut roles = reading.made(vec![in alloc; Role::Inner; count], Vec::new(alloc));
    for port in ports {
        if port.is_input {
            mark_input(&mut roles, port);
        }
    }
    roles
}

/// Whether a reset or a set has an effect at the edges of the clock alone.
fn is_synchronous(style: Style) -> bool {
    matches!(style, Style::Synchronous | Style::SynchronousEnabled)
}

impl LateInputs<'_> {
    /// Adds the net that follows an input, and the buffer to it.
    fn follow(&mut self, place: usize) -> Bit {
        let late = self.reading.add();
        let buffer = self.reading.buffer(place, late);
        self.reading.push(self.buffers, Cell::Gate(buffer));
        if let Some(role) = self.roles.get_mut(place) {
            *role = Role::Followed(late);
        }
        Bit::Net(late)
    }

    /// The bit in place of one that a register reads.
    fn bit(&mut self, bit: Bit) -> Bit {
        let Bit::Net(place) = bit else {
            return bit;
        };
        match self.roles.get(place) {
            Some(Role::Input) => self.follow(place),
            Some(Role::Followed(late)) => Bit::Net(*late),
            _ => bit,
        }
    }

    /// The control in place of one that a register reads.
    fn control(&mut self, control: Option<Control>) -> Option<Control> {
        match control {
            Some(Control { bit, is_high }) => {
                let bit = self.bit(bit);
                Some(Control { bit, is_high })
            }
            None => None,
        }
    }

    /// Lets a register read late what has an effect at edges of its clock alone: its data, its
    /// enable, and perhaps what resets and sets it.
    fn take(&mut self, register: &mut Register) {
        if let Some(data) = register.data {
            register.data = Some(self.bit(data));
        }
        register.enable = self.control(register.enable);
        if is_synchronous(register.style) {
            register.reset = self.control(register.reset);
            register.set = self.control(register.set);
        }
    }

    /// Lets all registers with a clock read inputs late.
    fn take_all(&mut self, cells: &mut [Cell]) {
        for cell in cells.iter_mut() {
            match cell {
                Cell::Register(register) if register.clock.is_some() => self.take(register),
                _ => {}
            }
        }
    }
}

/// Lets the registers of a netlist read inputs a delta cycle later: their data, and what else has
/// an effect at edges of their clock alone. Adds the buffers that this takes.
pub(crate) fn read_inputs_late(
    reading: &mut Reading,
    netlist: &mut Netlist,
    buffers: &mut Vec<Cell>,
) {
    let roles = roles(reading, netlist.ports.as_slice());
    let mut late = LateInputs {
        reading,
        roles,
        buffers,
    };
    late.take_all(netlist.cells.as_mut_slice());
}
