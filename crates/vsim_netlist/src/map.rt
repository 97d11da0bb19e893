//! The map from the signals of a text to the scopes and names of the source.

use crate::undriven::{has_driver, is_driven};
use std::alloc::{AllocError, Global};
use vsim_netlist_design::{Bit, Draft, Netlist, Variable};
use vsim_netlist_signals::Signals;

/// Adds a bit of a variable: the name of its signal, a literal, or a dash if nothing drives it or
/// there is no signal.
fn push_bit(text: &mut Draft, signals: &Signals, driven: &[bool], bit: Bit) {
    let name = match bit {
        Bit::Constant(level) => level.literal(),
        Bit::Net(place) if is_driven(driven, bit) => signals.name(place).unwrap_or("-"),
        Bit::Net(_) => "-",
    };
    text.push_all(&[" ", name]);
}

/// Adds a variable: its name, its lowest index, `to` or `downto`, and its bits, lowest first.
fn push_variable(text: &mut Draft, signals: &Signals, driven: &[bool], variable: &Variable) {
    text.push_all(&["var ", variable.name.as_str(), " "]);
    text.push_shown(&variable.offset);
    text.push(if variable.is_up { " to" } else { " downto" });
    for bit in variable.bits.iter() {
        push_bit(text, signals, driven, *bit);
    }
    text.push("\n");
}

/// The map of a netlist whose signals have these names, without variables that nothing drives.
pub(crate) fn make_map(
    alloc: Global,
    netlist: &Netlist,
    signals: &Signals,
    driven: &[bool],
    end: u64,
) -> Result<String, AllocError> {
    let mut text = Draft::of(alloc, "vsim_netlist map 1 ");
    text.push(signals.entity.as_str());
    text.push("\nend ");
    text.push_shown(&end);
    text.push_all(&["\ntop ", netlist.name.as_str(), "\n"]);
    for variable in netlist.variables.iter() {
        if has_driver(driven, variable) {
            push_variable(&mut text, signals, driven, variable);
        }
    }
    text.finish()
}
