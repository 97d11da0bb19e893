//! The cells of a library, as gates and registers.

use crate::document::{WrittenBit, WrittenCell};
use crate::kinds::Site;
use crate::logic::{
    conflict_of, gate_of, has_plain_controls, is_read_inside, is_variable, level_after, level_of,
    may_read, reads, steps_of, style_of,
};
use crate::reading::Reading;
use crate::timings::{Connected, Timed};
use vsim_netlist_design::{
    Bit, Conflict, Control, Function, Gate, Level, LibraryCell, LibraryPin, LibraryState, Netlist,
    Register, Source, Step, Timing, Variant,
};

/// A cell that is being made: the bits of its pins and the nets of its register's variables, as far
/// as they are known, and the netlist to which its gates and registers are added.
struct Making<'a> {
    model: &'a LibraryCell,
    bits: Vec<Option<Bit>>,
    plain: Option<usize>,
    negated: Option<usize>,
    timed: Option<&'a Timed<'a>>,
    /// The level with which its register begins, if it is given.
    initial: Option<Level>,
    reading: &'a mut Reading,
    netlist: &'a mut Netlist,
}

/// Written by hand so that code which drops it needs no proof about its contents.
impl Drop for Making<'_> {
    fn drop(self) {
        let Making {
            model: _,
            bits,
            plain: _,
            negated: _,
            timed: _,
            initial: _,
            reading: _,
            netlist: _,
        } = self;
        drop(bits);
    }
}

impl<'a> Making<'a> {
    /// The name of a pin.
    fn pin_name(&self, place: usize) -> &'a str {
        match self.model.pins.get(place) {
            Some(pin) => pin.name.as_str(),
            None => "",
        }
    }

    /// The bit of a pin.
    fn pin_bit(&mut self, place: usize) -> Bit {
        if let Some(Some(bit)) = self.bits.get(place) {
            return *bit;
        }
        let name = self.pin_name(place);
        self.reading
            .refuse(&["its pin ", name, " is not connected with one bit"]);
        Bit::Constant(Level::Unknown)
    }

    /// The net of a variable, if it has one.
    fn net(&self, variant: Variant) -> Option<usize> {
        match variant {
            Variant::Plain => self.plain,
            Variant::Negated => self.negated,
        }
    }

    /// The bit of an input of a function.
    fn source_bit(&mut self, source: Source) -> Bit {
        match source {
            Source::Pin(place) => self.pin_bit(place),
            Source::Variable(variant) => {
                match self.net(variant) {
                    Some(net) => Bit::Net(net),
                    None => Bit::Constant(Level::Unknown),
                }
            }
        }
    }

    /// The bits of the inputs of a function.
    fn source_bits(&mut self, function: &Function) -> Vec<Bit> {
        let mut bits = Vec::new(self.reading.alloc);
        for source in function.inputs.iter() {
            let bit = self.source_bit(*source);
            self.reading.push(&mut bits, bit);
        }
        bits
    }

    /// Gives the last gate or register the delays of the paths to an output, if a file has them.
    fn time(&mut self, output: &str) {
        if let Some(timed) = self.timed {
            let (model, bits) = (self.model, self.bits.as_slice());
            let timing = timed.timing(self.reading, Connected { model, bits }, output);
            self.netlist.time_last(timing);
        }
    }

    /// The output that is a variable itself, if it is connected.
    fn own_output(&self, variant: Variant) -> Option<&'a LibraryPin> {
        let model = self.model;
        for (place, pin) in model.pins.iter().enumerate() {
            if self.drives(place, pin) && is_variable(pin, variant) {
                return Some(pin);
            }
        }
        None
    }

    /// Gives a register the delays of the paths to its output, if a file has them.
    fn time_register(&mut self, state: &LibraryState, variant: Variant) {
        if self.timed.is_none() {
            return;
        }
        match self.own_output(variant) {
            Some(pin) if has_plain_controls(state) => self.time(pin.name.as_str()),
            _ => {
                self.reading.refuse(&[
                    "a register whose output or control is a formula is not supported with --sdf",
                ]);
            }
        }
    }

    /// Gives a gate the delays of the paths to its output, if a file has them and it has inputs.
    fn time_gate(&mut self, function: &Function, output: &str) {
        if function.inputs.is_empty() || self.timed.is_none() {
            return;
        }
        if reads(function, Variant::Plain) || reads(function, Variant::Negated) {
            let told = " is a formula of its register, which is not supported with --sdf";
            self.reading.refuse(&["its output ", output, told]);
        } else {
            self.time(output);
        }
    }

    /// Adds a gate.
    fn put_gate(&mut self, function: &Function, is_negated: bool, output: usize, is_inner: bool) {
        let mut gate = self.reading.gate(gate_of(function, is_negated), output);
        gate.inputs = self.source_bits(function);
        gate.steps = steps_of(self.reading, function, is_negated);
        gate.is_inner = is_inner;
        self.reading.put_gate(self.netlist, gate, None);
    }

    /// The bit of a function, or of its negation, which a gate inside of the cell may compute.
    fn bit(&mut self, function: &Function, is_negated: bool) -> Bit {
        match (function.steps.as_slice(), function.inputs.as_slice()) {
            ([Step::Constant(level)], _) => Bit::Constant(level_of(*level, is_negated)),
            ([_], [source]) if !is_negated => self.source_bit(*source),
            ([_, Step::Not], [source]) if is_negated => self.source_bit(*source),
            _ => {
                let output = self.reading.add();
                self.put_gate(function, is_negated, output, true);
                Bit::Net(output)
            }
        }
    }

    /// The control of a function.
    fn control(&mut self, function: &Function) -> Control {
        let is_low = matches!(function.steps.as_slice(), [Step::Input(_), Step::Not]);
        let bit = self.bit(function, is_low);
        Control {
            bit,
            is_high: !is_low,
        }
    }

    /// The control of a function, if there is one.
    fn any_control(&mut self, function: &Option<Function>) -> Option<Control> {
        match function {
            Some(function) => Some(self.control(function)),
            None => None,
        }
    }

    /// Adds all that a register has.
    fn fill(&mut self, state: &LibraryState, variant: Variant, register: &mut Register) {
        let clock = self.any_control(&state.clock);
        if state.is_latch {
            register.enable = clock;
        } else {
            register.clock = clock;
        }
        if let Some(function) = &state.data {
            register.data = Some(self.bit(function, variant == Variant::Negated));
        }
        let clear = self.any_control(&state.clear);
        let preset = self.any_control(&state.preset);
        put_levels(register, state, variant, clear, preset);
    }

    /// Adds the register of a variable, if that has a net.
    fn put_register(&mut self, state: &LibraryState, variant: Variant) {
        let Some(output) = self.net(variant) else {
            return;
        };
        if let Some(level) = self.initial {
            self.reading
                .set_initial(output, level_of(level, variant == Variant::Negated));
        }
        let mut register = Register::new(style_of(state), output);
        self.fill(state, variant, &mut register);
        if self.netlist.put_register(&register).is_err() {
            self.reading.lack();
        }
        self.time_register(state, variant);
    }

    /// Whether a pin is an output that is connected.
    fn drives(&self, place: usize, pin: &LibraryPin) -> bool {
        pin.is_output && matches!(self.bits.get(place), Some(Some(_)))
    }

    /// Whether an output that is connected reads a variable.
    fn is_needed(&self, variant: Variant) -> bool {
        for (place, pin) in self.model.pins.iter().enumerate() {
            let is_read = may_read(&pin.function, variant) || may_read(&pin.three_state, variant);
            if is_read && self.drives(place, pin) {
                return true;
            }
        }
        false
    }

    /// The net of the output that is a variable itself, if one is connected.
    fn own_net(&self, variant: Variant) -> Option<usize> {
        for (place, pin) in self.model.pins.iter().enumerate() {
            if self.drives(place, pin) && is_variable(pin, variant) {
                if let Some(Some(Bit::Net(net))) = self.bits.get(place) {
                    return Some(*net);
                }
            }
        }
        None
    }

    /// The net of a variable: that of an output, or a new one.
    fn state_net(&mut self, variant: Variant) -> usize {
        match self.own_net(variant) {
            Some(net) => net,
            None => self.reading.add(),
        }
    }

    /// Gives nets to the variables that are read.
    fn put_nets(&mut self, state: &LibraryState) {
        let (plain, negated) = (
            self.is_needed(Variant::Plain),
            self.is_needed(Variant::Negated),
        );
        let is_used = plain || negated;
        if plain || is_used && is_read_inside(state, Variant::Plain) {
            self.plain = Some(self.state_net(Variant::Plain));
        }
        if negated || is_used && is_read_inside(state, Variant::Negated) {
            self.negated = Some(self.state_net(Variant::Negated));
        }
    }

    /// Adds the registers of a cell, one for each of its variables that is read.
    fn put_registers(&mut self) {
        let model = self.model;
        if let Some(state) = &model.state {
            self.put_nets(state);
            self.put_register(state, Variant::Plain);
            self.put_register(state, Variant::Negated);
        }
    }

    /// The net that a pin drives.
    fn output(&mut self, place: usize) -> usize {
        match self.pin_bit(place) {
            Bit::Net(net) => net,
            Bit::Constant(_) => {
                let name = self.pin_name(place);
                self.reading
                    .refuse(&["its output ", name, " is connected with a constant"]);
                0
            }
        }
    }

    /// Adds a three-state buffer, which drives while a control is not active. If its function is a
    /// multiplexer, a gate inside of the cell computes it.
    fn put_tristate(&mut self, function: &Function, three_state: &Function, output: usize) {
        let off = self.control(three_state);
        let mut gate = self.reading.gate(Gate::Tristate, output);
        if function.steps.is_empty() {
            let bit = self.bit(function, false);
            self.reading.push(&mut gate.inputs, bit);
        } else {
            gate.inputs = self.source_bits(function);
            gate.steps = steps_of(self.reading, function, false);
        }
        self.reading.push(&mut gate.inputs, off.bit);
        gate.is_low = off.is_high;
        self.reading.put_gate(self.netlist, gate, None);
    }

    /// Whether an output is that of a register.
    fn is_register(&self, pin: &LibraryPin, output: usize) -> bool {
        self.plain == Some(output) && is_variable(pin, Variant::Plain)
            || self.negated == Some(output) && is_variable(pin, Variant::Negated)
    }

    /// Adds what drives an output.
    fn put_output(&mut self, pin: &LibraryPin, output: usize) {
        let name = pin.name.as_str();
        let Some(function) = &pin.function else {
            return refuse_pin(self.reading, name, " has no function in its Liberty file");
        };
        match &pin.three_state {
            None if self.is_register(pin, output) => return,
            None => self.put_gate(function, false, output, false),
            Some(enable) => self.put_tristate(function, enable, output),
        }
        self.time_gate(function, name);
    }

    /// Adds what drives the outputs that are connected.
    fn put_outputs(&mut self) {
        let model = self.model;
        for (place, pin) in model.pins.iter().enumerate() {
            if self.drives(place, pin) {
                let output = self.output(place);
                self.put_output(pin, output);
            }
        }
    }

    /// Adds the wire to an input, the pin at a place, if it takes time: a buffer with its delay.
    fn put_wire(&mut self, timed: &Timed<'_>, place: usize, pin: &LibraryPin) {
        let from = match self.bits.get(place) {
            Some(Some(Bit::Net(net))) if !pin.is_output => *net,
            _ => return,
        };
        let Some(path) = timed.wire(pin.name.as_str(), from) else {
            return;
        };
        let alloc = self.reading.alloc;
        let end = self.reading.add();
        let mut timing = Timing {
            paths: Vec::new(alloc),
            conditions: Vec::new(alloc),
        };
        self.reading.push(&mut timing.paths, path);
        let buffer = self.reading.buffer(from, end);
        self.reading.put_gate(self.netlist, buffer, Some(timing));
        self.connect(place, Some(Bit::Net(end)));
    }

    /// Adds the wires to the inputs, if a file says that they take time.
    fn put_wires(&mut self, timed: &Timed<'_>) {
        let model = self.model;
        for (place, pin) in model.pins.iter().enumerate() {
            self.put_wire(timed, place, pin);
        }
    }

    /// Connects the pin at a place.
    fn connect(&mut self, place: usize, bit: Option<Bit>) {
        if let Some(connected) = self.bits.get_mut(place) {
            *connected = bit;
        }
    }

    /// Adds all parts.
    fn put_all(&mut self) {
        if let Some(timed) = self.timed {
            self.put_wires(timed);
        }
        self.put_registers();
        self.put_outputs();
    }

    /// Connects a pin.
    fn take_pin(&mut self, name: &str, written: &[WrittenBit]) {
        let Some(place) = self.model.places.get(name) else {
            return refuse_pin(self.reading, name, " is not in its Liberty file");
        };
        match written {
            [] => self.connect(*place, None),
            [bit] => {
                let bit = self.reading.bit(*bit);
                self.connect(*place, Some(bit));
            }
            _ => refuse_pin(self.reading, name, " is not connected with one bit"),
        }
    }

    /// Connects the pins of a cell.
    fn take_pins(&mut self, cell: &WrittenCell) {
        for (name, written) in cell.connections.entries.iter() {
            self.take_pin(name.as_str(), written.as_slice());
        }
    }
}

/// Refuses a pin, after its name.
fn refuse_pin(reading: &mut Reading, name: &str, told: &str) {
    reading.refuse(&["its pin ", name, told]);
}

/// Sets what clears and presets a register. If both are active, it takes the level that the library
/// says: by the order of the two, or as a case of its own.
fn put_levels(
    register: &mut Register,
    state: &LibraryState,
    variant: Variant,
    clear: Option<Control>,
    preset: Option<Control>,
) {
    let (low, high) = (level_after(variant, true), level_after(variant, false));
    let conflict = conflict_of(state, variant);
    let is_preset_first = preset.is_some()
        && (clear.is_none() || conflict == Conflict::Level(high));
    if is_preset_first {
        register.reset = preset;
        register.set = clear;
        register.value = high;
        return;
    }
    register.reset = clear;
    register.set = preset;
    register.value = low;
    if preset.is_some() && conflict != Conflict::Level(low) {
        register.conflict = Some(conflict);
    }
}

/// Adds the gates and registers that make up a cell of this kind, which may have delays of a file.
fn put_parts(
    site: Site<'_>,
    cell: &WrittenCell,
    reading: &mut Reading,
    netlist: &mut Netlist,
    model: &LibraryCell,
    timed: Option<&Timed<'_>>,
) {
    let (alloc, count) = (site.alloc, model.pins.len());
    let bits = reading.made(vec![in alloc; None; count], Vec::new(alloc));
    let mut making = Making {
        model,
        bits,
        plain: None,
        negated: None,
        timed,
        initial: site.initial,
        reading,
        netlist,
    };
    making.take_pins(cell);
    making.put_all();
}

/// Adds the gates and registers that make up a cell of a library.
pub(crate) fn put_library_cell(
    site: Site<'_>,
    name: &str,
    cell: &WrittenCell,
    reading: &mut Reading,
    netlist: &mut Netlist,
    model: &LibraryCell,
) {
    match site.delays {
        Some(delays) => {
            let timed = Timed::new(reading, delays, name, cell.kind.as_str());
            put_parts(site, cell, reading, netlist, model, Some(&timed));
        }
        None => put_parts(site, cell, reading, netlist, model, None),
    }
}
