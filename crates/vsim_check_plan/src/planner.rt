//! From pins to signals.

use crate::kinds::{Kinds, kinds_of};
use crate::nets::{Bits, bits_of};
use crate::plan::{Label, Plan};
use std::alloc::{AllocError, Global};
use std::collections::HashMap;
use vsim_check_rules::{Input, SignalCondition, WireDelay};
use vsim_netlist_cells::{Connections, Instance};
use vsim_netlist_design::{
    Bit, CheckEvent, CheckList, CheckOwner, CheckRule, Condition, Delays, Draft, Fault, Guard,
    Level, Times, TimingCheck, Width, Window, fault_at, push, wire_to,
};
use vsim_waves_listing::{MapBit, SourceMap};

/// Advice for a design whose files name cells or nets differently.
const ADVICE: &str = ": after rename -enumerate, write_json and write_verilog give the same names";

/// The files from which the checks of signals are made.
#[derive(Clone, Copy)]
struct Files<'a> {
    alloc: Global,
    delays: &'a Delays,
    connections: &'a Connections,
    map: &'a SourceMap,
}

/// A cell of which a check is, with its index, and the line of the check.
#[derive(Clone, Copy)]
struct Site<'a> {
    cell: &'a Instance,
    place: usize,
    line: usize,
}

/// Checks that are being made checks of signals.
struct Planner<'a> {
    files: Files<'a>,
    bits: Bits,
    kinds: Kinds,
    /// What the pins that were looked at are connected with, by cell and pin.
    inputs: HashMap<(usize, usize), Input>,
    plan: Plan,
}

/// Written by hand so that code which drops it needs no proof about its contents.
impl Drop for Planner<'_> {
    fn drop(self) {
        let Planner {
            files: _,
            bits,
            kinds,
            inputs,
            plan,
        } = self;
        drop(bits);
        drop(kinds);
        drop(inputs);
        drop(plan);
    }
}

/// The level of a constant of a map.
fn constant(letter: u8) -> Input {
    Input::Constant(Level::from_byte(letter).unwrap_or(Level::Unknown))
}

/// A time as it counts: a negative delay is none.
fn plain(time: Option<i64>) -> u64 {
    u64::try_from(time.unwrap_or(0)).unwrap_or(0)
}

/// The delays of a wire, if it takes time.
fn delay_of(times: Option<Times>) -> Option<WireDelay> {
    let times = times?;
    let delay = WireDelay {
        rise: plain(times.rise),
        fall: plain(times.fall),
    };
    if delay.rise == 0 && delay.fall == 0 {
        return None;
    }
    Some(delay)
}

impl Planner<'_> {
    /// A fault of a cell.
    fn fault(&self, site: Site<'_>, parts: &[&str]) -> Fault {
        let mut text = Draft::new(self.files.alloc);
        text.push_shown(&site.line);
        text.push_all(&[": instance ", site.cell.name.as_str(), ", "]);
        text.push_all(parts);
        Fault::of_draft(text)
    }

    /// The refusal of a pin.
    fn no_pin(&self, site: Site<'_>, pin: usize, told: &str) -> Fault {
        let name = self.files.delays.pins.name(pin);
        self.fault(site, &["pin ", name, ": ", told])
    }

    /// The bit that a pin is connected with.
    fn bit(&self, site: Site<'_>, pin: usize) -> Result<Bit, Fault> {
        let Some(known) = site.cell.pin(self.files.delays.pins.name(pin)) else {
            return Err(self.no_pin(site, pin, "the netlist's cell has no such pin"));
        };
        match known.bit {
            Some(bit) => Ok(bit),
            None => Err(self.no_pin(site, pin, "it is not of one bit")),
        }
    }

    /// What the map says of a net.
    fn mapped(&self, site: Site<'_>, pin: usize, net: usize) -> Result<MapBit, Fault> {
        match self.bits.get(net) {
            Some(Some(bit)) => Ok(*bit),
            _ => {
                let told = "the map has no name of its net: rename -enumerate before write_json";
                Err(self.no_pin(site, pin, told))
            }
        }
    }

    /// The index of a signal of the map among those that are looked at.
    fn signal(&mut self, place: usize) -> Result<usize, AllocError> {
        let name = match self.files.map.signals.get_index(place) {
            Some(name) => name.as_str().as_bytes(),
            None => b"",
        };
        if let Some(number) = self.plan.names.find(name) {
            return Ok(self.plan.signals.get(number).copied().unwrap_or(0));
        }
        let _is_new = self.plan.names.add(self.files.alloc, name)?;
        self.add_signal()
    }

    /// Adds the signal of the last name.
    fn add_signal(&mut self) -> Result<usize, AllocError> {
        let signal = self.plan.checker.add_signal()?;
        push(&mut self.plan.signals, signal)?;
        Ok(signal)
    }

    /// What a bit of the map is.
    fn input_of(&mut self, bit: MapBit) -> Result<Input, AllocError> {
        Ok(match bit {
            MapBit::Signal(place) => Input::Signal(self.signal(place)?),
            MapBit::Constant(letter) => constant(letter),
            MapBit::Absent => Input::Constant(Level::Unknown),
        })
    }

    /// What the net of a pin is.
    fn net_of(&mut self, site: Site<'_>, pin: usize) -> Result<Input, Fault> {
        match self.bit(site, pin)? {
            Bit::Constant(level) => Ok(Input::Constant(level)),
            Bit::Net(net) => {
                let bit = self.mapped(site, pin, net)?;
                Ok(self.input_of(bit)?)
            }
        }
    }

    /// The delays of the wire to a pin, if it takes time.
    fn wire(&self, site: Site<'_>, pin: usize) -> Result<Option<WireDelay>, AllocError> {
        let (name, kind) = (site.cell.name.as_str(), site.cell.kind.as_str());
        let entries = self.files.delays.entries(self.files.alloc, name, kind)?;
        Ok(delay_of(wire_to(entries.as_slice(), pin)))
    }

    /// What is at the end of a wire, if it takes time, from a net.
    fn after_wire(&mut self, net: Input, delay: Option<WireDelay>) -> Result<Input, AllocError> {
        match (net, delay) {
            (Input::Signal(signal), Some(delay)) => {
                Ok(Input::Signal(self.plan.checker.add_wire(signal, delay)?))
            }
            _ => Ok(net),
        }
    }

    /// What a pin is connected with, which is looked at for the first time.
    fn new_input(&mut self, site: Site<'_>, pin: usize) -> Result<Input, Fault> {
        let net = self.net_of(site, pin)?;
        let delay = self.wire(site, pin)?;
        Ok(self.after_wire(net, delay)?)
    }

    /// Notes what a pin is connected with.
    fn note(&mut self, site: Site<'_>, pin: usize, input: Input) -> Result<(), AllocError> {
        self.inputs.insert((site.place, pin), input)?;
        Ok(())
    }

    /// What a pin is connected with: its net, or the end of the wire from there.
    fn input(&mut self, site: Site<'_>, pin: usize) -> Result<Input, Fault> {
        if let Some(input) = self.inputs.get(&(site.place, pin)) {
            return Ok(*input);
        }
        let input = self.new_input(site, pin)?;
        self.note(site, pin, input)?;
        Ok(input)
    }

    /// The inputs of a condition.
    fn inputs(&mut self, site: Site<'_>, condition: &Condition) -> Result<Vec<Input>, Fault> {
        let mut inputs = Vec::new(self.files.alloc);
        for pin in condition.inputs.iter() {
            let input = self.input(site, *pin)?;
            push(&mut inputs, input)?;
        }
        Ok(inputs)
    }

    /// The index of a condition of pins, as one of signals.
    fn condition(&mut self, site: Site<'_>, condition: &Condition) -> Result<usize, Fault> {
        let inputs = self.inputs(site, condition)?;
        let steps = condition.steps.clone()?;
        let condition = SignalCondition { inputs, steps };
        Ok(self.plan.checker.add_condition(condition)?)
    }

    /// A guard on pins, as one on signals.
    fn guard(&mut self, site: Site<'_>, guard: Option<Guard>) -> Result<Option<Guard>, Fault> {
        let Some(guard) = guard else {
            return Ok(None);
        };
        let delays = self.files.delays;
        let Some(condition) = delays.conditions.get(guard.condition) else {
            return Ok(None);
        };
        let condition = self.condition(site, condition)?;
        Ok(Some(Guard { condition, ..guard }))
    }

    /// An event of a pin, as one of a signal; `None` if the pin is a constant.
    fn event(&mut self, site: Site<'_>, event: CheckEvent) -> Result<Option<CheckEvent>, Fault> {
        let guard = self.guard(site, event.guard)?;
        Ok(match self.input(site, event.signal)? {
            Input::Signal(signal) => {
                Some(CheckEvent {
                    signal,
                    guard,
                    ..event
                })
            }
            Input::Constant(_) => None,
        })
    }

    /// The guards of a window.
    fn guarded(&mut self, site: Site<'_>, window: &Window) -> Result<Window, Fault> {
        let stamp = self.guard(site, window.stamp)?;
        let check = self.guard(site, window.check)?;
        Ok(Window {
            stamp,
            check,
            ..*window
        })
    }

    /// Both events of a window; `None` if one is of a constant.
    fn events(
        &mut self,
        site: Site<'_>,
        window: &Window,
    ) -> Result<Option<(CheckEvent, CheckEvent)>, Fault> {
        let reference = self.event(site, window.reference)?;
        let data = self.event(site, window.data)?;
        match (reference, data) {
            (Some(reference), Some(data)) => Ok(Some((reference, data))),
            _ => Ok(None),
        }
    }

    /// Adds a window.
    fn put_window(&mut self, site: Site<'_>, window: &Window) -> Result<(), Fault> {
        let Some((reference, data)) = self.events(site, window)? else {
            return Ok(());
        };
        let guarded = self.guarded(site, window)?;
        let window = Window {
            reference,
            data,
            ..guarded
        };
        let check = self.plan.labels.len();
        Ok(self.plan.checker.add_window(check, window)?)
    }

    /// Adds the width of pulses.
    fn put_width(&mut self, site: Site<'_>, width: Width) -> Result<(), Fault> {
        let Some(event) = self.event(site, width.event)? else {
            return Ok(());
        };
        let check = self.plan.labels.len();
        let width = Width { event, ..width };
        Ok(self.plan.checker.add_width(check, width)?)
    }

    /// Adds what a check demands of a cell.
    fn put_rule(&mut self, site: Site<'_>, rule: &CheckRule) -> Result<(), Fault> {
        match rule {
            CheckRule::Window(window) => self.put_window(site, window),
            CheckRule::Width(width) => self.put_width(site, *width),
        }
    }

    /// Adds a check of a cell, both by their indices.
    fn put(&mut self, check: &TimingCheck, label: Label) -> Result<(), Fault> {
        let connections = self.files.connections;
        let Some(cell) = connections.instances.get(label.cell) else {
            return Ok(());
        };
        let site = Site {
            cell,
            place: label.cell,
            line: check.line,
        };
        self.put_rule(site, &check.rule)?;
        Ok(push(&mut self.plan.labels, label)?)
    }

    /// The refusal of an instance that the netlist has not.
    fn no_instance(&self, name: &str, line: usize) -> Fault {
        let alloc = self.files.alloc;
        if name.is_empty() {
            return fault_at(
                alloc,
                line,
                &["a check of the design itself is not supported"],
            );
        }
        let told = ["instance ", name, ": the netlist has no such cell", ADVICE];
        fault_at(alloc, line, told.as_slice())
    }

    /// The name of an instance of the file.
    fn name_of(&self, instance: usize) -> &str {
        match self.files.delays.instances.lists.get(instance) {
            Some(list) => list.name.as_str(),
            None => "",
        }
    }

    /// The index of the cell that an instance of the file is, which has to be of its kind.
    fn cell_of(&self, instance: usize, line: usize) -> Result<usize, Fault> {
        let name = self.name_of(instance);
        match self.files.connections.find(name) {
            Some(cell) => Ok(cell),
            None => Err(self.no_instance(name, line)),
        }
    }

    /// Refuses a cell of another kind than the file says.
    fn demand_kind(&self, name: &str, cell: usize) -> Result<(), Fault> {
        let (alloc, delays) = (self.files.alloc, self.files.delays);
        let Some((kind, line)) = delays.instances.kind(name) else {
            return Ok(());
        };
        let given = delays.kind_names.name(kind);
        let Some(cell) = self.files.connections.instances.get(cell) else {
            return Ok(());
        };
        if cell.kind.as_str() == given {
            return Ok(());
        }
        let (there, quoted) = (cell.kind.as_str(), "\", and the netlist's cell is of kind ");
        let told = [
            "instance ",
            name,
            ": its CELLTYPE is \"",
            given,
            quoted,
            there,
        ];
        Err(fault_at(alloc, line, told.as_slice()))
    }

    /// Adds a check of an instance of the file.
    fn put_at_instance(
        &mut self,
        check: &TimingCheck,
        place: usize,
        instance: usize,
    ) -> Result<(), Fault> {
        let cell = self.cell_of(instance, check.line)?;
        self.demand_kind(self.name_of(instance), cell)?;
        self.put(check, Label { cell, check: place })
    }

    /// The cells of a kind of the file.
    fn cells_of(&self, kind: usize) -> Result<Vec<usize>, AllocError> {
        let name = match self.files.delays.kinds.lists.get(kind) {
            Some(list) => list.name.as_str(),
            None => "",
        };
        let mut cells = Vec::new(self.files.alloc);
        cells.extend_from_slice(self.kinds.cells(name))?;
        Ok(cells)
    }

    /// Adds a check of all cells of a kind.
    fn put_at_kind(&mut self, check: &TimingCheck, place: usize, kind: usize) -> Result<(), Fault> {
        let cells = self.cells_of(kind)?;
        for cell in cells.iter() {
            let label = Label {
                cell: *cell,
                check: place,
            };
            self.put(check, label)?;
        }
        Ok(())
    }

    /// Adds all checks of the file.
    fn put_all(&mut self, checks: &CheckList) -> Result<(), Fault> {
        for (place, check) in checks.checks.iter().enumerate() {
            match check.owner {
                CheckOwner::Instance(instance) => self.put_at_instance(check, place, instance)?,
                CheckOwner::Kind(kind) => self.put_at_kind(check, place, kind)?,
            }
        }
        Ok(())
    }

    /// The checks of signals.
    fn into_plan(self) -> Plan {
        let Planner {
            files: _,
            bits,
            kinds,
            inputs,
            plan,
        } = self;
        drop(bits);
        drop(kinds);
        drop(inputs);
        plan
    }
}

/// No checks of signals.
fn make_planner(files: Files<'_>) -> Result<Planner<'_>, AllocError> {
    let bits = bits_of(files.alloc, files.connections, files.map)?;
    let kinds = kinds_of(files.alloc, files.connections)?;
    Ok(Planner {
        files,
        bits,
        kinds,
        inputs: HashMap::new(files.alloc),
        plan: Plan::new(files.alloc),
    })
}

/// Makes checks of signals of those of a file, by what the pins of the netlist's cells are
/// connected with and by the names that its map has of nets.
pub fn make_plan(
    alloc: Global,
    delays: &Delays,
    checks: &CheckList,
    connections: &Connections,
    map: &SourceMap,
) -> Result<Plan, Fault> {
    let files = Files {
        alloc,
        delays,
        connections,
        map,
    };
    let mut planner = make_planner(files)?;
    match planner.put_all(checks) {
        Ok(()) => Ok(planner.into_plan()),
        Err(fault) => Err(fault.about(alloc, &["the SDF file"])),
    }
}
