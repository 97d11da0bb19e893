//! The delays of a cell, from those of a file.

use crate::reading::Reading;
use vsim_netlist_design::{
    Arc, Arcs, Bit, Condition, DelayEntry, Delays, Edge, LibraryCell, PathCondition, PathDelay,
    Times, Timing, When, arcs_to, fault_at, wire_to,
};

/// The delays of an instance, and the file that they are from.
#[derive(Drop)]
pub(crate) struct Timed<'a> {
    delays: &'a Delays,
    entries: Vec<DelayEntry>,
}

/// The pins of a cell, and the bits that they are connected with.
#[derive(Clone, Copy)]
pub(crate) struct Connected<'a> {
    pub(crate) model: &'a LibraryCell,
    pub(crate) bits: &'a [Option<Bit>],
}

/// A time as the text has it. A negative one is none.
fn plain(time: Option<i64>) -> Option<u64> {
    match time {
        Some(time) => Some(u64::try_from(time).unwrap_or(0)),
        None => None,
    }
}

/// A path from a net with these delays.
fn path_from(from: usize, edge: Edge, when: When, times: &Times) -> PathDelay {
    PathDelay {
        from,
        edge,
        when,
        rise: plain(times.rise),
        fall: plain(times.fall),
        off: plain(times.off),
        has_off: times.has_off,
    }
}

/// The bit at a place, if there is one.
fn bit_at(bits: &[Option<Bit>], place: usize) -> Option<Bit> {
    match bits.get(place) {
        Some(Some(bit)) => Some(*bit),
        _ => None,
    }
}

/// Whether a wire has a delay.
fn takes_time(times: &Times) -> bool {
    plain(times.rise).unwrap_or(0) != 0 || plain(times.fall).unwrap_or(0) != 0
}

/// Refuses delays of an instance of another kind.
fn demand_kind(reading: &mut Reading, delays: &Delays, instance: &str, kind: &str) {
    let Some((place, line)) = delays.instances.kind(instance) else {
        return;
    };
    let given = delays.kind_names.name(place);
    if given != kind {
        let fault = fault_at(reading.alloc, line, &["its CELLTYPE is \"", given, "\""]);
        reading.fail(fault.about(reading.alloc, &["the SDF file"]));
    }
}

impl<'a> Timed<'a> {
    /// The delays of an instance of a kind.
    pub(crate) fn new(
        reading: &mut Reading,
        delays: &'a Delays,
        instance: &str,
        kind: &str,
    ) -> Timed<'a> {
        demand_kind(reading, delays, instance, kind);
        let alloc = reading.alloc;
        let entries = reading.made(delays.entries(alloc, instance, kind), Vec::new(alloc));
        Timed { delays, entries }
    }

    /// The bit of a pin, given by its index in the file; `None` if it is not connected.
    fn bit(&self, reading: &mut Reading, cell: Connected<'_>, pin: usize) -> Option<Bit> {
        let name = self.delays.pins.name(pin);
        match cell.model.places.get(name) {
            Some(place) => bit_at(cell.bits, *place),
            None => {
                reading.refuse(&[
                    "the SDF file has a delay of its pin ",
                    name,
                    ", which is not there",
                ]);
                None
            }
        }
    }

    /// The bits of the inputs of a condition.
    fn inputs(
        &self,
        reading: &mut Reading,
        cell: Connected<'_>,
        condition: &Condition,
    ) -> Vec<Bit> {
        let mut bits = Vec::new(reading.alloc);
        for pin in condition.inputs.iter() {
            match self.bit(reading, cell, *pin) {
                Some(bit) => reading.push(&mut bits, bit),
                None => {
                    let name = self.delays.pins.name(*pin);
                    reading.refuse(&["its pin ", name, " is not connected"]);
                }
            }
        }
        bits
    }

    /// When a path has its delay. A condition of the file, given by its index, is added here.
    fn when(
        &self,
        reading: &mut Reading,
        timing: &mut Timing,
        cell: Connected<'_>,
        when: When,
    ) -> When {
        let When::Holds(place) = when else {
            return when;
        };
        let added = timing.conditions.len();
        if let Some(condition) = self.delays.conditions.get(place) {
            let inputs = self.inputs(reading, cell, condition);
            let alloc = reading.alloc;
            let steps = reading.made(condition.steps.clone(), Vec::new(alloc));
            reading.push(&mut timing.conditions, PathCondition { inputs, steps });
        }
        When::Holds(added)
    }

    /// Adds the paths from a pin.
    fn put_path(
        &self,
        reading: &mut Reading,
        timing: &mut Timing,
        cell: Connected<'_>,
        arc: &Arc,
        pin: usize,
    ) {
        if let Some(Bit::Net(net)) = self.bit(reading, cell, pin) {
            let when = self.when(reading, timing, cell, arc.when);
            reading.push(
                &mut timing.paths,
                path_from(net, arc.edge, when, &arc.times),
            );
        }
    }

    /// Adds the delays of these paths.
    fn put_arcs(
        &self,
        reading: &mut Reading,
        timing: &mut Timing,
        cell: Connected<'_>,
        arcs: &[Arc],
    ) {
        for arc in arcs {
            match arc.from {
                Some(pin) => self.put_path(reading, timing, cell, arc, pin),
                None => put_paths(reading, timing, cell, arc),
            }
        }
    }

    /// The delays of the paths to an output.
    pub(crate) fn timing(
        &self,
        reading: &mut Reading,
        cell: Connected<'_>,
        output: &str,
    ) -> Timing {
        let alloc = reading.alloc;
        let mut timing = Timing {
            paths: Vec::new(alloc),
            conditions: Vec::new(alloc),
        };
        let place = self.delays.pins.find(output).unwrap_or(usize::MAX);
        match arcs_to(alloc, self.entries.as_slice(), place) {
            Ok(Arcs::Known(arcs)) if arcs.is_empty() => {
                reading.refuse(&["the SDF file has no path to its output ", output]);
            }
            Ok(Arcs::Known(arcs)) => self.put_arcs(reading, &mut timing, cell, arcs.as_slice()),
            Ok(Arcs::TooMany) => {
                reading.refuse(&["the SDF file has too many paths to its output ", output]);
            }
            Err(_lack) => reading.lack(),
        }
        timing
    }

    /// The delays of the wire to an input, as those of a path from a net, if they take time.
    pub(crate) fn wire(&self, input: &str, net: usize) -> Option<PathDelay> {
        let pin = self.delays.pins.find(input)?;
        let times = wire_to(self.entries.as_slice(), pin)?;
        if !takes_time(&times) {
            return None;
        }
        Some(path_from(net, Edge::Both, When::Always, &times))
    }
}

/// Adds the paths from all inputs.
fn put_paths(reading: &mut Reading, timing: &mut Timing, cell: Connected<'_>, arc: &Arc) {
    for (place, pin) in cell.model.pins.iter().enumerate() {
        if let (false, Some(Some(Bit::Net(net)))) = (pin.is_output, cell.bits.get(place)) {
            let path = path_from(*net, arc.edge, arc.when, &arc.times);
            reading.push(&mut timing.paths, path);
        }
    }
}
