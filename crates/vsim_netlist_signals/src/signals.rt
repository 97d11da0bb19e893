//! The signals of a text.

use crate::names::Names;
use std::alloc::Global;
use vsim_netlist_design::{Bit, Draft, Level, Netlist, Port};

/// A signal: its name, once it has one, and its initial value.
#[derive(Drop)]
struct Signal {
    name: Option<String>,
    initial: Option<Level>,
}

/// A constant as a signal, for places where a literal is not allowed.
#[derive(Clone, Copy)]
struct Constant {
    level: Level,
    place: usize,
}

/// The signals of a text: one for each net of a netlist, by its index, then further ones.
#[derive(Drop)]
pub struct Signals {
    alloc: Global,
    /// The name of the entity.
    pub entity: String,
    pub names: Names,
    signals: Vec<Signal>,
    constants: Vec<Constant>,
}

/// The initial values by which signals are declared together.
static INITIALS: [(Option<Level>, &str); 5] = [
    (None, ""),
    (Some(Level::Zero), ":='0'"),
    (Some(Level::One), ":='1'"),
    (Some(Level::Unknown), ":='X'"),
    (Some(Level::HighImpedance), ":='Z'"),
];

/// The names of the variables and the attribute in cells that have the delays of paths.
static VARIABLES: [&str; 3] = ["v", "n", "event"];

impl Signals {
    /// No signals. The entity has the name of the netlist.
    fn new(alloc: Global, netlist: &Netlist) -> Signals {
        let mut names = Names::new(alloc);
        if netlist.has_paths {
            names.reserve(&VARIABLES);
        }
        let entity = names.like(&Draft::of(alloc, netlist.name.as_str()));
        Signals {
            alloc,
            entity,
            names,
            signals: Vec::new(alloc),
            constants: Vec::new(alloc),
        }
    }

    /// Adds a signal at the end.
    fn push(&mut self, name: Option<String>, initial: Option<Level>) {
        if self.signals.push(Signal { name, initial }).is_err() {
            self.names.lack();
        }
    }

    /// Adds a nameless signal for each net of a netlist.
    fn push_nets(&mut self, netlist: &Netlist) {
        for net in netlist.nets.iter() {
            self.push(None, net.initial);
        }
    }

    /// The name of a signal, if it has one.
    pub fn name(&self, place: usize) -> Option<&str> {
        match self.signals.get(place) {
            Some(signal) => match &signal.name {
                Some(name) => Some(name.as_str()),
                None => None,
            },
            None => None,
        }
    }

    /// The name of a signal; empty if it has none.
    pub fn text(&self, place: usize) -> &str {
        self.name(place).unwrap_or("")
    }

    /// The number of signals with names.
    pub fn count(&self) -> usize {
        let mut count = 0usize;
        for signal in self.signals.iter() {
            if signal.name.is_some() {
                count = count.saturating_add(1);
            }
        }
        count
    }

    /// Gives a name to a signal.
    fn put_name(&mut self, place: usize, name: String) {
        if let Some(signal) = self.signals.get_mut(place) {
            signal.name = Some(name);
        }
    }

    /// Gives a short name to a signal without one.
    pub fn ensure(&mut self, place: usize) {
        if self.name(place).is_none() {
            let name = self.names.fresh();
            self.put_name(place, name);
        }
    }

    /// Sets the initial value of a signal.
    pub fn begin(&mut self, place: usize, level: Level) {
        if let Some(signal) = self.signals.get_mut(place) {
            signal.initial = Some(level);
        }
    }

    /// The initial value of a signal, if it has one.
    pub fn initial(&self, place: usize) -> Option<Level> {
        match self.signals.get(place) {
            Some(signal) => signal.initial,
            None => None,
        }
    }

    /// The number of all signals, of which some may have no name.
    pub fn len(&self) -> usize {
        self.signals.len()
    }

    /// Whether there are no signals.
    pub fn is_empty(&self) -> bool {
        self.signals.is_empty()
    }

    /// Adds a signal with a short name, and returns its place.
    pub fn add(&mut self, initial: Option<Level>) -> usize {
        let place = self.signals.len();
        let name = self.names.fresh();
        self.push(Some(name), initial);
        place
    }

    /// The signal that always has a level, if there is one.
    fn known_constant(&self, level: Level) -> Option<usize> {
        for each in self.constants.iter() {
            if each.level == level {
                return Some(each.place);
            }
        }
        None
    }

    /// The signal that always has a level.
    pub fn constant(&mut self, level: Level) -> usize {
        if let Some(place) = self.known_constant(level) {
            return place;
        }
        let place = self.add(Some(level));
        if self.constants.push(Constant { level, place }).is_err() {
            self.names.lack();
        }
        place
    }

    /// Adds signals that always have these levels.
    fn push_constants(&mut self, levels: &[Level]) {
        for level in levels {
            let _ = self.constant(*level);
        }
    }

    /// The name of the signal that always has a level, if there is one with a name that is shorter
    /// than the literal.
    pub fn short_constant(&self, level: Level) -> Option<&str> {
        let name = self.text(self.known_constant(level)?);
        if name.len() < level.literal().len() {
            Some(name)
        } else {
            None
        }
    }

    /// The signal of a bit, which has a name.
    pub fn of_bit(&mut self, bit: Bit) -> usize {
        match bit {
            Bit::Constant(level) => self.constant(level),
            Bit::Net(place) => {
                self.ensure(place);
                place
            }
        }
    }

    /// Names the bits of a port as in the source.
    fn name_port(&mut self, port: &Port) {
        let is_vector = port.bits.len() > 1;
        for (index, bit) in port.bits.iter().enumerate() {
            if let Bit::Net(place) = bit {
                self.name_bit(port, *place, index, is_vector);
            }
        }
    }

    /// Names a bit of a port, unless it has a name.
    fn name_bit(&mut self, port: &Port, place: usize, index: usize, is_vector: bool) {
        if self.name(place).is_some() {
            return;
        }
        let mut source = Draft::of(self.alloc, port.name.as_str());
        if is_vector {
            source.push("_");
            source.push_shown(&index);
        }
        let name = self.names.like(&source);
        self.put_name(place, name);
    }

    /// Names the bits of all ports.
    fn name_ports(&mut self, netlist: &Netlist) {
        for port in netlist.ports.iter() {
            self.name_port(port);
        }
    }

    /// Adds the declaration of the signals with one initial value.
    fn push_declaration(&self, text: &mut Draft, initial: Option<Level>, literal: &str) {
        let mut is_first = true;
        for signal in self.signals.iter() {
            if let Some(name) = named_with(signal, initial) {
                text.push(if is_first { "signal " } else { "," });
                text.push(name);
                is_first = false;
            }
        }
        if !is_first {
            push_type(text, literal);
        }
    }

    /// Adds the declarations of all signals.
    pub fn push_declarations(&self, text: &mut Draft) {
        for (initial, literal) in &INITIALS {
            self.push_declaration(text, *initial, *literal);
        }
    }
}

/// Adds the end of a declaration: the type, and an initial value.
fn push_type(text: &mut Draft, literal: &str) {
    text.push(":std_logic");
    text.push(literal);
    text.push(";\n");
}

/// The name of a signal, if it has one and this initial value.
fn named_with(signal: &Signal, initial: Option<Level>) -> Option<&str> {
    match &signal.name {
        Some(name) if signal.initial == initial => Some(name.as_str()),
        _ => None,
    }
}

/// The signals of a netlist, with names for those of its ports, short ones for signals that always
/// have these levels, and then for these nets, each given after the number by which it is sorted.
pub fn make_signals(
    alloc: Global,
    netlist: &Netlist,
    levels: &[Level],
    wanted: &[(usize, usize)],
) -> Signals {
    let mut signals = Signals::new(alloc, netlist);
    signals.push_nets(netlist);
    signals.name_ports(netlist);
    signals.push_constants(levels);
    for (_, place) in wanted {
        signals.ensure(*place);
    }
    signals
}
