//! A module of gates: its ports, cells, nets and the names of its source; the cells of a library;
//! stimuli; and texts.
#![tactic(auto)]

mod arcs;
mod bits;
mod checks;
mod delays;
mod fault;
mod gates;
mod level;
mod library;
mod lists;
mod netlist;
mod registers;
mod stimuli;
mod times;
mod timing;
mod writing;

pub use arcs::{Arc, Arcs, arcs_to, wire_to};
pub use bits::Bit;
pub use checks::{
    CheckEvent, CheckList, CheckOwner, CheckRule, Family, Guard, TimingCheck, Width, Window,
};
pub use delays::{
    Condition, DelayEntry, DelayList, DelayTable, Delayed, Delays, Edge, NameList, Passed, Path,
    PinPlace, Times, When,
};
pub use fault::{Fault, fault_at, line_of};
pub use gates::{Gate, GateCell};
pub use level::Level;
pub use library::{
    Conflict, Function, Library, LibraryCell, LibraryEntry, LibraryPin, LibraryState, Source, Step,
    Variant,
};
pub use lists::{empty_lists, push};
pub use netlist::{Cell, Net, Netlist, Port, Variable};
pub use registers::{Control, Register, Style};
pub use stimuli::{Change, Stimuli};
pub use times::{push_time, time_bytes};
pub use timing::{PathCondition, PathDelay, Timing};
pub use writing::Draft;
