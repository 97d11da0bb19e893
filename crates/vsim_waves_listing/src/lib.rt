//! What programs read of a run: the pieces of a stream, the lines of a listing, and the map of a
//! netlist.
#![tactic(auto)]

mod fault;
mod line;
mod names;
mod pieces;
mod source_map;
mod words;

pub use fault::Fault;
pub use line::{Line, LineReader, Moment, is_name, label_of, read_line};
pub use names::Names;
pub use pieces::Pieces;
pub use source_map::{MapBit, SourceMap, Variable, read_map};
