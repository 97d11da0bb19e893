//! The cursor, and the functions that read from it: expressions, waveforms, delays, statements,
//! declarations, design units, and a file.
#![tactic(auto)]

mod concurrents;
pub mod cursor;
pub mod declarations;
pub mod expressions;
mod lists;
pub mod statements;
mod units;
pub mod waveforms;

pub use cursor::Cursor;
pub use units::file;
