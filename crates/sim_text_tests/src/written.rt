//! A tree as one line: its text with only the necessary spaces, and `@` and the place after each
//! token whose place the tree keeps.

pub mod declarations;
pub mod expressions;
pub mod statements;
pub mod units;
pub mod waveforms;
