//! The text of Liberty files: tokens, statements, and cells as they are written.
#![tactic(auto)]

mod cells;
mod statements;
mod tokens;

pub use cells::{Formula, Unsupported, WrittenCell, WrittenPin, WrittenState, read_cell};
pub use statements::{Form, Statement, read_statement, skip_group, unexpected};
pub use tokens::{Tokens, tokens_of};
