//! The listing of a simulation's history, from the log of a store or from records.
#![tactic(auto)]

mod block;
mod copying;
mod error;
mod head;
mod listing;
mod log;
mod moment;
mod named;
mod short_name;

pub use block::write_whole;
pub use error::WriteError;
pub use listing::write_listing;
pub use log::{Totals, write_last_records, write_log, write_records};
pub use named::Named;
pub use short_name::KnownNames;
