//! Numbers that threads draw: each number below a count exactly once.
//!
//! A thread draws by a seat of its own, in one step on one word that all threads share. No call
//! takes `Wait`, so none can take the lock of a `Mutex`, which needs that bound: a draw over a
//! counter under a lock cannot be written.
#![tactic(auto)]

mod drawing;
mod table_rule;
mod view;

pub use drawing::{ClaimSeat, Claims};
pub use view::SeatView;
