//! The values of nets, and how drivers reach them.
#![tactic(auto)]

mod counting;
mod lists;
mod nets;
mod sets;
mod tallies;
mod tally;
mod update_lists;
mod values;
mod wiring;

pub use lists::{add, empty_lists, in_rows};
pub use nets::{ByNumber, Seen, SeenBy, are_views, end_events, net_value, views_at};
pub use sets::{insert_each, replace_by};
pub use tallies::Tallies;
pub use update_lists::UpdateLists;
pub use values::Values;
pub use wiring::connections;
