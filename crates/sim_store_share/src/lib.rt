//! What adjacent processes own, where they are executed, and when their drivers are due.
#![tactic(auto)]

mod body;
mod dividing;
mod execution;
mod pending_times;
mod reading;
mod rows;
mod share;
mod taking;

pub use pending_times::PendingTimes;
pub use reading::Reading;
pub use share::Share;
