//! The state and the history of a run, and the calls that carry them on (IEEE 1076-2008, 14.7).
#![tactic(auto)]

mod design_type;
mod error;
mod handed_out;
mod handing;
mod order;
mod phase_input;
mod retained;
mod run;
mod store;

pub use design_type::DesignType;
pub use error::{HandOutError, StoreError};
pub use handed_out::HandedOutStore;
pub use order::{Answer, Order};
pub use run::Run;
pub use sim_store_state::{Entry, Log, Past, Record};
pub use store::{Look, Step, WaveStore};
