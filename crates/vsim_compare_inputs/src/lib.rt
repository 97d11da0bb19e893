//! The inputs of a comparison: listings and VCDs, as changes of numbered signals, with the nets that
//! they offer.
#![tactic(auto)]

mod bits;
mod change;
mod header;
mod listing;
mod vcd;

pub use bits::{Bits, Offers, owned, push};
pub use change::Change;
pub use listing::Listing;
pub use vcd::Vcd;
