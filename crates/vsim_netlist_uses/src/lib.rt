//! Which cells of a netlist read and drive its nets: which gates may be nested, loops, clocks, and
//! nets with several drivers or none.
#![tactic(auto)]

mod drivers;
mod loops;
mod order;
mod uses;

pub use drivers::{driven_nets, push_bit_name, refuse_clashes};
pub use loops::{Clocks, refuse_loops};
pub use order::{all_within, writing_order};
pub use uses::{Use, Uses, is_marked, longest_within, wanted_nets};
