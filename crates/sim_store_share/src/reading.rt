//! What processes read while they are executed.

use sim_exec_code::Codes;
use sim_flat_design::Process;
use sim_store_nets::ByNumber;

/// The input of the processes of a share while they are executed.
#[derive(Clone, Copy)]
pub struct Reading<'a> {
    pub nets: ByNumber<'a>,
    /// Those of the whole design.
    pub processes: &'a [Process],
    pub codes: &'a Codes,
    pub time: u64,
    /// The number of the first process of the share.
    pub first: usize,
}
