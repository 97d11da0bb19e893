//! Tests of sets, queues and row arrays: each public call once, against values worked out by hand.
#![tactic(auto)]

#[cfg(test)]
mod lists;
#[cfg(test)]
mod queues;
#[cfg(test)]
mod rows;
