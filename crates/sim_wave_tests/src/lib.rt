//! Tests of drivers: each public call once, against values worked out by hand.
#![tactic(auto)]

#[cfg(test)]
mod drivers;
