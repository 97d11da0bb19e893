//! Tests of values and times: each public call once, against values worked out by hand.
#![tactic(auto)]

#[cfg(test)]
mod values;
