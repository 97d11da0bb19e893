//! Tests of numbers that threads draw.
#![tactic(auto)]

#[cfg(test)]
mod drawing;
