//! Tests of a team: orders, the threads that carry them out, and their answers.
#![tactic(auto)]

#[cfg(test)]
mod board;
#[cfg(test)]
mod teams;
#[cfg(test)]
mod visits;
