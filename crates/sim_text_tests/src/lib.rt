//! Tests of the parser's functions, which compare tokens, trees and their places with values worked
//! out by hand. Texts with their listings or faults belong in the cases of `sim_run_cases`.
#![tactic(auto)]

#[cfg(test)]
mod cursors;
#[cfg(test)]
mod line;
#[cfg(test)]
mod lists;
#[cfg(test)]
mod parts;
#[cfg(test)]
mod times;
#[cfg(test)]
mod trees;
#[cfg(test)]
mod words;
#[cfg(test)]
mod written;
