//! Tests of command lines and listings, and of runs that need readers, writers or gates of their own:
//! streams that fail midway, give single bytes or never end; runs by several threads, whose
//! processes are executed at the same time, each once; and threads that look at a store, or run it
//! as well. They are one crate because each program over a run proves and links all that it drops.
//! Tables of texts with their listings or refusals belong in the cases of `sim_run_cases`.
#![tactic(auto)]

#[cfg(test)]
mod blocks;
#[cfg(test)]
mod gates;
#[cfg(test)]
mod lines;
#[cfg(test)]
mod listings;
#[cfg(test)]
mod locked;
#[cfg(test)]
mod meetings;
#[cfg(test)]
mod programs;
#[cfg(test)]
mod records;
#[cfg(test)]
mod refusals;
#[cfg(test)]
mod sharing;
#[cfg(test)]
mod streams;
#[cfg(test)]
mod texts;
#[cfg(test)]
mod watching;
#[cfg(test)]
mod words;
