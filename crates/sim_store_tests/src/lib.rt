//! Tests over whole texts: flat designs, single executions of processes, and stores, against values
//! worked out by hand from the standard. They are one crate because each crate that drops a design
//! proves that drop again. Tables of texts with their listings or refusals belong in the cases of
//! `sim_run_cases`.
#![tactic(auto)]

#[cfg(test)]
mod codes;
#[cfg(test)]
mod copies;
#[cfg(test)]
mod jobs;
#[cfg(test)]
mod line;
#[cfg(test)]
mod orders;
#[cfg(test)]
mod plain;
#[cfg(test)]
mod processes;
#[cfg(test)]
mod readers;
#[cfg(test)]
mod reference;
#[cfg(test)]
mod rows;
#[cfg(test)]
mod scripts;
#[cfg(test)]
mod statements;
#[cfg(test)]
mod texts;
#[cfg(test)]
mod written;
