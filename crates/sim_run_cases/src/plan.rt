//! How words are carried out: what the words before them set.

use crate::calls::defaults;
use crate::way::Way;
use anyhow::{Context, Result, bail};
use sim_run::Options;
use std::alloc::{AllocError, Global};

/// The way in which cases are run, and the options of `--calls`.
#[derive(Drop)]
pub struct Plan {
    pub way: Way,
    pub options: Options,
}

impl Plan {
    /// Cases as the program runs them, and the options that `--calls` has by itself.
    pub fn new(alloc: Global) -> Result<Plan, AllocError> {
        Ok(Plan {
            way: Way::measured(),
            options: defaults(alloc)?,
        })
    }

    /// Sets the stop time.
    fn put_stop(&mut self, value: &str) -> Result<()> {
        match value.parse::<u64>() {
            Ok(stop) => self.options.stop = stop,
            Err(_) => bail!("{value} is no stop time"),
        }
        Ok(())
    }

    /// Sets the limit of cycles.
    fn put_limit(&mut self, value: &str) -> Result<()> {
        match value.parse::<u32>() {
            Ok(limit) => self.options.limit = limit,
            Err(_) => bail!("{value} is no limit"),
        }
        Ok(())
    }

    /// Sets the top of `--calls`.
    fn put_top(&mut self, alloc: Global, value: &str) -> Result<()> {
        self.options.top = String::from_str(alloc, value).context("reading the words")?;
        Ok(())
    }

    /// Sets the number of workers of the cases.
    fn put_workers(&mut self, alloc: Global, value: &str) -> Result<()> {
        self.way = Way::handed_out(alloc, value)?;
        Ok(())
    }

    /// Sets what this name stands for. `false` if it stands for nothing.
    fn put_named(&mut self, alloc: Global, name: &str, value: &str) -> Result<bool> {
        let put = match name {
            "--by" => self.put_workers(alloc, value),
            "--top" => self.put_top(alloc, value),
            "--stop" => self.put_stop(value),
            "--limit" => self.put_limit(value),
            _ => return Ok(false),
        };
        put?;
        Ok(true)
    }

    /// Reads a word that sets something: a name, `=` and a value. `false` if it is another word.
    pub fn put(&mut self, alloc: Global, word: &str) -> Result<bool> {
        match word.split_once('=') {
            Some((name, value)) => self.put_named(alloc, name, value),
            None => Ok(false),
        }
    }
}
