//! Times parts of the simulator: `vsim_bench SUBJECT COUNT`, for `elaboration` followed by the top.
//! The times go to standard error, the results to standard output.
#![tactic(auto)]

mod drivers;
mod elaboration;
mod reading;

use anyhow::{Context, Result, bail};
use reading::Step;
use std::env;
use std::rt::Clock;

/// Times a subject.
fn run<R: Print + Eprint + Input + Clock + AllocGlobal>(
    rt: &R,
    subject: &str,
    count: &str,
    top: Option<String>,
) -> Result<()> {
    let count = count.parse::<u64>().context("the count is not a number")?;
    match subject {
        "drivers" => drivers::run(rt, count),
        "elaboration" => {
            let top = top.context("no top")?;
            elaboration::run(rt, count, top.as_str())
        }
        "tokens" => reading::run(rt, Step::Tokens, count),
        "parse" => reading::run(rt, Step::Parse, count),
        _ => bail!("no such subject"),
    }
}

/// Times the subject, as often as the words say.
fn main(rt: HostRuntime) -> Result<()> {
    let mut words = env::args(&rt)?.skip(1);
    let subject = words.next().context("no subject")?;
    let count = words.next().context("no count")?;
    run(&rt, subject.as_str(), count.as_str(), words.next())
}
