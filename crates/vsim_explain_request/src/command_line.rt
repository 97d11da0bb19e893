//! The command line, and the answers to one that asks for no explanation.

use crate::help::{own_help, own_refusal};
use crate::request::{Request, ask_for_json, read_request};
use anyhow::{Context, Result, bail};
use sim_run_options::CliFault;
use std::rt::Env;
use std::{env, io};
use vsim_explain_json::{Kind, Report};

/// The message for words that are not valid UTF-8, as `clap` words it.
const NO_TEXT: &str = "error: invalid UTF-8 was detected in one or more arguments

For more information, try '--help'.
";

/// What a command line asks for.
#[derive(Drop)]
pub enum Asked {
    /// An explanation.
    Explanation(Request),
    /// Something else, which has been answered, with this exit status.
    Answered(u8),
}

/// Prints the help.
fn tell_help<R: AllocGlobal + Print>(rt: &R, text: &str) -> Result<()> {
    let text = own_help(rt.alloc(), text)?;
    rt.print(text.as_str()).context("writing")
}

/// Prints that words are refused, and why.
fn tell_refused<R: AllocGlobal + Eprint>(rt: &R, text: &str) -> Result<()> {
    let text = own_refusal(rt.alloc(), text)?;
    rt.eprint(text.as_str()).context("writing")
}

/// A refusal of words, divided into its first line, without the word that begins it, and the rest.
fn divided(text: &str) -> (&str, &str) {
    let text = text.strip_prefix("error: ").unwrap_or(text);
    text.split_once('\n').unwrap_or((text, ""))
}

/// Prints that words are refused, and why, as a line of JSON.
fn tell_tools<R: AllocGlobal + Print>(rt: &R, text: &str) -> Result<()> {
    let text = own_refusal(rt.alloc(), text)?;
    let (message, advice) = divided(text.as_str());
    let report = Report {
        place: None,
        kind: Kind::Error,
        code: "Usage",
        message,
        advice: advice.as_bytes().trim_ascii_start(),
    };
    let line = report.to_line(rt.alloc())?;
    rt.print(line.as_str()).context("writing")
}

/// Prints that words are refused, and why: for tools or for people.
fn tell_fault<R: AllocGlobal + Print + Eprint>(rt: &R, text: &str, is_json: bool) -> Result<()> {
    if is_json {
        tell_tools(rt, text)
    } else {
        tell_refused(rt, text)
    }
}

/// Answers words that give no options, and returns the exit status.
fn answer_fault<R: AllocGlobal + Print + Eprint>(
    rt: &R,
    fault: &CliFault,
    is_json: bool,
) -> Result<u8> {
    match fault {
        CliFault::Help(text) => {
            tell_help(rt, text.as_str())?;
            Ok(0)
        }
        CliFault::Refused(text) => {
            tell_fault(rt, text.as_str(), is_json)?;
            Ok(2)
        }
        CliFault::Memory => bail!("out of memory"),
    }
}

/// What words ask for.
fn ask_by_words<R: AllocGlobal + Print + Eprint>(rt: &R, words: Vec<String>) -> Result<Asked> {
    let is_json = ask_for_json(words.as_slice());
    match read_request(rt.alloc(), words) {
        Ok(request) => Ok(Asked::Explanation(request)),
        Err(fault) => Ok(Asked::Answered(answer_fault(rt, &fault, is_json)?)),
    }
}

/// Whether the words ask for the version.
fn ask_for_version(words: &[String]) -> bool {
    match words.first() {
        Some(first) => first.as_str() == "--version" || first.as_str() == "-V",
        None => false,
    }
}

/// What words that are valid UTF-8 ask for.
fn ask_by_texts<R: AllocGlobal + Print + Eprint>(
    rt: &R,
    words: Vec<String>,
    version: &str,
) -> Result<Asked> {
    if ask_for_version(words.as_slice()) {
        drop(words);
        rt.println(version)?;
        return Ok(Asked::Answered(0));
    }
    ask_by_words(rt, words)
}

/// Prints that the words are not valid UTF-8.
fn answer_no_text<R: Eprint>(rt: &R) -> Result<Asked> {
    rt.eprint(NO_TEXT)?;
    Ok(Asked::Answered(2))
}

/// The words after the program's name.
fn words<R: AllocGlobal + Env>(rt: &R) -> io::Result<Vec<String>> {
    let words = env::args(rt)?.skip(1).collect(rt.alloc())?;
    Ok(words)
}

/// Reads the command line. Help, the version, which is this text, and refusals are printed.
pub fn read_command_line<R: AllocGlobal + Print + Eprint + Env>(
    rt: &R,
    version: &str,
) -> Result<Asked> {
    match words(rt) {
        Ok(words) => ask_by_texts(rt, words, version),
        Err(fault) if fault.kind() == io::ErrorKind::InvalidData => answer_no_text(rt),
        Err(fault) => Err(fault.into()),
    }
}
