//! The words of the command line.

use sim_run_options::{CliFault, Limits, Options};
use std::alloc::{AllocError, Global};

/// The request that the words of the command line make.
#[derive(Drop)]
pub struct Request {
    /// The options of `vsim`.
    pub options: Options,
    /// How large the run may be.
    pub limits: Limits,
    /// Whether the listing is wanted as well.
    pub listing: bool,
    /// Whether the text and its design are to be checked, without a run.
    pub is_check: bool,
    /// Whether refusals and warnings are wanted as lines of JSON, and nothing else.
    pub is_json: bool,
    /// The files of the text, in order; none for standard input.
    pub files: Vec<String>,
}

/// The words, divided into those of `vsim` and others.
#[derive(Drop)]
struct Words {
    of_vsim: Vec<String>,
    files: Vec<String>,
    listing: bool,
    is_check: bool,
    is_json: bool,
    /// Whether the next word is the value of an option.
    is_value: bool,
}

/// The options of `vsim` whose value may be the next word.
static VALUED: [&str; 4] = ["--top", "--stop", "--limit", "--workers"];

/// The option that asks for lines of JSON.
const JSON: &str = "--json";

/// Whether words that may be refused ask for lines of JSON.
pub fn ask_for_json(words: &[String]) -> bool {
    for word in words {
        if word.as_str() == JSON {
            return true;
        }
    }
    false
}

/// Whether a word is an option of `vsim` whose value is the next word.
fn is_valued(word: &str) -> bool {
    for it in &VALUED {
        if *it == word {
            return true;
        }
    }
    false
}

/// Adds a word, by one call however many there are.
fn push(words: &mut Vec<String>, word: String) -> Result<(), AllocError> {
    words.push(word)?;
    Ok(())
}

impl Words {
    /// Takes a word that is no option of this program's own.
    fn take_other(&mut self, word: String) -> Result<(), AllocError> {
        let is_value = self.is_value;
        self.is_value = !is_value && is_valued(word.as_str());
        if is_value || word.as_str().starts_with("-") {
            return push(&mut self.of_vsim, word);
        }
        push(&mut self.files, word)
    }

    /// Takes a word.
    fn take(&mut self, word: String) -> Result<(), AllocError> {
        if !self.is_value && word.as_str() == "--listing" {
            self.listing = true;
            return Ok(());
        }
        if !self.is_value && word.as_str() == "--check" {
            self.is_check = true;
            return Ok(());
        }
        if !self.is_value && word.as_str() == JSON {
            self.is_json = true;
            return Ok(());
        }
        self.take_other(word)
    }
}

/// Divides the words.
fn divided(alloc: Global, words: Vec<String>) -> Result<Words, AllocError> {
    let mut divided = Words {
        of_vsim: Vec::new(alloc),
        files: Vec::new(alloc),
        listing: false,
        is_check: false,
        is_json: false,
        is_value: false,
    };
    for word in words {
        divided.take(word)?;
    }
    Ok(divided)
}

/// The request of divided words.
fn request_of(alloc: Global, words: Words) -> Result<Request, CliFault> {
    let Words {
        of_vsim,
        files,
        listing,
        is_check,
        is_json,
        is_value: _,
    } = words;
    let asked = sim_run_options::read_request(alloc, of_vsim)?;
    Ok(Request {
        options: asked.options,
        limits: asked.limits,
        listing,
        is_check,
        is_json,
        files,
    })
}

/// Reads the words: those of `vsim`, and `--check`, `--json`, `--listing` and files
/// anywhere among them.
pub fn read_request(alloc: Global, words: Vec<String>) -> Result<Request, CliFault> {
    match divided(alloc, words) {
        Ok(words) => request_of(alloc, words),
        Err(_lack) => Err(CliFault::Memory),
    }
}
