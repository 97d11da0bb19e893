//! The values of delays.

use crate::reader::{Corner, Reader};
use std::alloc::Global;
use vsim_netlist_design::{Draft, Fault, Times, line_of};
use vsim_netlist_sdf_text::{Number, Token, time_of};

/// The most values of a delay.
const MOST: usize = 3;

/// A value with its three corners, of which some are empty.
#[derive(Clone, Copy)]
struct Triple<'a> {
    minimum: &'a str,
    typical: &'a str,
    maximum: &'a str,
}

/// The values of a delay, as far as they have been read.
struct Values {
    count: usize,
    times: Times,
}

impl Drop for Values {
    fn drop(self) {
        let Values { count: _, times: _ } = self;
    }
}

impl Values {
    /// Takes a value. A single one is that of all changes.
    fn put(&mut self, time: Option<i64>) {
        match self.count {
            0 => {
                self.times.rise = time;
                self.times.fall = time;
            }
            1 => self.times.fall = time,
            _ => {
                self.times.off = time;
                self.times.has_off = true;
            }
        }
        self.count = self.count.saturating_add(1);
    }
}

/// The three corners of a value that has them.
fn triple_of(text: &str) -> Option<Triple<'_>> {
    let (minimum, others) = text.split_once(':')?;
    let (typical, maximum) = others.split_once(':')?;
    Some(Triple {
        minimum: minimum.trim(),
        typical: typical.trim(),
        maximum: maximum.trim(),
    })
}

impl<'a> Triple<'a> {
    /// The value at a corner.
    fn at(self, corner: Corner) -> &'a str {
        match corner {
            Corner::Minimum => self.minimum,
            Corner::Typical => self.typical,
            Corner::Maximum => self.maximum,
        }
    }
}

/// Adds a corner to those that have a value, if it has one.
fn push_corner(text: &mut Draft, word: &str, value: &str) {
    if !value.is_empty() {
        text.push(if text.as_str().is_empty() {
            ": use --corner "
        } else {
            " or "
        });
        text.push(word);
    }
}

/// What helps if a corner has no value.
fn advice(alloc: Global, triple: Triple<'_>) -> Draft {
    let mut text = Draft::new(alloc);
    push_corner(&mut text, "min", triple.minimum);
    push_corner(&mut text, "typ", triple.typical);
    push_corner(&mut text, "max", triple.maximum);
    text
}

/// A corner, as a refusal names it.
fn name_of(corner: Corner) -> &'static str {
    match corner {
        Corner::Minimum => "minimum",
        Corner::Typical => "typical",
        Corner::Maximum => "maximum",
    }
}

impl<'a> Reader<'a> {
    /// A fault of a value.
    fn fault_of_value(&self, line: usize, text: &str, told: Draft) -> Fault {
        let mut whole = Draft::of(self.alloc, "(");
        whole.push_draft(&line_of(self.alloc, text));
        whole.push(") ");
        whole.push_draft(&told);
        self.fault_of(line, whole)
    }

    /// The refusal of a value that has none at this corner.
    fn no_value(&self, line: usize, text: &str, triple: Triple<'_>) -> Fault {
        let mut told = Draft::of(self.alloc, "has no ");
        told.push_all(&[name_of(self.corner), " value"]);
        told.push_draft(&advice(self.alloc, triple));
        self.fault_of_value(line, text, told)
    }

    /// The value at this corner. One without corners is that of all.
    fn at_corner(&self, line: usize, text: &'a str) -> Result<&'a str, Fault> {
        let Some(triple) = triple_of(text) else {
            return Ok(text);
        };
        let value = triple.at(self.corner);
        if value.is_empty() {
            return Err(self.no_value(line, text, triple));
        }
        Ok(value)
    }

    /// A time as it counts: a negative delay is none, but may be added to others.
    fn counted(&mut self, time: i64) -> i64 {
        if self.is_increment || 0 <= time {
            return time;
        }
        self.delays.negative = self.delays.negative.saturating_add(1);
        0
    }

    /// The value of a text.
    fn value_of(&mut self, line: usize, text: &'a str) -> Result<Option<i64>, Fault> {
        if text.is_empty() {
            return Ok(None);
        }
        let value = self.at_corner(line, text)?;
        match time_of(value, self.scale) {
            Number::Time(time) => Ok(Some(self.counted(time))),
            Number::TooLong => Err(self.fault_of_value(
                line,
                text,
                Draft::of(self.alloc, "is too long"),
            )),
            Number::None => Err(self.fault_of_value(
                line,
                text,
                Draft::of(self.alloc, "is no value"),
            )),
        }
    }

    /// Goes past words, and returns where the last one ends.
    fn pass_words(&mut self) -> usize {
        let mut end = self.tokens.start;
        for _ in 0..u64::MAX {
            if !matches!(self.tokens.token, Token::Word(_)) {
                break;
            }
            end = self.tokens.end;
            self.tokens.advance();
        }
        end
    }

    /// Takes a value and the parenthesis after it.
    pub(crate) fn plain_value(&mut self) -> Result<Option<i64>, Fault> {
        let (start, line) = (self.tokens.start, self.tokens.token_line);
        let end = self.pass_words();
        self.close()?;
        let text = self.tokens.between(start, end);
        self.value_of(line, text)
    }

    /// Takes a value that has limits of pulses after it.
    fn limited_value(&mut self) -> Result<Option<i64>, Fault> {
        self.tokens.advance();
        let value = self.plain_value()?;
        self.pass("pulse limits")?;
        Ok(value)
    }

    /// Takes a value after its opening parenthesis.
    fn value(&mut self) -> Result<Option<i64>, Fault> {
        if self.tokens.token == Token::Open {
            return self.limited_value();
        }
        self.plain_value()
    }

    /// Takes a value, or what may stand before values, after its opening parenthesis.
    fn put_value(&mut self, values: &mut Values) -> Result<(), Fault> {
        if self.is_at("RETAIN") {
            return self.pass("RETAIN");
        }
        let value = self.value()?;
        if MOST <= values.count {
            return Err(self.fault(&[self.keyword, ": more than three values are not supported"]));
        }
        values.put(value);
        Ok(())
    }

    /// Takes a value, or returns `false` at the end of the group around it.
    fn take_value(&mut self, values: &mut Values) -> Result<bool, Fault> {
        match self.tokens.token {
            Token::Close => {
                self.tokens.advance();
                Ok(false)
            }
            Token::Open => {
                self.tokens.advance();
                self.put_value(values)?;
                Ok(true)
            }
            _ => Err(self.unexpected("a delay")),
        }
    }

    /// Takes values up to the end of the group.
    fn take_values(&mut self, values: &mut Values) -> Result<(), Fault> {
        for _ in 0..u64::MAX {
            if !self.take_value(values)? {
                break;
            }
        }
        Ok(())
    }

    /// Takes the delays up to the end of the group.
    pub(crate) fn times(&mut self) -> Result<Times, Fault> {
        let mut values = Values {
            count: 0,
            times: Times {
                rise: None,
                fall: None,
                off: None,
                has_off: false,
            },
        };
        self.take_values(&mut values)?;
        if values.count == 0 {
            return Err(self.fault(&[self.keyword, " has no delay"]));
        }
        Ok(values.times)
    }
}
