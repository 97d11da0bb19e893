//! Stimuli as lines: `TIME INPUT VALUE`, and `end TIME`.

use crate::changes::{Bits, Input, find, no_changes, reach, set};
use crate::times::read_time;
use std::alloc::{AllocError, Global};
use vsim_netlist_design::{Draft, Fault, Stimuli};

/// The stimuli of the lines read so far.
struct Lines<'a> {
    alloc: Global,
    inputs: &'a [Input],
    time: u64,
    stimuli: Stimuli,
}

/// The four bits of a hexadecimal digit.
fn nibble(digit: u8) -> &'static str {
    match digit {
        b'0' => "0000",
        b'1' => "0001",
        b'2' => "0010",
        b'3' => "0011",
        b'4' => "0100",
        b'5' => "0101",
        b'6' => "0110",
        b'7' => "0111",
        b'8' => "1000",
        b'9' => "1001",
        _ => letter_nibble(digit),
    }
}

/// The four bits of a letter as a hexadecimal digit.
fn letter_nibble(digit: u8) -> &'static str {
    match digit {
        b'a' | b'A' => "1010",
        b'b' | b'B' => "1011",
        b'c' | b'C' => "1100",
        b'd' | b'D' => "1101",
        b'e' | b'E' => "1110",
        b'f' | b'F' => "1111",
        _ => "?",
    }
}

/// The bits of a hexadecimal number.
fn bits_of_digits(alloc: Global, digits: &[u8]) -> Result<String, AllocError> {
    let mut bits = Draft::new(alloc);
    for digit in digits {
        bits.push(nibble(*digit));
    }
    bits.finish()
}

/// The bits of a hexadecimal number without the zeros in front, or one bit of `0`.
fn bits_of_number(alloc: Global, digits: &str) -> Result<String, AllocError> {
    let bits = bits_of_digits(alloc, digits.as_bytes())?;
    let number = bits.as_str().trim_start_matches('0');
    String::from_str(alloc, if number.is_empty() { "0" } else { number })
}

/// The bits of a value, written as bits or as `0xA5`.
fn bits(alloc: Global, value: &str) -> Result<String, AllocError> {
    match value.strip_prefix("0x") {
        Some(digits) if !digits.is_empty() => bits_of_number(alloc, digits),
        Some(digits) => String::from_str(alloc, digits),
        None => String::from_str(alloc, value),
    }
}

/// A line up to a comment.
fn without_comment(line: &str) -> &str {
    match line.split_once('#') {
        Some((text, _)) => text,
        None => line,
    }
}

/// The refusal of a name.
fn no_input(alloc: Global, name: &str) -> Fault {
    Fault::of(alloc, &["there is no input ", name])
}

/// The refusal of a value that has more bits than its input.
fn too_wide(alloc: Global, name: &str, width: usize, value: &str, count: usize) -> Fault {
    let mut text = Draft::of(alloc, "input ");
    text.push_all(&[name, " has "]);
    push_count(&mut text, width);
    text.push_all(&[", and ", value, " has "]);
    push_count(&mut text, count);
    Fault::of_draft(text)
}

/// Adds a number of bits.
fn push_count(text: &mut Draft, count: usize) {
    text.push_shown(&count);
    text.push(if count == 1 { " bit" } else { " bits" });
}

/// The same fault, after the number of the line that it is about.
pub(crate) fn in_line(alloc: Global, number: usize, fault: Fault) -> Fault {
    let mut place = Draft::of(alloc, "line ");
    place.push_shown(&number);
    if !place.is_whole() {
        return Fault::Memory;
    }
    let text = place.as_str();
    fault.about(alloc, &[text])
}

impl Drop for Lines<'_> {
    fn drop(self) {
        let Lines {
            alloc: _,
            inputs: _,
            time: _,
            stimuli: _stimuli,
        } = self;
    }
}

impl Lines<'_> {
    /// Advances to a time.
    fn go_to(&mut self, text: &str) -> Result<(), Fault> {
        let Some(time) = read_time(text) else {
            return Err(Fault::of(self.alloc, &["the first word is no time, as 10ns is"]));
        };
        if time < self.time {
            return Err(Fault::of(self.alloc, &["the times fall"]));
        }
        self.time = time;
        reach(&mut self.stimuli, time);
        Ok(())
    }

    /// Gives a value to bits from now on.
    fn set_bits(&mut self, bits: Bits, value: &[u8]) -> Result<(), Fault> {
        if value.is_empty() || !set(&mut self.stimuli, bits, self.time, value)? {
            return Err(Fault::of(
                self.alloc,
                &["the value is neither bits nor a number as 0xA5"],
            ));
        }
        Ok(())
    }

    /// Gives a value to an input from now on.
    fn set(&mut self, name: &str, value: &str) -> Result<(), Fault> {
        let Some((_, place)) = find(self.inputs, name) else {
            return Err(no_input(self.alloc, name));
        };
        let bits = bits(self.alloc, value)?;
        let (width, count) = (place.width, bits.len());
        if width < count {
            return Err(too_wide(self.alloc, name, width, value, count));
        }
        self.set_bits(place, bits.as_str().as_bytes())
    }

    /// Gives a value to an input from a time on.
    fn set_at(&mut self, time: &str, name: &str, value: &str) -> Result<(), Fault> {
        self.go_to(time)?;
        self.set(name, value)
    }

    /// Reads a line of up to three words, and whether it has more.
    fn take_words(
        &mut self,
        first: &str,
        second: Option<&str>,
        third: Option<&str>,
        has_more: bool,
    ) -> Result<(), Fault> {
        match (second, third) {
            (Some(name), Some(value)) if !has_more => self.set_at(first, name, value),
            (Some(time), None) if first == "end" => self.go_to(time),
            _ => Err(Fault::of(self.alloc, &["'TIME INPUT VALUE' or 'end TIME' is wanted"])),
        }
    }

    /// Reads a line.
    fn take(&mut self, line: &str) -> Result<(), Fault> {
        let mut words = without_comment(line).split_ascii_whitespace();
        let Some(first) = words.next() else {
            return Ok(());
        };
        let (second, third) = (words.next(), words.next());
        self.take_words(first, second, third, words.next().is_some())
    }

    /// Reads the line at an index. An error names it.
    fn take_at(&mut self, line: &str, index: usize) -> Result<(), Fault> {
        match self.take(line) {
            Ok(()) => Ok(()),
            Err(fault) => Err(in_line(self.alloc, index.saturating_add(1), fault)),
        }
    }

    /// Reads lines.
    fn take_all(&mut self, text: &str) -> Result<(), Fault> {
        for (index, line) in text.lines().enumerate() {
            self.take_at(line, index)?;
        }
        Ok(())
    }

    /// The stimuli that have been read.
    fn into_stimuli(self) -> Stimuli {
        let Lines {
            alloc: _,
            inputs: _,
            time: _,
            stimuli,
        } = self;
        stimuli
    }
}

/// Reads lines of stimuli.
pub(crate) fn read_lines(alloc: Global, text: &str, inputs: &[Input]) -> Result<Stimuli, Fault> {
    let stimuli = no_changes(alloc, inputs)?;
    let mut lines = Lines {
        alloc,
        inputs,
        time: 0,
        stimuli,
    };
    lines.take_all(text)?;
    Ok(lines.into_stimuli())
}
