//! A line of answers, put together piece by piece.

use sim_logic::Logic;
use sim_store::{Record, Step, StoreError};
use std::alloc::{AllocError, Global};

/// A line, and whether there was memory for all of it, so that only its end has to check.
#[derive(Drop)]
pub struct Line {
    text: String,
    ended: Result<(), AllocError>,
}

impl Line {
    /// An empty line.
    pub fn new(alloc: Global) -> Line {
        Line {
            text: String::new(alloc),
            ended: Ok(()),
        }
    }

    /// Appends a text, unless memory ran out before.
    pub fn put(&mut self, text: &str) {
        if self.ended.is_ok() {
            self.ended = self.text.push_str(text);
        }
    }

    /// Appends a number in decimal.
    pub fn put_number(&mut self, number: u64) {
        if self.ended.is_ok() {
            let text = &mut self.text;
            self.ended = write!(text, "{number}");
        }
    }

    /// Appends a value.
    pub fn put_value(&mut self, value: Logic) {
        if self.ended.is_ok() {
            self.ended = self.text.push(char::from(value.to_byte()));
        }
    }

    /// Appends what a store answers to an advance.
    pub fn put_step(&mut self, step: Step) {
        self.put(match step {
            Step::Next => "Next",
            Step::Postponed => "Postponed",
            Step::PostponedDelta => "PostponedDelta",
            Step::Finished => "Finished",
            Step::LimitReached => "LimitReached",
        });
    }

    /// Appends a refusal.
    pub fn put_refusal(&mut self, refusal: StoreError) {
        if self.ended.is_ok() {
            let text = &mut self.text;
            self.ended = write!(text, "{refusal}");
        }
    }

    /// Appends the time and delta number of a cycle, and its changes, each as a net and its value.
    pub fn put_cycle(&mut self, time: u64, delta: u64, changes: &[(usize, Logic)]) {
        self.put_number(time);
        self.put("+");
        self.put_number(delta);
        for change in changes {
            self.put(" ");
            self.put_number(change.0 as u64);
            self.put("=");
            self.put_value(change.1);
        }
        self.put(",");
    }

    /// Appends records.
    pub fn put_records(&mut self, records: &[Record]) {
        for record in records {
            self.put_cycle(record.time, record.delta, record.changes.as_slice());
        }
    }

    /// The whole line.
    pub fn whole(self) -> Result<String, AllocError> {
        match self.ended {
            Ok(()) => Ok(self.text),
            Err(error) => Err(error),
        }
    }
}
