//! Conditions: from a text to its steps.

use crate::marks::{Mark, Operator, marks_of};
use crate::names::parts_of;
use std::alloc::{AllocError, Global};
use vsim_netlist_design::{Condition, Draft, Fault, Level, NameList, Step, line_of, push};

/// The maximum number of steps of a condition.
const MOST_STEPS: usize = 500;

/// The maximum depth of a condition.
const DEEPEST: usize = 24;

/// What waits for its right operand, or for its closing parenthesis.
#[derive(Clone, Copy, PartialEq, Eq)]
enum Waiting {
    Open,
    Operator(Operator),
    Not,
}

/// Why a text is no condition.
#[derive(Clone, Copy)]
enum Trouble {
    Memory,
    Told(&'static str),
}

impl From<AllocError> for Trouble {
    fn from(_lack: AllocError) -> Trouble {
        Trouble::Memory
    }
}

/// The part of a condition that has been read.
#[derive(Drop)]
struct Reading {
    inputs: Vec<usize>,
    steps: Vec<Step>,
    /// The depths of the values of the steps that no other has taken.
    depths: Vec<usize>,
    waiting: Vec<Waiting>,
    /// Whether the last part ends an operand.
    has_operand: bool,
}

/// The rank of an operator: one of a higher rank goes first.
fn rank_of(operator: Operator) -> usize {
    match operator {
        Operator::Either => 1,
        Operator::Both => 2,
        Operator::Or => 3,
        Operator::Xor | Operator::Xnor => 4,
        Operator::And => 5,
        Operator::Equal | Operator::Differs => 6,
    }
}

/// The step of an operator, and whether its value is negated.
fn step_of(operator: Operator) -> (Step, bool) {
    match operator {
        Operator::And | Operator::Both => (Step::And, false),
        Operator::Or | Operator::Either => (Step::Or, false),
        Operator::Xor | Operator::Differs => (Step::Xor, false),
        Operator::Xnor | Operator::Equal => (Step::Xor, true),
    }
}

impl Waiting {
    /// The rank of what waits.
    fn rank(self) -> usize {
        match self {
            Waiting::Open => 0,
            Waiting::Operator(operator) => rank_of(operator),
            Waiting::Not => 7,
        }
    }
}

/// The index of an input among these, if it is there.
fn place_of(inputs: &[usize], input: usize) -> Option<usize> {
    for (place, known) in inputs.iter().enumerate() {
        if *known == input {
            return Some(place);
        }
    }
    None
}

impl Reading {
    /// The index of an input, which is added if it is new.
    fn place(&mut self, input: usize) -> Result<usize, AllocError> {
        if let Some(place) = place_of(self.inputs.as_slice(), input) {
            return Ok(place);
        }
        let place = self.inputs.len();
        push(&mut self.inputs, input)?;
        Ok(place)
    }

    /// Adds a step with a value of this depth.
    fn put(&mut self, step: Step, depth: usize) -> Result<(), Trouble> {
        if DEEPEST < depth {
            return Err(Trouble::Told("it is too deep"));
        }
        push(&mut self.depths, depth)?;
        Ok(push(&mut self.steps, step)?)
    }

    /// Takes the depth of the last value.
    fn taken(&mut self) -> usize {
        self.depths.pop().unwrap_or(0)
    }

    /// Negates the last value.
    fn negate(&mut self) -> Result<(), Trouble> {
        let depth = self.taken().saturating_add(1);
        self.put(Step::Not, depth)
    }

    /// Joins the last two values.
    fn join(&mut self, operator: Operator) -> Result<(), Trouble> {
        let (step, is_negated) = step_of(operator);
        let (right, left) = (self.taken(), self.taken());
        self.put(step, left.max(right).saturating_add(1))?;
        if is_negated {
            return self.negate();
        }
        Ok(())
    }

    /// Adds the step of what waited.
    fn release_one(&mut self, waiting: Waiting) -> Result<(), Trouble> {
        match waiting {
            Waiting::Open => Ok(()),
            Waiting::Not => self.negate(),
            Waiting::Operator(operator) => self.join(operator),
        }
    }

    /// The last that waits, if it goes before an operator of a rank.
    fn released(&mut self, rank: usize) -> Option<Waiting> {
        match self.waiting.last() {
            Some(last) if rank <= last.rank() => self.waiting.pop(),
            _ => None,
        }
    }

    /// Adds the steps of all that waits and goes before an operator of a rank.
    fn release(&mut self, rank: usize) -> Result<(), Trouble> {
        for _ in 0..=self.waiting.len() {
            let Some(waiting) = self.released(rank) else {
                break;
            };
            self.release_one(waiting)?;
        }
        Ok(())
    }

    /// Takes an operator between two operands.
    fn take_operator(&mut self, operator: Operator) -> Result<(), Trouble> {
        if !self.has_operand {
            return Err(Trouble::Told("an operand is missing"));
        }
        self.has_operand = false;
        self.release(rank_of(operator))?;
        Ok(push(&mut self.waiting, Waiting::Operator(operator))?)
    }

    /// Takes an operand.
    fn take_operand(&mut self, step: Step) -> Result<(), Trouble> {
        if self.has_operand {
            return Err(Trouble::Told("an operator is missing"));
        }
        if MOST_STEPS <= self.steps.len() {
            return Err(Trouble::Told("it is too long"));
        }
        self.has_operand = true;
        self.put(step, 0)
    }

    /// Takes a name.
    fn take_name(
        &mut self,
        alloc: Global,
        pins: &mut NameList,
        name: &str,
        divider: char,
    ) -> Result<(), Trouble> {
        let name = parts_of(alloc, name, divider).whole();
        let pin = pins.place(alloc, name.finish()?.as_str())?;
        let place = self.place(pin)?;
        self.take_operand(Step::Input(place))
    }

    /// Takes what waits before an operand.
    fn take_before(&mut self, waiting: Waiting) -> Result<(), Trouble> {
        if self.has_operand {
            return Err(Trouble::Told("an operator is missing"));
        }
        if MOST_STEPS <= self.waiting.len() {
            return Err(Trouble::Told("it is too long"));
        }
        Ok(push(&mut self.waiting, waiting)?)
    }

    /// Takes a closing parenthesis.
    fn close(&mut self) -> Result<(), Trouble> {
        if !self.has_operand {
            return Err(Trouble::Told("an operand is missing"));
        }
        self.release(1)?;
        match self.waiting.pop() {
            Some(Waiting::Open) => Ok(()),
            _ => Err(Trouble::Told("a parenthesis is not opened")),
        }
    }

    /// Takes a part that is no name.
    fn take(&mut self, mark: Mark<'_>) -> Result<(), Trouble> {
        match mark {
            Mark::Constant(level) => self.take_constant(level),
            Mark::Open => self.take_before(Waiting::Open),
            Mark::Not => self.take_before(Waiting::Not),
            Mark::Close => self.close(),
            Mark::Operator(operator) => self.take_operator(operator),
            Mark::Other => Err(Trouble::Told("it has a sign or an operator that is not supported")),
            Mark::Name(_) | Mark::End => Ok(()),
        }
    }

    /// Takes a constant.
    fn take_constant(&mut self, level: Level) -> Result<(), Trouble> {
        self.take_operand(Step::Constant(level))
    }

    /// Takes all parts of a text.
    fn take_all(
        &mut self,
        alloc: Global,
        pins: &mut NameList,
        text: &str,
        divider: char,
    ) -> Result<(), Trouble> {
        let mut marks = marks_of(text);
        for _ in 0..=text.len() {
            match marks.take() {
                Mark::End => break,
                Mark::Name(name) => self.take_name(alloc, pins, name, divider)?,
                mark => self.take(mark)?,
            }
        }
        Ok(())
    }

    /// Takes the end of the text.
    fn end(&mut self) -> Result<(), Trouble> {
        if !self.has_operand {
            return Err(Trouble::Told("an operand is missing"));
        }
        self.release(1)?;
        if !self.waiting.is_empty() {
            return Err(Trouble::Told("a parenthesis does not close"));
        }
        Ok(())
    }
}

/// The condition of a text.
fn read(
    alloc: Global,
    pins: &mut NameList,
    text: &str,
    divider: char,
) -> Result<Condition, Trouble> {
    let mut reading = Reading {
        inputs: Vec::new(alloc),
        steps: Vec::new(alloc),
        depths: Vec::new(alloc),
        waiting: Vec::new(alloc),
        has_operand: false,
    };
    reading.take_all(alloc, pins, text, divider)?;
    reading.end()?;
    Ok(Condition {
        inputs: reading.inputs,
        steps: reading.steps,
    })
}

/// The fault of a text.
fn told_of(alloc: Global, line: usize, text: &str, told: &str) -> Fault {
    let shown = line_of(alloc, text);
    let mut fault = Draft::new(alloc);
    fault.push_shown(&line);
    fault.push(": the condition '");
    fault.push_draft(&shown);
    fault.push_all(&["': ", told]);
    Fault::of_draft(fault)
}

/// The condition of a text on a line, whose names are added to those of pins.
pub fn read_condition(
    alloc: Global,
    pins: &mut NameList,
    text: &str,
    divider: char,
    line: usize,
) -> Result<Condition, Fault> {
    match read(alloc, pins, text, divider) {
        Ok(condition) => Ok(condition),
        Err(Trouble::Memory) => Err(Fault::Memory),
        Err(Trouble::Told(told)) => Err(told_of(alloc, line, text, told)),
    }
}
