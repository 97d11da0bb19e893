//! Functions: from a text to its steps.

use crate::marks::{Mark, marks_of};
use crate::pins::Names;
use crate::tables::known_function;
use std::alloc::{AllocError, Global};
use vsim_netlist_design::{Draft, Fault, Function, Level, Source, Step, line_of, push};

/// The maximum number of steps of a function.
const MOST_STEPS: usize = 500;

/// The maximum depth of a function.
const DEEPEST: usize = 24;

/// What waits for its right operand, or for its closing parenthesis.
#[derive(Clone, Copy, PartialEq, Eq)]
enum Waiting {
    Open,
    Or,
    And,
    Xor,
    Not,
}

impl Waiting {
    /// The rank of an operator: one of a higher rank goes first.
    fn rank(self) -> usize {
        match self {
            Waiting::Open => 0,
            Waiting::Or => 1,
            Waiting::And => 2,
            Waiting::Xor => 3,
            Waiting::Not => 4,
        }
    }
}

/// Why a text is no function.
#[derive(Clone, Copy)]
enum Trouble {
    Memory,
    Told(&'static str),
}

impl From<AllocError> for Trouble {
    fn from(_lack: AllocError) -> Trouble {
        Trouble::Memory
    }
}

/// The part of a function that has been read.
#[derive(Drop)]
struct Reading {
    inputs: Vec<Source>,
    steps: Vec<Step>,
    waiting: Vec<Waiting>,
    /// Whether the last part ends an operand.
    has_operand: bool,
}

/// The index of an input among these, if it is there.
fn place_of(inputs: &[Source], source: Source) -> Option<usize> {
    for (place, known) in inputs.iter().enumerate() {
        if *known == source {
            return Some(place);
        }
    }
    None
}

impl Reading {
    /// The index of an input, which is added if it is new.
    fn place(&mut self, source: Source) -> Result<usize, AllocError> {
        if let Some(place) = place_of(self.inputs.as_slice(), source) {
            return Ok(place);
        }
        let place = self.inputs.len();
        push(&mut self.inputs, source)?;
        Ok(place)
    }

    /// Negates the last operand. Two negations cancel each other.
    fn negate(&mut self) -> Result<(), AllocError> {
        if let Some(Step::Not) = self.steps.last() {
            let _last = self.steps.pop();
            return Ok(());
        }
        push(&mut self.steps, Step::Not)
    }

    /// Adds the step of what waited.
    fn put(&mut self, waiting: Waiting) -> Result<(), AllocError> {
        match waiting {
            Waiting::Open => Ok(()),
            Waiting::Not => self.negate(),
            Waiting::Or => push(&mut self.steps, Step::Or),
            Waiting::And => push(&mut self.steps, Step::And),
            Waiting::Xor => push(&mut self.steps, Step::Xor),
        }
    }

    /// The last that waits, if it goes before an operator of a rank.
    fn released(&mut self, rank: usize) -> Option<Waiting> {
        match self.waiting.last() {
            Some(last) if rank <= last.rank() => self.waiting.pop(),
            _ => None,
        }
    }

    /// Adds the steps of all that waits and goes before an operator of a rank.
    fn release(&mut self, rank: usize) -> Result<(), AllocError> {
        for _ in 0..=self.waiting.len() {
            let Some(waiting) = self.released(rank) else {
                break;
            };
            self.put(waiting)?;
        }
        Ok(())
    }

    /// Takes an operator between two operands.
    fn take_operator(&mut self, operator: Waiting) -> Result<(), Trouble> {
        if !self.has_operand {
            return Err(Trouble::Told("an operand is missing"));
        }
        self.has_operand = false;
        self.release(operator.rank())?;
        Ok(push(&mut self.waiting, operator)?)
    }

    /// Takes the operator between two operands that has no sign, if the last part ends one.
    fn begin_operand(&mut self) -> Result<(), Trouble> {
        if self.has_operand {
            return self.take_operator(Waiting::And);
        }
        Ok(())
    }

    /// Takes an operand.
    fn take_operand(&mut self, step: Step) -> Result<(), Trouble> {
        self.begin_operand()?;
        self.has_operand = true;
        if MOST_STEPS <= self.steps.len() {
            return Err(Trouble::Told("it is too long"));
        }
        Ok(push(&mut self.steps, step)?)
    }

    /// Takes a name or a constant.
    fn take_name(&mut self, names: &Names<'_>, name: &str) -> Result<(), Trouble> {
        let step = match (name, names.source(name)) {
            (_, Some(source)) => Step::Input(self.place(source)?),
            ("0", None) => Step::Constant(Level::Zero),
            ("1", None) => Step::Constant(Level::One),
            _ => return Err(Trouble::Told("it names what is no pin of the cell")),
        };
        self.take_operand(step)
    }

    /// Takes what waits before an operand.
    fn take_before(&mut self, waiting: Waiting) -> Result<(), Trouble> {
        self.begin_operand()?;
        if MOST_STEPS <= self.waiting.len() {
            return Err(Trouble::Told("it is too long"));
        }
        Ok(push(&mut self.waiting, waiting)?)
    }

    /// Takes a closing parenthesis.
    fn close(&mut self) -> Result<(), Trouble> {
        if !self.has_operand {
            return Err(Trouble::Told("an operand is missing"));
        }
        self.release(Waiting::Or.rank())?;
        match self.waiting.pop() {
            Some(Waiting::Open) => Ok(()),
            _ => Err(Trouble::Told("a parenthesis is not opened")),
        }
    }

    /// Takes a negation after its operand.
    fn take_prime(&mut self) -> Result<(), Trouble> {
        if !self.has_operand {
            return Err(Trouble::Told("an operand is missing"));
        }
        Ok(self.negate()?)
    }

    /// Takes a part.
    fn take(&mut self, names: &Names<'_>, mark: Mark<'_>) -> Result<(), Trouble> {
        match mark {
            Mark::Name(name) => self.take_name(names, name),
            Mark::Open => self.take_before(Waiting::Open),
            Mark::Not => self.take_before(Waiting::Not),
            Mark::Close => self.close(),
            Mark::Prime => self.take_prime(),
            Mark::Xor => self.take_operator(Waiting::Xor),
            Mark::And => self.take_operator(Waiting::And),
            Mark::Or => self.take_operator(Waiting::Or),
            Mark::Other => Err(Trouble::Told("it has a sign that no function has")),
            Mark::End => Ok(()),
        }
    }

    /// Takes all parts of a text.
    fn take_all(&mut self, names: &Names<'_>, text: &str) -> Result<(), Trouble> {
        let mut marks = marks_of(text);
        for _ in 0..=text.len() {
            let mark = marks.take();
            if mark == Mark::End {
                break;
            }
            self.take(names, mark)?;
        }
        Ok(())
    }

    /// Takes the end of the text.
    fn end(&mut self) -> Result<(), Trouble> {
        if !self.has_operand {
            return Err(Trouble::Told("an operand is missing"));
        }
        self.release(Waiting::Or.rank())?;
        if !self.waiting.is_empty() {
            return Err(Trouble::Told("a parenthesis does not close"));
        }
        Ok(())
    }
}

/// The depth of a value that a step makes of one or two others.
fn deeper(depths: &mut Vec<usize>, operands: usize) -> usize {
    let mut depth = 0usize;
    for _ in 0..operands {
        depth = depth.max(depths.pop().unwrap_or(0));
    }
    depth.saturating_add(1)
}

/// The depth that a step takes off, if it repeats the operator before it, which needs no
/// parentheses.
fn repeated(step: Step, last: Step) -> usize {
    match step {
        Step::And | Step::Or | Step::Xor if step == last => 1,
        _ => 0,
    }
}

/// The depth of the value of a step.
fn depth_after(depths: &mut Vec<usize>, step: Step, last: Step) -> usize {
    let operands = match step {
        Step::Input(_) | Step::Constant(_) => return 0,
        Step::Not => 1,
        _ => 2,
    };
    deeper(depths, operands).saturating_sub(repeated(step, last))
}

/// Whether no value of these steps is too deep.
fn is_flat(alloc: Global, steps: &[Step]) -> Result<bool, AllocError> {
    let (mut depths, mut last) = (Vec::new(alloc), Step::Not);
    for step in steps {
        let depth = depth_after(&mut depths, *step, last);
        if DEEPEST < depth {
            return Ok(false);
        }
        if depth > 0 {
            last = *step;
        }
        push(&mut depths, depth)?;
    }
    Ok(true)
}

/// Reads a text.
fn read_steps(alloc: Global, names: &Names<'_>, text: &str) -> Result<Reading, Trouble> {
    let mut reading = Reading {
        inputs: Vec::new(alloc),
        steps: Vec::new(alloc),
        waiting: Vec::new(alloc),
        has_operand: false,
    };
    reading.take_all(names, text)?;
    reading.end()?;
    Ok(reading)
}

/// The function of a text.
fn read(alloc: Global, names: &Names<'_>, text: &str) -> Result<Function, Trouble> {
    let reading = read_steps(alloc, names, text)?;
    if !is_flat(alloc, reading.steps.as_slice())? {
        return Err(Trouble::Told("it is too deep"));
    }
    Ok(known_function(alloc, reading.inputs, reading.steps)?)
}

/// The fault of a text.
fn told_of(alloc: Global, text: &str, told: &str) -> Fault {
    let shown = line_of(alloc, text);
    let mut fault = Draft::of(alloc, "the function '");
    fault.push_draft(&shown);
    fault.push_all(&["': ", told]);
    Fault::of_draft(fault)
}

/// The function of a text, whose names these are. The fault tells the text.
pub(crate) fn read_function(
    alloc: Global,
    names: &Names<'_>,
    text: &str,
) -> Result<Function, Fault> {
    match read(alloc, names, text) {
        Ok(function) => Ok(function),
        Err(Trouble::Memory) => Err(Fault::Memory),
        Err(Trouble::Told(told)) => Err(told_of(alloc, text, told)),
    }
}
