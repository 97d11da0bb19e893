//! What a process is but for its signals.

use std::alloc::{AllocError, Global};
use std::collections::HashMap;
use vsim_netlist_design::{Draft, push};
use vsim_netlist_signals::Signals;

/// The name of the output in a shape.
pub(crate) const OUTPUT: &str = "y";

/// The beginning of the names of the inputs in a shape.
pub(crate) const INPUT: &str = "p";

/// The process that named a signal last, and the number of the signal among its inputs.
#[derive(Clone, Copy)]
struct Mark {
    process: usize,
    input: usize,
}

/// The signals of a text by their names, and how processes name them.
#[derive(Drop)]
pub(crate) struct Catalogue {
    alloc: Global,
    places: HashMap<String, usize>,
    marks: Vec<Mark>,
    /// The number of processes whose shapes have been made.
    processes: usize,
}

/// A process with the names `p0`, `p1` and so on for its inputs and `y` for its output, and its
/// inputs, which are places of signals.
#[derive(Drop)]
pub(crate) struct Shape {
    pub(crate) text: Draft,
    pub(crate) inputs: Vec<usize>,
    /// Whether it reads its output, which an entity may not.
    pub(crate) reads_output: bool,
}

/// A shape, as far as it has been made.
#[derive(Drop)]
struct Shaping<'a> {
    catalogue: &'a mut Catalogue,
    /// The place of the output.
    output: usize,
    /// Where the present word begins.
    start: usize,
    shape: Shape,
}

/// Whether a name may have a character. In the text of a process literals have capitals.
fn is_of_name(character: char) -> bool {
    character.is_ascii_lowercase() || character.is_ascii_digit() || character == '_'
}

/// Adds the name of a signal.
fn put_name(
    alloc: Global,
    places: &mut HashMap<String, usize>,
    name: &str,
    place: usize,
) -> Result<(), AllocError> {
    let name = String::from_str(alloc, name)?;
    places.insert(name, place)?;
    Ok(())
}

/// The places of signals by their names.
fn places_by_name(alloc: Global, signals: &Signals) -> Result<HashMap<String, usize>, AllocError> {
    let mut places = HashMap::new(alloc);
    for place in 0..signals.len() {
        if let Some(name) = signals.name(place) {
            put_name(alloc, &mut places, name, place)?;
        }
    }
    Ok(places)
}

impl Catalogue {
    /// The signals of a text.
    pub(crate) fn of(alloc: Global, signals: &Signals) -> Result<Catalogue, AllocError> {
        let none = Mark {
            process: 0,
            input: 0,
        };
        let marks = vec![in alloc; none; signals.len()]?;
        let places = places_by_name(alloc, signals)?;
        Ok(Catalogue {
            alloc,
            places,
            marks,
            processes: 0,
        })
    }

    /// The place of the signal with a name, if there is one.
    fn place(&self, name: &str) -> Option<usize> {
        match self.places.get(name) {
            Some(place) => Some(*place),
            None => None,
        }
    }

    /// The number of a signal among the inputs of the present process, to which it is added if it
    /// is new.
    fn input(&mut self, inputs: &mut Vec<usize>, place: usize) -> Result<usize, AllocError> {
        let (process, input) = (self.processes, inputs.len());
        let Some(mark) = self.marks.get_mut(place) else {
            return Ok(0);
        };
        if mark.process != process {
            *mark = Mark { process, input };
            push(inputs, place)?;
            return Ok(input);
        }
        Ok(mark.input)
    }

    /// The shape of a process that drives the signal at a place.
    pub(crate) fn shape(&mut self, text: &str, output: usize) -> Result<Shape, AllocError> {
        self.processes = self.processes.saturating_add(1);
        let alloc = self.alloc;
        let mut shaping = Shaping {
            catalogue: self,
            output,
            start: 0,
            shape: Shape {
                text: Draft::new(alloc),
                inputs: Vec::new(alloc),
                reads_output: false,
            },
        };
        shaping.take_all(text)?;
        Ok(shaping.shape)
    }
}

impl Shaping<'_> {
    /// Adds a signal, given the character after its name, which is the first of `<=` where it is
    /// driven.
    fn put_signal(&mut self, place: usize, next: char) -> Result<(), AllocError> {
        let shape = &mut self.shape;
        if place == self.output {
            shape.reads_output = shape.reads_output || next != '<';
            shape.text.push(OUTPUT);
            return Ok(());
        }
        let number = self.catalogue.input(&mut shape.inputs, place)?;
        shape.text.push(INPUT);
        shape.text.push_shown(&number);
        Ok(())
    }

    /// Adds a word, given the character after it.
    fn put_word(&mut self, word: &str, next: char) -> Result<(), AllocError> {
        match self.catalogue.place(word) {
            Some(place) => self.put_signal(place, next),
            None => {
                self.shape.text.push(word);
                Ok(())
            }
        }
    }

    /// Takes a character at a place, which ends a word unless it is part of one.
    fn take(&mut self, text: &str, place: usize, character: char) -> Result<(), AllocError> {
        if is_of_name(character) {
            return Ok(());
        }
        self.put_word(text.get(self.start..place).unwrap_or(""), character)?;
        self.shape.text.push_char(character);
        self.start = place.saturating_add(character.len_utf8());
        Ok(())
    }

    /// Takes all characters.
    fn take_all(&mut self, text: &str) -> Result<(), AllocError> {
        for (place, character) in text.char_indices() {
            self.take(text, place, character)?;
        }
        self.put_word(text.get(self.start..).unwrap_or(""), ' ')
    }
}
