//! The cells of a Liberty file, as they are written.

use crate::statements::{Form, Statement, read_statement, skip_group, unexpected};
use crate::tokens::Tokens;
use std::alloc::{AllocError, Global};
use vsim_netlist_design::{Fault, fault_at, push};

/// The text of a function, with its line.
#[derive(Clone, Copy)]
pub struct Formula<'a> {
    pub text: &'a str,
    pub line: usize,
}

/// A pin, with its line. One of no direction is an input.
#[derive(Clone, Copy)]
pub struct WrittenPin<'a> {
    pub name: &'a str,
    pub line: usize,
    pub is_output: bool,
    pub function: Option<Formula<'a>>,
    pub three_state: Option<Formula<'a>>,
}

/// A register or latch, with the names of its variables.
#[derive(Clone, Copy)]
pub struct WrittenState<'a> {
    pub plain: &'a str,
    pub negated: &'a str,
    pub line: usize,
    pub is_latch: bool,
    pub clock: Option<Formula<'a>>,
    pub data: Option<Formula<'a>>,
    pub clear: Option<Formula<'a>>,
    pub preset: Option<Formula<'a>>,
    /// The letters of the two variables while both clear and preset are active.
    pub of_plain: &'a str,
    pub of_negated: &'a str,
    /// An attribute that is not supported, and its line.
    pub other: Option<(&'static str, usize)>,
}

/// What a cell has that is not supported: its line, the pin if it is one, and what it is.
#[derive(Clone, Copy)]
pub struct Unsupported<'a> {
    pub line: usize,
    pub pin: Option<&'a str>,
    pub told: &'static str,
}

/// A cell, with its line.
#[derive(Drop)]
pub struct WrittenCell<'a> {
    pub name: &'a str,
    pub line: usize,
    pub pins: Vec<WrittenPin<'a>>,
    pub state: Option<WrittenState<'a>>,
    pub unsupported: Option<Unsupported<'a>>,
}

/// Whether a character separates the names of a list.
fn is_separator(character: char) -> bool {
    matches!(character, ',' | '"' | ' ' | '\t' | '\r' | '\n' | '\\')
}

/// The name at an index of a list; empty if there is none.
fn name_at(list: &str, place: usize) -> &str {
    let mut count = 0usize;
    for name in list.split(is_separator) {
        if name.is_empty() {
            continue;
        }
        if count == place {
            return name;
        }
        count = count.saturating_add(1);
    }
    ""
}

/// The function that a statement gives.
fn given<'a>(statement: &Statement<'a>) -> Option<Formula<'a>> {
    Some(Formula {
        text: statement.value,
        line: statement.line,
    })
}

impl<'a> WrittenPin<'a> {
    /// A pin about which nothing is known.
    fn new(name: &'a str, line: usize) -> WrittenPin<'a> {
        WrittenPin {
            name,
            line,
            is_output: false,
            function: None,
            three_state: None,
        }
    }

    /// Takes an attribute.
    fn take(&mut self, statement: &Statement<'a>) {
        match statement.name {
            "direction" => self.is_output = matches!(statement.value, "output" | "inout"),
            "function" => self.function = given(statement),
            "three_state" => self.three_state = given(statement),
            _ => {}
        }
    }
}

impl<'a> WrittenState<'a> {
    /// A register or latch about which nothing is known, given the names of its variables.
    fn new(names: &'a str, line: usize, is_latch: bool) -> WrittenState<'a> {
        WrittenState {
            plain: name_at(names, 0),
            negated: name_at(names, 1),
            line,
            is_latch,
            clock: None,
            data: None,
            clear: None,
            preset: None,
            of_plain: "",
            of_negated: "",
            other: None,
        }
    }

    /// Takes an attribute.
    fn take(&mut self, statement: &Statement<'a>) {
        match statement.name {
            "clocked_on" | "enable" => self.clock = given(statement),
            "next_state" | "data_in" => self.data = given(statement),
            "clear" => self.clear = given(statement),
            "preset" => self.preset = given(statement),
            "clear_preset_var1" => self.of_plain = statement.value,
            "clear_preset_var2" => self.of_negated = statement.value,
            "clocked_on_also" => self.other = Some(("clocked_on_also", statement.line)),
            "enable_also" => self.other = Some(("enable_also", statement.line)),
            _ => {}
        }
    }
}

/// The groups of cells that are not supported, by their names: what they are, and whether their
/// name is that of a pin.
static UNSUPPORTED: [(&str, &str, bool); 6] = [
    ("bus", "a bus", true),
    ("bundle", "a bundle", true),
    ("statetable", "a statetable", false),
    ("memory", "a memory", false),
    ("ff_bank", "an ff_bank", false),
    ("latch_bank", "a latch_bank", false),
];

/// Goes past a group that is not read, or refuses the end of the file in it.
fn past_group<'a>(
    alloc: Global,
    tokens: &mut Tokens<'a>,
    statement: Statement<'a>,
) -> Result<Statement<'a>, Fault> {
    match statement.form {
        Form::Group => skip_group(alloc, tokens)?,
        Form::EndOfFile => return Err(unexpected(alloc, tokens, "a closing brace")),
        _ => {}
    }
    Ok(statement)
}

/// Reads the next statement of a group that has no groups of interest, which it goes past.
fn next_attribute<'a>(alloc: Global, tokens: &mut Tokens<'a>) -> Result<Statement<'a>, Fault> {
    let statement = read_statement(alloc, tokens)?;
    past_group(alloc, tokens, statement)
}

/// Reads the attributes of a pin.
fn read_pin<'a>(
    alloc: Global,
    tokens: &mut Tokens<'a>,
    pin: &mut WrittenPin<'a>,
) -> Result<(), Fault> {
    for _ in 0..u64::MAX {
        let statement = next_attribute(alloc, tokens)?;
        match statement.form {
            Form::End => break,
            Form::Attribute => pin.take(&statement),
            _ => {}
        }
    }
    Ok(())
}

/// Reads the attributes of a register or latch.
fn read_state<'a>(
    alloc: Global,
    tokens: &mut Tokens<'a>,
    state: &mut WrittenState<'a>,
) -> Result<(), Fault> {
    for _ in 0..u64::MAX {
        let statement = next_attribute(alloc, tokens)?;
        match statement.form {
            Form::End => break,
            Form::Attribute => state.take(&statement),
            _ => {}
        }
    }
    Ok(())
}

impl<'a> WrittenCell<'a> {
    /// Notes what is not supported, unless something is noted.
    fn note(&mut self, line: usize, pin: Option<&'a str>, told: &'static str) {
        if self.unsupported.is_none() {
            self.unsupported = Some(Unsupported { line, pin, told });
        }
    }

    /// Adds a pin for each name of a list.
    fn put_pins(&mut self, names: &'a str, pin: WrittenPin<'a>) -> Result<(), AllocError> {
        for name in names.split(is_separator) {
            if !name.is_empty() {
                push(&mut self.pins, WrittenPin { name, ..pin })?;
            }
        }
        Ok(())
    }

    /// Reads pins that have these attributes together. Those for power drive nothing.
    fn take_pins(
        &mut self,
        alloc: Global,
        tokens: &mut Tokens<'a>,
        group: &Statement<'a>,
    ) -> Result<(), Fault> {
        let mut pin = WrittenPin::new("", group.line);
        read_pin(alloc, tokens, &mut pin)?;
        pin.is_output = pin.is_output && group.name == "pin";
        Ok(self.put_pins(group.value, pin)?)
    }

    /// Reads a register or latch.
    fn take_state(
        &mut self,
        alloc: Global,
        tokens: &mut Tokens<'a>,
        group: &Statement<'a>,
    ) -> Result<(), Fault> {
        let mut state = WrittenState::new(group.value, group.line, group.name == "latch");
        read_state(alloc, tokens, &mut state)?;
        if self.state.is_some() {
            self.note(group.line, None, "a second ff or latch");
        }
        self.state = Some(state);
        Ok(())
    }

    /// Notes a group if it is not supported, and goes past it.
    fn pass_group(
        &mut self,
        alloc: Global,
        tokens: &mut Tokens<'a>,
        group: &Statement<'a>,
    ) -> Result<(), Fault> {
        for (name, told, is_pin) in &UNSUPPORTED {
            if *name == group.name {
                let pin = if *is_pin {
                    Some(name_at(group.value, 0))
                } else {
                    None
                };
                self.note(group.line, pin, *told);
            }
        }
        skip_group(alloc, tokens)
    }

    /// Reads a group of the cell.
    fn take_group(
        &mut self,
        alloc: Global,
        tokens: &mut Tokens<'a>,
        group: &Statement<'a>,
    ) -> Result<(), Fault> {
        match group.name {
            "pin" | "pg_pin" => self.take_pins(alloc, tokens, group),
            "ff" | "latch" => self.take_state(alloc, tokens, group),
            _ => self.pass_group(alloc, tokens, group),
        }
    }

    /// Reads the groups of the cell, up to its end.
    fn read(&mut self, alloc: Global, tokens: &mut Tokens<'a>) -> Result<(), Fault> {
        for _ in 0..u64::MAX {
            let statement = read_statement(alloc, tokens)?;
            match statement.form {
                Form::End => break,
                Form::Attribute => {}
                Form::Group => self.take_group(alloc, tokens, &statement)?,
                Form::EndOfFile => return Err(unexpected(alloc, tokens, "a closing brace")),
            }
        }
        Ok(())
    }
}

/// Reads a cell, after the head of its group.
pub fn read_cell<'a>(
    alloc: Global,
    tokens: &mut Tokens<'a>,
    group: &Statement<'a>,
) -> Result<WrittenCell<'a>, Fault> {
    let name = name_at(group.value, 0);
    if name.is_empty() {
        return Err(fault_at(alloc, group.line, &["a cell has no name"]));
    }
    let mut cell = WrittenCell {
        name,
        line: group.line,
        pins: Vec::new(alloc),
        state: None,
        unsupported: None,
    };
    cell.read(alloc, tokens)?;
    Ok(cell)
}
