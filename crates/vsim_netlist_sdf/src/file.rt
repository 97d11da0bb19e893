//! The header and the cells of a file.

use crate::reader::{Corner, Reader, Target};
use std::alloc::Global;
use vsim_netlist_design::{CheckList, Delays, Draft, Fault, line_of};
use vsim_netlist_sdf_text::{Token, parts_of, scale_of};

/// The entries of a header that say nothing of delays.
static HEADER: [&str; 9] = [
    "SDFVERSION",
    "DESIGN",
    "DATE",
    "VENDOR",
    "PROGRAM",
    "VERSION",
    "VOLTAGE",
    "PROCESS",
    "TEMPERATURE",
];

/// The checks of timing.
static CHECKS: [&str; 11] = [
    "SETUP",
    "HOLD",
    "SETUPHOLD",
    "RECOVERY",
    "REMOVAL",
    "RECREM",
    "SKEW",
    "BIDIRECTSKEW",
    "WIDTH",
    "PERIOD",
    "NOCHANGE",
];

/// The entry of a table that is equal to a keyword.
fn known(table: &[&'static str], keyword: &str) -> Option<&'static str> {
    for name in table {
        if *name == keyword {
            return Some(*name);
        }
    }
    None
}

impl<'a> Reader<'a> {
    /// Takes the divider of hierarchical names.
    fn take_divider(&mut self) -> Result<(), Fault> {
        self.divider = match self.word("a divider")? {
            "." => '.',
            "/" => '/',
            _ => return Err(self.fault(&["a DIVIDER other than . and / is not supported"])),
        };
        self.close()
    }

    /// Takes the unit of times.
    fn take_scale(&mut self) -> Result<(), Fault> {
        let start = self.tokens.start;
        let mut end = start;
        for _ in 0..2 {
            if let Token::Word(_) = self.tokens.token {
                end = self.tokens.end;
                self.tokens.advance();
            }
        }
        let text = self.tokens.between(start, end);
        match scale_of(text) {
            Some(scale) => self.scale = scale,
            None => return Err(self.no_scale(text)),
        }
        self.close()
    }

    /// The refusal of a unit of times.
    fn no_scale(&self, text: &str) -> Fault {
        let mut told = Draft::of(self.alloc, "'");
        told.push_draft(&line_of(self.alloc, text));
        told.push("' is no TIMESCALE, as 100ps is");
        self.fault_of(self.line, told)
    }

    /// Takes the kind of a cell.
    fn take_kind(&mut self) -> Result<(), Fault> {
        let Token::Quoted(kind) = self.tokens.token else {
            return Err(self.unexpected("a kind of cells between quotation marks"));
        };
        self.kind = kind;
        self.tokens.advance();
        self.close()
    }

    /// Takes all instances of the present kind.
    fn take_all_instances(&mut self) -> Result<(), Fault> {
        let place = self.delays.kinds.place(self.alloc, self.kind, self.line)?;
        self.target = Target::Kind(place);
        self.tokens.advance();
        self.close()
    }

    /// Takes the name of an instance; empty for the design itself.
    fn instance_name(&mut self) -> Result<Draft, Fault> {
        if self.tokens.token == Token::Close {
            return Ok(Draft::new(self.alloc));
        }
        let word = self.word("an instance")?;
        Ok(parts_of(self.alloc, word, self.divider).whole())
    }

    /// Takes the instance of a cell.
    fn take_instance(&mut self) -> Result<(), Fault> {
        if self.is_at("*") {
            return self.take_all_instances();
        }
        let name = self.instance_name()?;
        self.instance = name.finish()?;
        self.place_instance()?;
        self.close()
    }

    /// Makes the instance with the present name the one that the delays are of.
    fn place_instance(&mut self) -> Result<(), Fault> {
        let name = self.instance.as_str();
        let place = self.delays.instances.place(self.alloc, name, self.line)?;
        self.target = Target::Instance(place);
        self.note_kind(place)
    }

    /// Notes the kind of an instance.
    fn note_kind(&mut self, place: usize) -> Result<(), Fault> {
        if self.kind.is_empty() {
            return Ok(());
        }
        let kind = self.delays.kind_names.place(self.alloc, self.kind)?;
        match self.delays.instances.set_kind(place, kind, self.line) {
            Some(other) => Err(self.two_kinds(other)),
            None => Ok(()),
        }
    }

    /// The refusal of a second kind of an instance.
    fn two_kinds(&self, other: usize) -> Fault {
        let mut text = Draft::of(self.alloc, "instance ");
        text.push(self.instance.as_str());
        text.push(": CELLTYPE \"");
        text.push(self.kind);
        text.push("\", and \"");
        text.push(self.delays.kind_names.name(other));
        text.push("\" before");
        self.fault_of(self.line, text)
    }

    /// Takes the checks of a cell.
    fn take_checks(&mut self) -> Result<(), Fault> {
        for _ in 0..u64::MAX {
            if !self.enter()? {
                break;
            }
            self.take_check()?;
        }
        Ok(())
    }

    /// Takes a check, or counts it.
    fn take_check(&mut self) -> Result<(), Fault> {
        match known(CHECKS.as_slice(), self.keyword) {
            Some(name) if self.checks.is_wanted => self.take_timing_check(name),
            Some(name) => self.pass(name),
            None => Err(self.unsupported()),
        }
    }

    /// Takes delays.
    fn take_delays(&mut self, is_increment: bool) -> Result<(), Fault> {
        self.is_increment = is_increment;
        for _ in 0..u64::MAX {
            if !self.enter()? {
                break;
            }
            self.take_delay()?;
        }
        Ok(())
    }

    /// Takes a group of delays.
    fn take_delay_group(&mut self) -> Result<(), Fault> {
        match self.keyword {
            "ABSOLUTE" => self.take_delays(false),
            "INCREMENT" => self.take_delays(true),
            "PATHPULSE" => self.pass("PATHPULSE"),
            "PATHPULSEPERCENT" => self.pass("PATHPULSEPERCENT"),
            _ => Err(self.unsupported()),
        }
    }

    /// Takes all groups of delays.
    fn take_delay_groups(&mut self) -> Result<(), Fault> {
        for _ in 0..u64::MAX {
            if !self.enter()? {
                break;
            }
            self.take_delay_group()?;
        }
        Ok(())
    }

    /// Takes a part of a cell.
    fn take_part(&mut self) -> Result<(), Fault> {
        match self.keyword {
            "CELLTYPE" => self.take_kind(),
            "INSTANCE" => self.take_instance(),
            "DELAY" => self.take_delay_groups(),
            "TIMINGCHECK" => self.take_checks(),
            "TIMINGENV" => self.pass("TIMINGENV"),
            "LABEL" => self.pass("LABEL"),
            _ => Err(self.unsupported()),
        }
    }

    /// Takes a cell.
    fn take_cell(&mut self) -> Result<(), Fault> {
        self.kind = "";
        self.target = Target::Nothing;
        for _ in 0..u64::MAX {
            if !self.enter()? {
                break;
            }
            self.take_part()?;
        }
        Ok(())
    }

    /// Takes a part of the file.
    fn take_entry(&mut self) -> Result<(), Fault> {
        match self.keyword {
            "CELL" => self.take_cell(),
            "DIVIDER" => self.take_divider(),
            "TIMESCALE" => self.take_scale(),
            _ if known(HEADER.as_slice(), self.keyword).is_some() => self.skip(),
            _ => Err(self.unsupported()),
        }
    }

    /// Takes the parts of the file.
    fn take_entries(&mut self) -> Result<(), Fault> {
        for _ in 0..u64::MAX {
            if !self.enter()? {
                break;
            }
            self.take_entry()?;
        }
        Ok(())
    }

    /// Takes the whole file.
    fn take_file(&mut self) -> Result<(), Fault> {
        if !self.enter()? || self.keyword != "DELAYFILE" {
            return Err(self.fault(&["'(DELAYFILE' is wanted"]));
        }
        self.take_entries()?;
        if self.tokens.token != Token::EndOfFile {
            return Err(self.unexpected("the end of the file"));
        }
        Ok(())
    }
}

/// Reads a file, whose values are those of a corner, with its checks if they are wanted.
fn read_file(
    alloc: Global,
    text: &[u8],
    corner: Corner,
    wants_checks: bool,
) -> Result<(Box<Delays>, CheckList), Fault> {
    let mut reader = Reader::new(alloc, text, corner, Delays::new(alloc)?);
    reader.checks.is_wanted = wants_checks;
    match reader.take_file() {
        Ok(()) => Ok(reader.into_parts()),
        Err(fault) => Err(fault.about(alloc, &["the SDF file"])),
    }
}

/// Reads a file, whose values are those of a corner.
pub fn read_delay_file(alloc: Global, text: &[u8], corner: Corner) -> Result<Box<Delays>, Fault> {
    let (delays, _checks) = read_file(alloc, text, corner, false)?;
    Ok(delays)
}

/// Reads a file with its checks, whose values are those of a corner.
pub fn read_check_file(
    alloc: Global,
    text: &[u8],
    corner: Corner,
) -> Result<(Box<Delays>, CheckList), Fault> {
    read_file(alloc, text, corner, true)
}
