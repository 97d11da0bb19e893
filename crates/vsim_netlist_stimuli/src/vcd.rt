//! Reading stimuli.

use crate::changes::Input;
use crate::header::Header;
use crate::lines::{in_line, read_lines};
use crate::scopes::choose;
use crate::values::{Values, make_values};
use crate::words::{Words, words_of};
use std::alloc::Global;
use vsim_netlist_design::{Change, Fault, Stimuli};

/// The refusal of a VCD that ends too early.
fn cut_off(alloc: Global) -> Fault {
    Fault::of(alloc, &["the VCD is cut off"])
}

/// Reads words up to the end of a header.
fn take_header<'a>(
    alloc: Global,
    header: &mut Header<'a>,
    words: &mut Words<'a>,
) -> Result<(), Fault> {
    for _ in 0..u64::MAX {
        let Some(word) = words.take() else {
            return Err(cut_off(alloc));
        };
        header.take(word)?;
        if header.is_done {
            break;
        }
    }
    Ok(())
}

/// The same. An error names the line.
fn take_placed_header<'a>(
    alloc: Global,
    header: &mut Header<'a>,
    words: &mut Words<'a>,
) -> Result<(), Fault> {
    match take_header(alloc, header, words) {
        Ok(()) => Ok(()),
        Err(fault) => Err(in_line(alloc, words.line(), fault)),
    }
}

/// Reads the values up to the end of a VCD.
fn take_values<'a>(values: &mut Values<'a>, words: &mut Words<'a>) -> Result<(), Fault> {
    for _ in 0..u64::MAX {
        let Some(word) = words.take() else {
            break;
        };
        values.take(word)?;
    }
    Ok(())
}

/// The same. An error names the line.
fn take_placed_values<'a>(
    alloc: Global,
    values: &mut Values<'a>,
    words: &mut Words<'a>,
) -> Result<(), Fault> {
    match take_values(values, words) {
        Ok(()) => Ok(()),
        Err(fault) => Err(in_line(alloc, words.line(), fault)),
    }
}

/// The values of a VCD with this header, of which none has been read.
fn no_values<'a>(
    alloc: Global,
    header: &Header<'a>,
    inputs: &[Input],
    scope: Option<&str>,
) -> Result<Values<'a>, Fault> {
    let matches = choose(alloc, header, inputs, scope)?;
    Ok(make_values(alloc, header.scale, inputs, matches.as_slice())?)
}

/// Reads the header of a VCD. Returns its inputs, without values yet.
fn begin_values<'a>(
    alloc: Global,
    words: &mut Words<'a>,
    inputs: &[Input],
    scope: Option<&str>,
) -> Result<Values<'a>, Fault> {
    let mut header = Header::new(alloc);
    take_placed_header(alloc, &mut header, words)?;
    no_values(alloc, &header, inputs, scope)
}

/// Reads a VCD: its header, then its values.
fn read_vcd(
    alloc: Global,
    text: &str,
    inputs: &[Input],
    scope: Option<&str>,
) -> Result<Stimuli, Fault> {
    let mut words = words_of(text);
    let mut values = begin_values(alloc, &mut words, inputs, scope)?;
    take_placed_values(alloc, &mut values, &mut words)?;
    if values.is_cut() || !text.ends_with("\n") {
        return Err(cut_off(alloc));
    }
    Ok(values.into_stimuli())
}

/// Refuses an input without a value.
fn demand_input(alloc: Global, bits: &[Vec<Change>], input: &Input) -> Result<(), Fault> {
    for changes in bits {
        if changes.is_empty() {
            let name = input.name.as_str();
            return Err(Fault::of(alloc, &["input ", name, " has no value"]));
        }
    }
    Ok(())
}

/// Refuses inputs without a value.
fn demand_all(alloc: Global, stimuli: &Stimuli, inputs: &[Input]) -> Result<(), Fault> {
    let mut start = 0usize;
    for input in inputs {
        let end = start.saturating_add(input.width);
        let Some(bits) = stimuli.bits.get(start..end) else {
            return Err(Fault::of(alloc, &["the bits of inputs"]));
        };
        demand_input(alloc, bits, input)?;
        start = end;
    }
    Ok(())
}

/// Reads a VCD, or lines.
fn read_either(
    alloc: Global,
    text: &str,
    inputs: &[Input],
    scope: Option<&str>,
) -> Result<Stimuli, Fault> {
    if text.trim_ascii_start().starts_with("$") {
        read_vcd(alloc, text, inputs, scope)
    } else {
        read_lines(alloc, text, inputs)
    }
}

/// Reads the stimuli of these inputs: from the variables of one scope of a VCD, or from lines.
pub fn read_stimuli(
    alloc: Global,
    text: &str,
    inputs: &[Input],
    scope: Option<&str>,
) -> Result<Stimuli, Fault> {
    let stimuli = read_either(alloc, text, inputs, scope)?;
    demand_all(alloc, &stimuli, inputs)?;
    Ok(stimuli)
}
