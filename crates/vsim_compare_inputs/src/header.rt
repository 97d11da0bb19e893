//! The header of a VCD: its scopes and variables.

use crate::bits::{Bits, Offers, owned, push};
use indexmap::IndexMap;
use std::alloc::{AllocError, Global};
use vsim_waves_listing::{Fault, MapBit};
use vsim_waves_words::{read_number, read_time};

/// The widest variable.
const WIDEST: u64 = 1 << 20;

/// A variable: its path, with dots, and its bits.
#[derive(Drop)]
struct Variable {
    path: Vec<u8>,
    bits: Bits,
}

/// The header of a VCD, as far as it has been read.
pub struct Header {
    alloc: Global,
    /// The words of the present section.
    words: Vec<Vec<u8>>,
    /// The path of the open scope, and the lengths of those around it.
    path: Vec<u8>,
    around: Vec<usize>,
    /// The bits that codes stand for, and the number of all.
    codes: IndexMap<Vec<u8>, Bits>,
    count: usize,
    variables: Vec<Variable>,
    /// The unit of time, in femtoseconds.
    scale: u64,
    is_done: bool,
}

/// Written by hand so that code which drops it needs no proof about its contents.
impl Drop for Header {
    fn drop(self) {
        let Header {
            alloc: _,
            words,
            path,
            around,
            codes,
            count: _,
            variables,
            scale: _,
            is_done: _,
        } = self;
        drop(words);
        drop(path);
        drop(around);
        drop(codes);
        drop(variables);
    }
}

/// A name without a range after it, and without the backslash of an escaped name.
fn bare(name: &[u8]) -> &[u8] {
    match name.iter().position(|byte| *byte == b'[') {
        Some(at) if at > 0 => name.get(..at).unwrap_or(name),
        _ => name.strip_prefix(b"\\").unwrap_or(name),
    }
}

/// What follows a scope and a dot in a path.
fn below<'a>(path: &'a [u8], scope: &[u8]) -> Option<&'a [u8]> {
    if scope.is_empty() {
        return Some(path);
    }
    path.strip_prefix(scope)?.strip_prefix(b".")
}

/// The number of dots of a path.
fn depth(path: &[u8]) -> usize {
    path.iter().filter(|byte| **byte == b'.').count()
}

impl Header {
    /// Nothing has been read.
    pub fn new(alloc: Global) -> Header {
        Header {
            alloc,
            words: Vec::new(alloc),
            path: Vec::new(alloc),
            around: Vec::new(alloc),
            codes: IndexMap::new(alloc),
            count: 0,
            variables: Vec::new(alloc),
            scale: 1,
            is_done: false,
        }
    }

    /// Whether the header was read to its end.
    pub fn is_done(&self) -> bool {
        self.is_done
    }

    /// The unit of time, in femtoseconds.
    pub fn scale(&self) -> u64 {
        self.scale
    }

    /// The number of bits of all variables.
    pub fn count(&self) -> usize {
        self.count
    }

    /// The bits of the variable with a code.
    pub fn find(&self, code: &[u8]) -> Option<Bits> {
        self.codes.get(code).copied()
    }

    /// The word at an index of the section.
    fn word(&self, at: usize) -> &[u8] {
        match self.words.get(at) {
            Some(word) => word.as_slice(),
            None => b"",
        }
    }

    /// Enters a scope.
    fn enter(&mut self) -> Result<(), AllocError> {
        push(&mut self.around, self.path.len())?;
        self.path = self.path_of(self.word(2))?;
        Ok(())
    }

    /// The path of a name in the open scope.
    fn path_of(&self, name: &[u8]) -> Result<Vec<u8>, AllocError> {
        let mut path = owned(self.alloc, self.path.as_slice())?;
        if !path.is_empty() {
            push(&mut path, b'.')?;
        }
        path.extend_from_slice(name)?;
        Ok(path)
    }

    /// Leaves the open scope.
    fn leave(&mut self) {
        let length = self.around.pop().unwrap_or(0);
        self.path.truncate(length);
    }

    /// Takes the unit of time.
    fn take_scale(&mut self) -> Result<(), Fault> {
        let Some(scale) = read_time(self.word(1), self.word(2)) else {
            return Err(Fault::Refused("the time scale is none"));
        };
        self.scale = scale;
        Ok(())
    }

    /// The width of a variable; 0 if it is a number or a text.
    fn width(&self) -> Option<usize> {
        if matches!(self.word(1), b"real" | b"realtime" | b"string" | b"event") {
            return Some(0);
        }
        match read_number(self.word(2)) {
            Some(width) if width <= WIDEST => Some(width as usize),
            _ => None,
        }
    }

    /// Takes a variable.
    fn declare(&mut self) -> Result<(), Fault> {
        let Some(width) = self.width() else {
            return Err(Fault::Refused("a variable has no width, or too many bits"));
        };
        let code = owned(self.alloc, self.word(3))?;
        Ok(self.add(code, width)?)
    }

    /// Adds a variable with a code, whose bits may have another variable already.
    fn add(&mut self, code: Vec<u8>, width: usize) -> Result<(), AllocError> {
        let path = self.path_of(bare(self.word(4)))?;
        let bits = match self.find(code.as_slice()) {
            Some(bits) => bits,
            None => self.add_code(code, width)?,
        };
        self.variables.push(Variable { path, bits })?;
        Ok(())
    }

    /// Adds a code with bits of its own.
    fn add_code(&mut self, code: Vec<u8>, width: usize) -> Result<Bits, AllocError> {
        let bits = Bits {
            first: self.count,
            width,
        };
        self.codes.insert(code, bits)?;
        self.count = self.count.saturating_add(width.max(1));
        Ok(bits)
    }

    /// Carries out a section.
    fn close(&mut self) -> Result<(), Fault> {
        match self.word(0) {
            b"$scope" => Ok(self.enter()?),
            b"$var" => self.declare(),
            b"$timescale" => self.take_scale(),
            b"$upscope" => {
                self.leave();
                Ok(())
            }
            b"$enddefinitions" => {
                self.is_done = true;
                Ok(())
            }
            _ => Ok(()),
        }
    }

    /// Takes the next word.
    pub fn take(&mut self, word: &[u8]) -> Result<(), Fault> {
        if matches!(word, b"$end") {
            self.close()?;
            self.words.clear();
            return Ok(());
        }
        if self.words.is_empty() && !word.starts_with(b"$") {
            return Err(Fault::Refused("this begins no section of a VCD"));
        }
        Ok(self.add_word(word)?)
    }

    /// Adds a word to the section. Those of a comment are of no use.
    fn add_word(&mut self, word: &[u8]) -> Result<(), AllocError> {
        if self.words.len() < 8 {
            self.words.push(owned(self.alloc, word)?)?;
        }
        Ok(())
    }

    /// What it offers below a scope, or else below the one that has most of the other side's nets.
    pub fn offers(
        &self,
        alloc: Global,
        scope: Option<&str>,
        other: Option<&Offers>,
    ) -> Result<Offers, Fault> {
        let scope = match (scope, other) {
            (Some(scope), _) => owned(alloc, scope.as_bytes())?,
            (None, Some(other)) => self.best(alloc, other)?,
            (None, None) => Vec::new(alloc),
        };
        Ok(self.below(alloc, scope.as_slice())?)
    }

    /// The variables below a scope.
    fn below(&self, alloc: Global, scope: &[u8]) -> Result<Offers, AllocError> {
        let mut offers = Offers::new(alloc);
        for variable in self.variables.iter() {
            let name = below(variable.path.as_slice(), scope);
            if let Some(name) = name.filter(|_name| variable.bits.width > 0) {
                let bits = self.bits(variable.bits)?;
                offers.offer(alloc, name, bits.as_slice())?;
            }
        }
        Ok(offers)
    }

    /// The bits of a variable.
    fn bits(&self, bits: Bits) -> Result<Vec<MapBit>, AllocError> {
        (0..bits.width)
            .map(|bit| MapBit::Signal(bits.first.saturating_add(bit)))
            .collect(self.alloc)
    }

    /// The scope below which most nets of another side are; the deepest, and the first, of several.
    fn best(&self, alloc: Global, other: &Offers) -> Result<Vec<u8>, AllocError> {
        let mut counts = IndexMap::new(alloc);
        for variable in self.variables.iter() {
            count_scopes(alloc, &mut counts, variable, other)?;
        }
        let mut best = Vec::new(alloc);
        let (mut most, mut deepest) = (0usize, 0usize);
        for (scope, count) in counts.iter() {
            let depth = depth(scope.as_slice());
            if *count > most || (*count == most && depth > deepest) {
                most = *count;
                deepest = depth;
                best = owned(alloc, scope.as_slice())?;
            }
        }
        Ok(best)
    }
}

/// Counts a variable for each scope below which the other side has it.
fn count_scopes(
    alloc: Global,
    counts: &mut IndexMap<Vec<u8>, usize>,
    variable: &Variable,
    other: &Offers,
) -> Result<(), AllocError> {
    let path = variable.path.as_slice();
    for (place, byte) in path.iter().enumerate() {
        if *byte == b'.' {
            let scope = path.get(..place).unwrap_or(&[]);
            let name = path.get(place.saturating_add(1)..).unwrap_or(&[]);
            if other.find(name, variable.bits.width).is_some() {
                count_scope(alloc, counts, scope)?;
            }
        }
    }
    Ok(())
}

/// Counts one for a scope.
fn count_scope(
    alloc: Global,
    counts: &mut IndexMap<Vec<u8>, usize>,
    scope: &[u8],
) -> Result<(), AllocError> {
    let scope = owned(alloc, scope)?;
    let count = counts.entry(scope)?.or_insert(0);
    *count = count.saturating_add(1);
    Ok(())
}
