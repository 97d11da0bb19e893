//! Readers and writers in memory that give or accept little at a time, or fail.

use std::alloc::Global;
use std::io;
use std::io::{ErrorKind, Read, Write};

/// A writer that accepts at most `a_call` bytes a call, fails once it has accepted `in_all`, and
/// counts its calls.
#[derive(Drop)]
pub struct Failing {
    pub taken: Vec<u8>,
    pub a_call: usize,
    pub in_all: usize,
    pub calls: usize,
}

impl Failing {
    /// A writer that has accepted nothing so far.
    pub fn new(alloc: Global, a_call: usize, in_all: usize) -> Failing {
        Failing {
            taken: Vec::new(alloc),
            a_call,
            in_all,
            calls: 0,
        }
    }

    /// Whether it has accepted exactly these bytes.
    pub fn has(&self, bytes: &[u8]) -> bool {
        self.taken.as_slice() == bytes
    }
}

impl Write for Failing {
    fn write(&mut self, buf: &[u8]) -> io::Result<usize> {
        self.calls = self.calls.saturating_add(1);
        let room = self.in_all.saturating_sub(self.taken.len());
        if room == 0 && !buf.is_empty() {
            return Err(io::Error::from(ErrorKind::Other));
        }
        let count = buf.len().min(room).min(self.a_call);
        self.taken.extend_from_slice(&buf[..count])?;
        Ok(count)
    }

    fn flush(&mut self) -> io::Result<()> {
        Ok(())
    }
}

/// A reader that gives one byte a call and, if it is to fail, fails after the last.
#[derive(Drop)]
pub struct Dripping<'a> {
    pub rest: &'a [u8],
    pub fails: bool,
}

impl Read for Dripping<'_> {
    fn read(&mut self, buf: &mut [u8]) -> io::Result<usize> {
        match self.rest.split_first() {
            Some((first, rest)) if !buf.is_empty() => {
                buf[0] = *first;
                self.rest = rest;
                Ok(1)
            }
            None if self.fails => Err(io::Error::from(ErrorKind::Other)),
            _ => Ok(0),
        }
    }
}

/// A reader of endless blanks.
#[derive(Drop)]
pub struct Endless;

impl Read for Endless {
    fn read(&mut self, buf: &mut [u8]) -> io::Result<usize> {
        let count = buf.len();
        for byte in buf.iter_mut() {
            *byte = b' ';
        }
        Ok(count)
    }
}

/// A reader of endless blanks, which gives one a call and counts its calls.
#[derive(Drop)]
pub struct Trickling {
    pub calls: usize,
}

impl Read for Trickling {
    fn read(&mut self, buf: &mut [u8]) -> io::Result<usize> {
        self.calls = self.calls.saturating_add(1);
        match buf.first_mut() {
            Some(first) => {
                *first = b' ';
                Ok(1)
            }
            None => Ok(0),
        }
    }
}

/// A reader that counts its calls, and is at its end.
#[derive(Drop)]
pub struct Counting {
    pub calls: usize,
}

impl Read for Counting {
    fn read(&mut self, _buf: &mut [u8]) -> io::Result<usize> {
        self.calls = self.calls.saturating_add(1);
        Ok(0)
    }
}
