//! The program, with readers and writers in memory.

use crate::streams::{Counting, Dripping, Endless, Failing, Trickling};
use sim_run::session;
use std::alloc::{AllocError, Global};
use std::io::{Read, Write};
use std::sync::Wait;
use std::test::Fail;
use std::thread::Threads;

const TEXT: &[u8] =
    b"entity t is end;architecture a of t is signal s:std_logic:='0';begin s <= '1' after 5 ns; end;";

const LISTING: &[u8] = b"0 0 s 0\n5000000 0 s 1\ndone 1 1\n";

/// The words of a command line.
fn words(alloc: Global, line: &str) -> Result<Vec<String>, AllocError> {
    let mut words = Vec::new(alloc);
    for word in line.split_whitespace() {
        words.push(String::from_str(alloc, word)?)?;
    }
    Ok(words)
}

/// Runs the program on a line of words, and returns its status.
fn status_of<T: Threads + Wait + Sync, R: Read, W: Write + Send, E: Write>(
    rt: &T,
    alloc: Global,
    line: &str,
    input: &mut R,
    out: &mut W,
    err: &mut E,
) -> Result<u8, AllocError> {
    let words = words(alloc, line)?;
    Ok(session(rt, alloc, words, input, out, err))
}

/// The status of a program, and what it has written to both streams.
#[derive(Drop)]
struct Said {
    status: u8,
    out: Vec<u8>,
    err: Vec<u8>,
}

/// The status of the program for a line of words, and its output.
fn answer_to<T: Threads + Wait + Sync, R: Read>(
    rt: &T,
    alloc: Global,
    line: &str,
    input: &mut R,
) -> Result<Said, AllocError> {
    let mut out = Vec::new(alloc);
    let mut err = Vec::new(alloc);
    let status = status_of(rt, alloc, line, input, &mut out, &mut err)?;
    Ok(Said { status, out, err })
}

/// Whether it has said exactly this.
fn is_said(said: &Said, status: u8, out: &[u8], err: &[u8]) -> bool {
    said.status == status && said.out.as_slice() == out && said.err.as_slice() == err
}

/// Whether the text, of which each read gives a byte, has its listing.
fn is_listed<T: Threads + Wait + Sync>(rt: &T, alloc: Global) -> Result<bool, AllocError> {
    let mut input = Dripping {
        rest: TEXT,
        fails: false,
    };
    let said = answer_to(rt, alloc, "--top t", &mut input)?;
    Ok(is_said(&said, 0, LISTING, b""))
}

#[test]
fn a_listing_is_written_with_status_0(rt: HostRuntime) -> Result<(), Fail> {
    assert!(rt; is_listed(&rt, rt.alloc())?);
    Ok(())
}

/// Whether a text without end is too long.
fn is_too_long<T: Threads + Wait + Sync>(rt: &T, alloc: Global) -> Result<bool, AllocError> {
    let mut endless = Endless;
    let said = answer_to(rt, alloc, "--top t", &mut endless)?;
    Ok(is_said(&said, 1, b"", b"vsim: TooLong\n"))
}

/// Whether a text that cannot be read to its end is refused.
fn is_not_read<T: Threads + Wait + Sync>(rt: &T, alloc: Global) -> Result<bool, AllocError> {
    let mut failing = Dripping {
        rest: &TEXT[..40],
        fails: true,
    };
    let said = answer_to(rt, alloc, "--top t", &mut failing)?;
    Ok(is_said(&said, 4, b"", b"vsim: Read\n"))
}

#[test]
fn refusals_have_their_status_and_line(rt: HostRuntime) -> Result<(), Fail> {
    assert!(rt; is_too_long(&rt, rt.alloc())?);
    assert!(rt; is_not_read(&rt, rt.alloc())?);
    Ok(())
}

/// Whether a text that is too long is read up to one byte more than it may have, though each read
/// gives one: so the limit of reads is not reached before.
fn is_read_to_its_limit<T: Threads + Wait + Sync>(
    rt: &T,
    alloc: Global,
) -> Result<bool, AllocError> {
    let mut input = Trickling { calls: 0 };
    let said = answer_to(rt, alloc, "--top t", &mut input)?;
    Ok(input.calls == 1_048_577 && is_said(&said, 1, b"", b"vsim: TooLong\n"))
}

#[test]
fn a_text_that_comes_byte_by_byte_is_read_to_its_limit(rt: HostRuntime) -> Result<(), Fail> {
    assert!(rt; is_read_to_its_limit(&rt, rt.alloc())?);
    Ok(())
}

/// Whether a listing that cannot be written has status 4, where standard error takes this many bytes,
/// and then has these.
fn is_cut_off<T: Threads + Wait + Sync>(
    rt: &T,
    alloc: Global,
    in_all: usize,
    line: &[u8],
) -> Result<bool, AllocError> {
    let mut input = TEXT;
    let mut out = Failing::new(alloc, 8192, 10);
    let mut err = Failing::new(alloc, 1, in_all);
    let status = status_of(rt, alloc, "--top t", &mut input, &mut out, &mut err)?;
    Ok(status == 4 && out.has(&LISTING[..10]) && err.has(line))
}

#[test]
fn a_failed_write_has_status_4_even_where_the_line_fails_too(rt: HostRuntime) -> Result<(), Fail> {
    assert!(rt; is_cut_off(&rt, rt.alloc(), 100, b"vsim: Write\n")?);
    assert!(rt; is_cut_off(&rt, rt.alloc(), 6, b"vsim: ")?);
    Ok(())
}

/// Whether help that cannot be written has status 4.
fn is_help_cut_off<T: Threads + Wait + Sync>(rt: &T, alloc: Global) -> Result<bool, AllocError> {
    let mut input = TEXT;
    let mut out = Failing::new(alloc, 8192, 10);
    let mut err = Vec::new(alloc);
    let status = status_of(rt, alloc, "--help", &mut input, &mut out, &mut err)?;
    Ok(status == 4 && out.taken.len() == 10)
}

#[test]
fn help_to_a_writer_that_fails_has_status_4(rt: HostRuntime) -> Result<(), Fail> {
    assert!(rt; is_help_cut_off(&rt, rt.alloc())?);
    Ok(())
}

/// Whether the words have a status, and nothing is read.
fn is_answered_unread<T: Threads + Wait + Sync>(
    rt: &T,
    alloc: Global,
    line: &str,
    status: u8,
) -> Result<bool, AllocError> {
    let mut input = Counting { calls: 0 };
    let said = answer_to(rt, alloc, line, &mut input)?;
    Ok(said.status == status && input.calls == 0)
}

#[test]
fn help_and_refused_words_read_nothing(rt: HostRuntime) -> Result<(), Fail> {
    assert!(rt; is_answered_unread(&rt, rt.alloc(), "--help", 0)?);
    assert!(rt; is_answered_unread(&rt, rt.alloc(), "", 2)?);
    Ok(())
}
