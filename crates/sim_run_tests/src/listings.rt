//! Listings to writers that fail.

use crate::streams::Failing;
use sim_run::{Options, RunError, simulate};
use std::alloc::{AllocError, Global};
use std::sync::Wait;
use std::test::Fail;
use std::thread::Threads;

const LATEST: u64 = 4_611_686_018_427_387_903;

const TEXT: &[u8] =
    b"entity t is end;architecture a of t is signal s:std_logic:='0';begin s <= '1' after 5 ns; end;";

const LISTING: &[u8] = b"0 0 s 0\n5000000 0 s 1\ndone 1 1\n";

/// Options under which the text runs to its end on one thread.
fn options(alloc: Global) -> Result<Options, AllocError> {
    Ok(Options {
        top: String::from_str(alloc, "t")?,
        stop: LATEST,
        limit: 10_000,
        workers: 1,
    })
}

/// Whether a listing is answered so: as whole, or as one that could not be written.
fn is_answer(answer: Result<(), RunError>, is_whole: bool) -> bool {
    match answer {
        Ok(()) => is_whole,
        Err(fault) => !is_whole && fault == RunError::Write,
    }
}

/// Whether a writer that accepts this much, in a call and in all, has this many bytes of the listing at
/// the end, and is answered accordingly.
fn is_prefix<T: Threads + Wait + Sync>(
    rt: &T,
    alloc: Global,
    a_call: usize,
    in_all: usize,
    length: usize,
) -> Result<bool, AllocError> {
    let mut out = Failing::new(alloc, a_call, in_all);
    let asked = options(alloc)?;
    let answer = simulate(rt, alloc, TEXT, &asked, &mut out);
    let is_begun = out.taken.len() == length && LISTING.starts_with(out.taken.as_slice());
    Ok(is_begun && is_answer(answer, length == LISTING.len()))
}

/// The first number of bytes in all, up to those of the listing, of which such a writer does not get
/// as many.
fn first_other<T: Threads + Wait + Sync>(
    rt: &T,
    alloc: Global,
    a_call: usize,
) -> Result<Option<usize>, AllocError> {
    for in_all in 0..LISTING.len() + 1 {
        if !is_prefix(rt, alloc, a_call, in_all, in_all)? {
            return Ok(Some(in_all));
        }
    }
    Ok(None)
}

#[test]
fn a_failing_writer_gets_a_prefix_of_the_listing(rt: HostRuntime) -> Result<(), Fail> {
    assert!(rt; first_other(&rt, rt.alloc(), 1)?.is_none());
    assert!(rt; first_other(&rt, rt.alloc(), 8192)?.is_none());
    assert!(rt; is_prefix(&rt, rt.alloc(), 0, 100, 0)?);
    Ok(())
}
