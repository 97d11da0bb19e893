//! Bytes for a writer, buffered in blocks.
ghost use Rattle.std.specs.Prelude.{◌≡◌, ◌<◌, ◌≤◌, ◌+◌, ◌++◌, [], Some, length, true, false, OnOk, OnErr, flat_map};
ghost use Rattle.std.specs.Io.KnownBytes.{Appends};
ghost use Rattle.sim_run_listing.specs.Listing.{joined, pieces_of};
ghost use Rattle.sim_run_listing.specs.ShortNames.{length_of, with_line};
ghost use Rattle.sim_run_listing.specs.Writing.{AppendsPart, Gathers};

use crate::copying::{WINDOW, copy_to};
use crate::error::WriteError;
use crate::head::{Head, WIDTH};
use crate::short_name::{ROOM, ShortName};
use sim_flat_design::PathPiece;
use sim_logic::Logic;
use std::io::Write;
use std::marker::Model;

/// The number of bytes of a full block.
pub const SIZE: usize = 32768;

/// The bytes that are buffered for a writer.
#[derive(Drop)]
pub struct Block {
    bytes: [u8; SIZE],
    len: usize,
}

impl Model for Block {
    ghost use Rattle.std.specs.Prelude.{ℕ, List, ◌≤◌, take};

    ghost Value = { List ℕ };

    ghost view = { λ s. take s.len s.bytes };

    ghost invariant = { λ s. s.len ≤ 32768 };
}

impl Block {
    /// No bytes.
    pub fn new() -> Block
        ensures { result ≡ [] }
    {
        Block {
            bytes: [0; SIZE],
            len: 0,
        }
    }

    /// The bytes.
    fn as_slice(&self) -> &[u8]
        ensures { result.now ≡ self.now }
    {
        &self.bytes[..self.len]
    }

    /// How many more bytes it takes.
    fn room(&self) -> usize
        ensures { result + length self.now ≡ SIZE }
    {
        SIZE - self.len
    }

    /// Removes the bytes.
    fn clear(&mut self)
        ensures { self.new ≡ [] }
    {
        self.len = 0;
    }

    /// Appends bytes that it has room for.
    fn extend(&mut self, more: &[u8])
        requires { length self.old + length more.now ≤ SIZE }
        ensures { self.new ≡ self.old ++ more.now }
    {
        let end = self.len + more.len();
        self.bytes[self.len..end].copy_from_slice(more);
        self.len = end;
    }

    /// Whether `gather_line` may write a line with this name.
    #[inline(always)]
    pub fn has_room(&self, path: &[u8], simple_name: &[u8]) -> bool
        ensures { result ≡ true → length self.now + WIDTH + length path.now + length simple_name.now + WINDOW ≤ SIZE }
    {
        let beside = WIDTH + path.len() + WINDOW;
        let room = SIZE - self.len;
        beside <= room && simple_name.len() <= room - beside
    }

    /// Buffers the line of a short name with this number of bytes, copied as a whole.
    #[inline(always)]
    fn gather_whole(&mut self, head: &Head, name: &ShortName, len: usize, value: Logic)
        requires room { length self.old + WIDTH + ROOM + WINDOW ≤ SIZE }
        requires len { length_of name.now ≡ Some len }
        requires fits { len < ROOM }
        ensures { Some self.new ≡ with_line self.old head.now.text name.now value }
    {
        let at = self.len;
        let named = at + head.len();
        head.copy_to(&mut self.bytes, at);
        name.copy_to(&mut self.bytes, named);
        let tail = named + len;
        self.bytes[tail] = b' ';
        self.bytes[tail + 1] = value.to_byte();
        self.bytes[tail + 2] = b'\n';
        self.len = tail + 3;
    }

    /// Buffers the line of a name, if that is short and there is room. Returns whether it has.
    #[inline(always)]
    pub fn gather_short(&mut self, head: &Head, name: &ShortName, value: Logic) -> bool
        ensures line { result ≡ true → Some self.new ≡ with_line self.old head.now.text name.now value }
        ensures same { result ≡ false → self.new ≡ self.old }
    {
        let Some(len) = name.len() else {
            return false;
        };
        if self.len > SIZE - WIDTH - ROOM - WINDOW {
            return false;
        }
        self.gather_whole(head, name, len, value);
        true
    }

    /// Buffers a line, without a call for short names.
    #[inline(always)]
    pub fn gather_line(&mut self, head: &Head, path: &[u8], simple_name: &[u8], value: Logic)
        requires { length self.old + WIDTH + length path.now + length simple_name.now + WINDOW ≤ SIZE }
        ensures { self.new ≡ self.old ++ pieces_of head.now.text (path.now ++ simple_name.now) value }
    {
        let at = self.len;
        let named = at + head.len();
        head.copy_to(&mut self.bytes, at);
        copy_to(&mut self.bytes, named, path);
        copy_to(&mut self.bytes, named + path.len(), simple_name);
        let end = named + path.len() + simple_name.len();
        self.bytes[end] = b' ';
        self.bytes[end + 1] = value.to_byte();
        self.bytes[end + 2] = b'\n';
        self.len = end + 3;
    }
}

/// Writes all of the bytes, by as many calls as it takes. It stops at a call that fails or writes
/// nothing.
pub fn write_whole<W: Write>(out: &mut W, bytes: &[u8]) -> Result<(), WriteError>
    ensures ok { OnOk result (Appends (W.contents out.old) (W.contents out.new) bytes.now) }
    ensures part { OnErr result (AppendsPart (W.contents out.old) (W.contents out.new) bytes.now) }
{
    let mut rest = bytes;
    while !rest.is_empty() {
        match out.write(rest) {
            Ok(0) | Err(_) => return Err(WriteError),
            Ok(taken) => rest = &rest[taken..],
        }
    }
    Ok(())
}

/// Writes the buffered bytes.
#[inline(never)]
pub fn write_out<W: Write>(out: &mut W, block: &mut Block) -> Result<(), WriteError>
    ensures ok { OnOk result (Appends (W.contents out.old) (W.contents out.new) block.old) }
    ensures empty { OnOk result (block.new ≡ []) }
    ensures part { OnErr result (AppendsPart (W.contents out.old) (W.contents out.new) block.old) }
{
    write_whole(out, block.as_slice())?;
    block.clear();
    Ok(())
}

/// Writes a block if it is full, so that there is room in it.
fn make_room<W: Write>(out: &mut W, block: &mut Block) -> Result<(), WriteError>
    ensures ok { OnOk result (Gathers (W.contents out.old) block.old (W.contents out.new) block.new []) }
    ensures room { OnOk result (length block.new < SIZE) }
    ensures part { OnErr result (AppendsPart (W.contents out.old) (W.contents out.new) block.old) }
{
    if block.room() == 0 {
        write_out(out, block)?;
    }
    Ok(())
}

/// Buffers the bytes, and writes each full block.
pub fn put<W: Write>(out: &mut W, block: &mut Block, bytes: &[u8]) -> Result<(), WriteError>
    ensures ok { OnOk result (Gathers (W.contents out.old) block.old (W.contents out.new) block.new bytes.now) }
    ensures part { OnErr result (AppendsPart (W.contents out.old) (W.contents out.new) (block.old ++ bytes.now)) }
{
    let mut rest = bytes;
    while !rest.is_empty() {
        make_room(out, block)?;
        let (front, back) = rest.split_at(rest.len().min(block.room()));
        block.extend(front);
        rest = back;
    }
    Ok(())
}

/// Buffers the pieces, one after another.
pub fn put_all<W: Write>(out: &mut W, block: &mut Block, pieces: &[&[u8]]) -> Result<(), WriteError>
    ensures ok { OnOk result (Gathers (W.contents out.old) block.old (W.contents out.new) block.new (flat_map (λ p. p.now) pieces.now)) }
    ensures part { OnErr result (AppendsPart (W.contents out.old) (W.contents out.new) (block.old ++ flat_map (λ p. p.now) pieces.now)) }
{
    for piece in pieces {
        put(out, block, piece)?;
    }
    Ok(())
}

/// Buffers the pieces of a path, one after another.
pub fn put_path<W: Write>(
    out: &mut W,
    block: &mut Block,
    pieces: &[PathPiece],
) -> Result<(), WriteError>
    ensures ok { OnOk result (Gathers (W.contents out.old) block.old (W.contents out.new) block.new (joined pieces.now)) }
    ensures part { OnErr result (AppendsPart (W.contents out.old) (W.contents out.new) (block.old ++ joined pieces.now)) }
{
    for piece in pieces {
        put(out, block, piece.as_str().as_bytes())?;
    }
    Ok(())
}
