//! Short names, which are copied as a whole.
ghost use Rattle.std.specs.Prelude.{◌≡◌, ◌+◌, ◌<◌, ◌≤◌, ◌++◌, [], Some, length, map, take, IfOk, IfSome};
ghost use Rattle.std.specs.List.{concat};
ghost use Rattle.sim_run_listing.specs.ShortNames.{AreNames, IsAtMost, extended, length_of};

use crate::copying::put_chunk;
use crate::named::Named;
use sim_flat_design::PathPiece;
use std::alloc::{AllocError, Global};
use std::marker::Model;

/// The number of bytes that are copied for a name, which has fewer.
pub const ROOM: usize = 32;

/// Where the number of bytes of a name is.
const LAST: usize = 31;

/// The mark of a name that is not short, in place of the number of its bytes.
const LONG: u8 = 255;

/// A name of at most 31 bytes, or none.
#[derive(Drop)]
pub struct ShortName {
    bytes: [u8; ROOM],
}

impl Model for ShortName {
    ghost use Rattle.std.specs.Prelude.{ℕ, List, Option};
    ghost use Rattle.sim_run_listing.specs.ShortNames.{short_of};

    ghost Value = { Option (List ℕ) };

    ghost view = { λ s. short_of s.bytes };
}

impl ShortName {
    /// A name without bytes.
    fn new() -> ShortName
        ensures { result ≡ Some [] }
    {
        ShortName { bytes: [0; ROOM] }
    }

    /// The number of its bytes, if it is short.
    #[inline(always)]
    pub fn len(&self) -> Option<usize>
        ensures value { result ≡ length_of self.now }
        ensures fits { IfSome result (λ n. n < ROOM) }
    {
        let len = self.bytes[LAST] as usize;
        if len < ROOM { Some(len) } else { None }
    }

    /// Appends a piece. The name is none if it becomes too long.
    fn append(&mut self, piece: &[u8])
        ensures { self.new ≡ extended self.old piece.now }
    {
        let Some(len) = self.len() else {
            return;
        };
        if piece.len() > LAST - len {
            self.bytes[LAST] = LONG;
            return;
        }
        let end = len + piece.len();
        self.bytes[len..end].copy_from_slice(piece);
        self.bytes[LAST] = end as u8;
    }

    /// Appends the pieces of a path to a name without bytes.
    fn append_path(&mut self, path: &[PathPiece])
        requires { self.old ≡ Some [] }
        ensures { IsAtMost self.new (concat path.now) }
    {
        for piece in path {
            self.append(piece.as_str().as_bytes());
        }
    }

    /// The name of this path and simple name.
    fn of(path: &[PathPiece], simple_name: &[u8]) -> ShortName
        ensures { IsAtMost result (concat path.now ++ simple_name.now) }
    {
        let mut name = ShortName::new();
        name.append_path(path);
        name.append(simple_name);
        name
    }

    /// Copies the name to a place. The bytes behind it may be any then.
    #[inline(always)]
    pub fn copy_to(&self, to: &mut [u8], at: usize)
        requires { at + ROOM ≤ length to.old }
        ensures { IfSome self.now (λ t. take (at + length t) to.new ≡ take at to.old ++ t) }
    {
        put_chunk::<ROOM>(&mut to[at..at + ROOM], &self.bytes);
    }
}

/// The short ones of these names.
fn short_names<N: Named>(alloc: Global, names: &[N]) -> Result<Vec<ShortName>, AllocError>
    ensures { IfOk result (λ v. AreNames (map N.name_of names.now) v.items) }
{
    let mut short = Vec::with_capacity(alloc, names.len())?;
    for name in names {
        let (path, simple_name) = name.name_pieces();
        short.push(ShortName::of(path, simple_name))?;
    }
    Ok(short)
}

/// The short ones of these names; none of them is known if memory is refused.
fn known_names<N: Named>(alloc: Global, names: &[N]) -> Vec<ShortName>
    ensures { AreNames (map N.name_of names.now) result.items }
{
    match short_names(alloc, names) {
        Ok(known) => known,
        Err(_no_memory) => Vec::new(alloc),
    }
}

/// The short ones of a run's names, by the numbers of the nets.
pub struct KnownNames {
    names: Vec<ShortName>,
}

/// Written by hand so that code which drops it needs no proof about its contents.
impl Drop for KnownNames {
    fn drop(self) {
        let KnownNames { names } = self;
        drop(names);
    }
}

impl Model for KnownNames {
    ghost use Rattle.std.specs.Prelude.{ℕ, List, Option};

    ghost Value = { List (Option (List ℕ)) };

    ghost view = { λ s. s.names.items };
}

impl KnownNames {
    /// Those of these names. None of them is known if memory is refused.
    pub fn of<N: Named>(alloc: Global, names: &[N]) -> KnownNames
        ensures { AreNames (map N.name_of names.now) result }
    {
        KnownNames {
            names: known_names(alloc, names),
        }
    }

    /// The names, each at the number of its net.
    pub(crate) fn as_slice(&self) -> &[ShortName]
        ensures { result.now ≡ self.now }
    {
        self.names.as_slice()
    }
}
