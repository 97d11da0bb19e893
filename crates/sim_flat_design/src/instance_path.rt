//! The paths of instances, which precede the simple names of their nets.

ghost use Rattle.std.specs.Prelude.{◌≡◌, ◌++◌, ◌∷◌, [], IfOk, MatchOption, codes};
ghost use Rattle.std.specs.List.{concat};

use crate::pieces::joined;
use sqlite_items::Items;
use std::alloc::{AllocError, Global};
use std::marker::Model;
use std::sync::{Arc, ArcStr};

/// The largest total length of a piece and a label added to it. A piece of one label may be longer.
const LONGEST: usize = 64;

/// Some labels of a path, each followed by `.`. Its copies share it.
#[derive(Drop)]
pub struct PathPiece {
    labels: ArcStr<Global>,
}

impl Model for PathPiece {
    ghost use Rattle.std.specs.Prelude.{ℕ, List};
    ghost use Rattle.std.specs.Arc.{arc_str_bytes};

    ghost Value = { List ℕ };

    ghost view = { λ p. arc_str_bytes p.labels };
}

impl PathPiece {
    ghost use Rattle.std.specs.Prelude.{◌≡◌, ◌++◌, IfOk, codes};

    /// The piece of these labels and one more.
    fn new(alloc: Global, labels: &str, label: &str) -> Result<PathPiece, AllocError>
        ensures { IfOk result (λ p. p ≡ labels.now ++ (label.now ++ codes ".")) }
    {
        let mut labels = joined(alloc, labels, label)?;
        labels.push_str(".")?;
        let labels = ArcStr::from_string(labels)?;
        Ok(PathPiece { labels })
    }

    /// The same piece, shared.
    fn try_copy(&self) -> Result<PathPiece, AllocError>
        ensures { IfOk result (λ p. p ≡ self.now) }
    {
        let labels = self.labels.clone()?;
        Ok(PathPiece { labels })
    }

    /// The text of the piece.
    pub fn as_str(&self) -> &str
        ensures { result.now ≡ self.now }
    {
        self.labels.as_str()
    }
}

/// The same pieces, shared.
fn copies(alloc: Global, pieces: &[PathPiece]) -> Result<Items<PathPiece>, AllocError>
    ensures { IfOk result (λ r. r ≡ pieces.now) }
{
    let mut copies = Items::new(alloc);
    for piece in pieces {
        copies.push(piece.try_copy()?)?;
    }
    Ok(copies)
}

/// The labels of an instance and of the enclosing instances, each followed by `.`, in pieces. Short
/// labels share a piece, so that most paths are a single piece; a long label is a piece that all
/// instances within its instance share. Copies of the path share it.
#[derive(Drop)]
pub struct InstancePath {
    pieces: Arc<Items<PathPiece>, Global>,
}

impl Model for InstancePath {
    ghost use Rattle.std.specs.Prelude.{ℕ, List};
    ghost use Rattle.std.specs.List.{concat};
    ghost use Rattle.std.specs.Arc.{arc_value};

    ghost Value = { List ℕ };

    ghost view = { λ p. concat (arc_value p.pieces) };
}

/// Removes the last piece if it is short enough to add a label of this length; `None` if it is not,
/// or there is none.
fn take_short(pieces: &mut Items<PathPiece>, length: usize) -> Option<PathPiece>
    ensures { MatchOption result (pieces.new ≡ pieces.old) (λ last. pieces.old ≡ pieces.new ++ last ∷ []) }
{
    match pieces.as_slice().last() {
        Some(last) if last.as_str().len().saturating_add(length) <= LONGEST => pieces.pop(),
        _ => None,
    }
}

/// The new last piece of a path, which ends with this label; it replaces the last one if that is
/// short.
#[tactic(auto, using(crate::proofs::Joined::to_last))]
fn ended_with(
    alloc: Global,
    pieces: &mut Items<PathPiece>,
    label: &str,
) -> Result<PathPiece, AllocError>
    ensures { IfOk result (λ p. concat pieces.new ++ p ≡ concat pieces.old ++ (label.now ++ codes ".")) }
{
    match take_short(pieces, label.len()) {
        Some(last) => PathPiece::new(alloc, last.as_str(), label),
        None => PathPiece::new(alloc, "", label),
    }
}

/// The pieces of a path with one more label.
#[tactic(auto, using(crate::proofs::Joined::one_more))]
fn more(alloc: Global, pieces: &[PathPiece], label: &str) -> Result<Items<PathPiece>, AllocError>
    ensures { IfOk result (λ r. concat r ≡ concat pieces.now ++ (label.now ++ codes ".")) }
{
    let mut pieces = copies(alloc, pieces)?;
    let last = ended_with(alloc, &mut pieces, label)?;
    pieces.push(last)?;
    Ok(pieces)
}

impl InstancePath {
    ghost use Rattle.std.specs.Prelude.{◌≡◌, ◌++◌, ◌∷◌, [], IfOk, codes};
    ghost use Rattle.std.specs.List.{concat};

    /// The path of the top, which is in no instance.
    pub fn top(alloc: Global) -> Result<InstancePath, AllocError>
        ensures { IfOk result (λ p. p ≡ []) }
    {
        let pieces = Arc::new(alloc, Items::new(alloc))?;
        Ok(InstancePath { pieces })
    }

    /// The path of the instance with this label in this one.
    pub fn below(&self, alloc: Global, label: &str) -> Result<InstancePath, AllocError>
        ensures { IfOk result (λ p. p ≡ self.now ++ (label.now ++ codes ".")) }
    {
        let pieces = more(alloc, self.pieces(), label)?;
        let pieces = Arc::new(alloc, pieces)?;
        Ok(InstancePath { pieces })
    }

    /// The same path, shared.
    pub fn try_copy(&self) -> Result<InstancePath, AllocError>
        ensures { IfOk result (λ p. p ≡ self.now) }
    {
        let pieces = Arc::try_clone(&self.pieces)?;
        Ok(InstancePath { pieces })
    }

    /// The pieces of its text, outermost label first.
    pub fn pieces(&self) -> &[PathPiece]
        ensures { concat result.now ≡ self.now }
    {
        self.pieces.as_slice()
    }
}
