//! Names in pieces.

ghost use Rattle.std.specs.Prelude.{◌≡◌, ◌++◌, ℕ, List, string_bytes};
ghost use Rattle.std.specs.List.{concat};

use sim_flat_design::{Net, PathPiece};

/// A name in pieces: the nets of an instance share the pieces before their simple names.
pub trait Named {
    /// The name.
    ghost name_of: { Self → List ℕ };

    /// The pieces of the path, and the simple name.
    fn name_pieces(&self) -> (&[PathPiece], &[u8])
        ensures { concat result.0.now ++ result.1.now ≡ name_of self.now };
}

impl Named for String {
    ghost name_of = { λ name. string_bytes name };

    fn name_pieces(&self) -> (&[PathPiece], &[u8]) {
        (&[], self.as_str().as_bytes())
    }
}

impl Named for Net {
    ghost name_of = { λ net. net.name };

    fn name_pieces(&self) -> (&[PathPiece], &[u8]) {
        let (path, simple_name) = self.name_pieces();
        (path, simple_name.as_bytes())
    }
}
