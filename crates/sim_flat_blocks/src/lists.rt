//! Lists whose items are made one after another.

ghost use Rattle.std.specs.Prelude.{◌≡◌, ◌∷◌, [], ◌++◌, Ok, OnOk};

use std::alloc::AllocError;

/// Appends the item that was made.
pub fn push<T: Drop>(found: &mut Vec<T>, made: Result<T, AllocError>) -> Result<(), AllocError>
    ensures { OnOk result ((next : T) × (made ≡ Ok next) × (found.new.items ≡ found.old.items ++ next ∷ [])) }
{
    let next = made?;
    found.push(next)?;
    Ok(())
}
