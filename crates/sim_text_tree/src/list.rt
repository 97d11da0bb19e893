//! Lists that are read one item at a time.

ghost use Rattle.std.specs.Prelude.{◌≡◌, ◌∷◌, [], IfOk};

use sqlite_items::Items;
use std::alloc::{AllocError, Global};
use std::marker::Model;

/// A list of at least one item.
#[derive(Drop)]
pub struct NonEmpty<T> {
    items: Vec<T>,
}

impl<T> Model for NonEmpty<T> {
    ghost use Rattle.std.specs.Prelude.{List, ◌≢◌, []};
    ghost use Rattle.std.specs.Coded.{coded_list};

    ghost Value = { List T };

    ghost coded = { coded_list T.code };

    ghost view = { λ s. s.items.items };

    ghost invariant = { λ s. s.items.items ≢ [] };
}

impl<T> NonEmpty<T> {
    ghost use Rattle.std.specs.Prelude.{◌≡◌, ◌≢◌, []};

    /// The items.
    pub fn as_slice(&self) -> &[T]
        ensures value { result.now ≡ self.now }
        ensures some { result.now ≢ [] }
    {
        self.items.as_slice()
    }
}

impl<T: Drop> NonEmpty<T> {
    ghost use Rattle.std.specs.Prelude.{◌≡◌, ◌∷◌, [], ◌++◌, IfOk, OnOk, OnErr};

    /// A list of one item, without spare capacity: most lists in a text have one item.
    pub fn new(alloc: Global, first: T) -> Result<NonEmpty<T>, AllocError>
        ensures { IfOk result (λ s. s ≡ first ∷ []) }
    {
        let items = one(alloc, first)?;
        Ok(NonEmpty { items })
    }

    /// Appends an item.
    pub fn push(&mut self, item: T) -> Result<(), AllocError>
        ensures ok { OnOk result (self.new ≡ self.old ++ item ∷ []) }
        ensures err { OnErr result (self.new ≡ self.old) }
    {
        self.items.push(item)?;
        Ok(())
    }

    /// The same list without spare capacity.
    pub fn fitted(self) -> NonEmpty<T>
        ensures { result ≡ self }
    {
        let mut fitted = self;
        fitted.items.shrink_to_fit();
        fitted
    }
}

/// A list of one item, without spare capacity.
pub fn one<T: Drop>(alloc: Global, item: T) -> Result<Vec<T>, AllocError>
    ensures { IfOk result (λ v. v.items ≡ item ∷ []) }
{
    let mut items = Vec::with_capacity(alloc, 1)?;
    items.push(item)?;
    Ok(items)
}

/// These items as a list of a tree, without spare capacity.
pub fn fitted<T>(items: Vec<T>) -> Items<T>
    ensures { result ≡ items.items }
{
    let mut fitted = items;
    fitted.shrink_to_fit();
    Items::from_vec(fitted)
}
