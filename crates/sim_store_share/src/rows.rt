//! Items of flat lists, lent.

ghost use Rattle.std.specs.Prelude.{◌≡◌, ◌<◌, length, slice_index_or};
ghost use Rattle.std.specs.Borrow.{sem};
ghost use Rattle.sim_containers.specs.RowArray.{joined};
ghost use Rattle.sim_store_share.specs.Rows.{lends_item};

use sim_containers::RowArray;

/// The item with a number, counted through all lists, for writing.
#[inline(always)]
pub fn item_mut<T>(rows: &mut RowArray<T>, number: usize) -> &mut T
    requires { number < length (joined rows.old) }
    ensures* writes_back { sem 𝓛 (lends_item T.row rows.entry number result) }
    ensures value { result.now ≡ slice_index_or (joined rows.old) number result.now }
{
    &mut rows.flat[number]
}
