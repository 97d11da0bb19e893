//! The processes of a single share are divided among several.

ghost use Rattle.std.specs.Prelude.{◌≡◌, IfOk};
ghost use Rattle.sim_containers.specs.RowArray.{joined};
ghost use Rattle.sim_store_state.specs.FlatState.{AreShares, counts};

use sim_store_share::Share;
use std::alloc::{AllocError, Global};

/// The shares of these processes: at most `parts`, if they were in one.
pub fn divided(alloc: Global, shares: Vec<Share>, parts: usize) -> Result<Vec<Share>, AllocError>
    requires { AreShares (counts shares.items) }
    ensures shared { IfOk result (λ v. AreShares (counts v.items)) }
    ensures same { IfOk result (λ v. joined v.items ≡ joined shares.items) }
{
    if shares.len() != 1 {
        return Ok(shares);
    }
    let mut shares = shares;
    match shares.pop() {
        None => Ok(shares),
        Some(only) => {
            let each = only.len().saturating_sub(1) / parts.max(1) + 1;
            only.divide(alloc, each)
        }
    }
}
