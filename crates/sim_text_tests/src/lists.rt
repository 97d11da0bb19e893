//! Lists that are read one item at a time.

use sim_text_tree::list::{NonEmpty, fitted, one};
use std::test::Fail;

#[test]
fn lists_of_one_item_or_more_keep_their_order(rt: HostRuntime) -> Result<(), Fail> {
    let mut several = NonEmpty::new(rt.alloc(), 3u8)?;
    for item in [1u8, 2, 1, 5] {
        several.push(item)?;
    }
    assert_eq!(rt; several.fitted().as_slice(), [3u8, 1, 2, 1, 5].as_slice());
    Ok(())
}

#[test]
fn lists_that_begin_with_one_item_keep_their_order(rt: HostRuntime) -> Result<(), Fail> {
    let mut list = one(rt.alloc(), 3u8)?;
    for item in [1u8, 2, 1, 5] {
        list.push(item)?;
    }
    assert_eq!(rt; fitted(list).as_slice(), [3u8, 1, 2, 1, 5].as_slice());
    Ok(())
}
