use sim_containers::RowArray;
use std::alloc::{AllocError, Global};
use std::test::Fail;

/// This many lists of one number each.
fn numbers(alloc: Global, lists: usize) -> Result<RowArray<usize>, AllocError> {
    let mut rows = RowArray::new(alloc)?;
    for number in 0..lists {
        rows.push_row([number].as_slice())?;
    }
    Ok(rows)
}

/// A number of lists, the place at which they are split, and the numbers in front of it and behind it.
static SPLITS: [(usize, usize, &[usize], &[usize]); 5] = [
    (0, 0, &[], &[]),
    (1, 0, &[], &[0]),
    (1, 1, &[0], &[]),
    (5, 2, &[0, 1], &[2, 3, 4]),
    (5, 5, &[0, 1, 2, 3, 4], &[]),
];

/// Whether these lists have these numbers, one in each.
fn have(rows: &RowArray<usize>, numbers: &[usize]) -> bool {
    if rows.len() != numbers.len() || rows.flat() != numbers {
        return false;
    }
    for place in 0..rows.len() {
        if rows.row(place).first() != Some(&numbers[place]) {
            return false;
        }
    }
    true
}

/// Whether the lists of a row of the table are split like this.
fn are_split(alloc: Global, row: &(usize, usize, &[usize], &[usize])) -> Result<bool, AllocError> {
    let mut front = numbers(alloc, row.0)?;
    if row.1 > front.len() {
        return Ok(false);
    }
    let back = front.split_off(alloc, row.1)?;
    Ok(have(&front, row.2) && have(&back, row.3))
}

/// Whether this is true of each row of the table.
fn is_each_split(alloc: Global) -> Result<bool, AllocError> {
    for row in SPLITS.iter() {
        if !are_split(alloc, row)? {
            return Ok(false);
        }
    }
    Ok(true)
}

#[test]
fn lists_are_split(rt: HostRuntime) -> Result<(), Fail> {
    assert!(rt; is_each_split(rt.alloc())?);
    Ok(())
}
