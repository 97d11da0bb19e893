use sim_containers::{NumberList, NumberSet, RisingRows, RowArray};
use std::alloc::{AllocError, Global};
use std::test::Fail;

/// Numbers below ten, and whether a list takes them as its members at once: only if they rise.
static RISING: [(&[usize], bool); 7] = [
    (&[], true),
    (&[9], true),
    (&[10], false),
    (&[0, 3, 9], true),
    (&[3, 3], false),
    (&[4, 3], false),
    (&[3, 10], false),
];

/// The lists of the table, of which it is known which rise and are below a bound.
fn rising(alloc: Global, bound: usize) -> Result<RisingRows, AllocError> {
    let mut rows = RowArray::new(alloc)?;
    for row in RISING.iter() {
        rows.push_row(row.0)?;
    }
    RisingRows::of(alloc, rows, bound)
}

/// Whether the list takes exactly the numbers in the table that rise, and keeps its members else.
fn takes_rising_numbers(list: &mut NumberList, rows: &RisingRows) -> bool {
    for place in 0..RISING.len() {
        let row = &RISING[place];
        list.set_only(5);
        let taken = list.set_rising(rows, place);
        if taken != row.1 {
            return false;
        }
        let wanted: &[usize] = if taken { row.0 } else { &[5] };
        if list.numbers() != wanted || rows.row(place) != row.0 {
            return false;
        }
    }
    true
}

/// Where the search for a member of 0, 3 and 9 starts, and the next member; the next but 3.
static NEXT: [(usize, Option<usize>, Option<usize>); 5] = [
    (0, Some(0), Some(0)),
    (1, Some(3), Some(9)),
    (3, Some(3), Some(9)),
    (4, Some(9), Some(9)),
    (10, None, None),
];

/// Whether the search finds the next member from each place in the table, and a number is a member
/// if it is the next one from itself.
fn finds_each_next(list: &NumberList, three: &NumberSet) -> bool {
    for row in NEXT.iter() {
        if list.next(row.0) != row.1 || list.next_beside(three, row.0) != row.2 {
            return false;
        }
        if list.contains(row.0) != (row.1 == Some(row.0)) {
            return false;
        }
    }
    true
}

/// Makes these numbers, which are below the bound, the members of a set.
fn set_to(set: &mut NumberSet, numbers: &[usize]) {
    set.clear();
    for number in numbers {
        if *number < set.len() {
            set.insert(*number);
        }
    }
}

/// Gives the members of a set to a list, if both have one bound, and returns whether they have.
fn is_given(list: &mut NumberList, set: &NumberSet) -> bool {
    if list.len() != set.len() {
        return false;
    }
    list.set_from(set);
    true
}

/// Whether a list of the numbers below ten takes the rows of the table as it says, and no row there is
/// not.
fn is_set_by_rows(list: &mut NumberList, rows: &RisingRows) -> bool {
    takes_rising_numbers(list, rows)
        && !list.set_rising(rows, 7)
        && rows.row(7).is_empty()
        && rows.rows().len() == 7
}

/// Whether a list takes neither a row of rows with another bound, nor a number above its own.
fn takes_nothing_else(list: &mut NumberList, others: &RisingRows) -> bool {
    if list.set_rising(others, 1) {
        return false;
    }
    list.set_only(10);
    list.numbers().is_empty()
}

/// Whether this is true of a list that begins without members.
fn takes_what_rises(alloc: Global) -> Result<bool, AllocError> {
    let mut list = NumberList::new(alloc, 10)?;
    if list.len() != 10 || !list.numbers().is_empty() {
        return Ok(false);
    }
    let rows = rising(alloc, 10)?;
    let others = rising(alloc, 11)?;
    Ok(is_set_by_rows(&mut list, &rows) && takes_nothing_else(&mut list, &others))
}

#[test]
fn numbers_that_rise_are_taken_at_once(rt: HostRuntime) -> Result<(), Fail> {
    assert!(rt; takes_what_rises(rt.alloc())?);
    Ok(())
}

/// Whether a list has the members of a set once they are given to it.
fn has_members(list: &mut NumberList, set: &mut NumberSet) -> bool {
    set_to(set, &[9, 0, 3]);
    is_given(list, set) && list.numbers() == [0, 3, 9].as_slice()
}

/// Whether a list of 0, 3 and 9 finds each next member, and has none once it is cleared.
fn finds_members(list: &mut NumberList, set: &mut NumberSet) -> bool {
    set_to(set, &[3]);
    if !finds_each_next(list, set) {
        return false;
    }
    list.clear();
    list.next(0).is_none()
}

/// Whether this is true of a list and a set of the numbers below ten.
fn are_exchanged(alloc: Global) -> Result<bool, AllocError> {
    let mut list = NumberList::new(alloc, 10)?;
    let mut set = NumberSet::new(alloc, 10)?;
    Ok(has_members(&mut list, &mut set) && finds_members(&mut list, &mut set))
}

#[test]
fn a_list_has_the_members_of_a_set(rt: HostRuntime) -> Result<(), Fail> {
    assert!(rt; are_exchanged(rt.alloc())?);
    Ok(())
}
