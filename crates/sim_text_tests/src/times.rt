//! Times of literals.

use sim_logic::Unit;
use sim_text_tree::time::TimeLiteral;
use sqlite_items::Items;
use std::alloc::{AllocError, Global};
use std::test::Fail;

/// The time of this number of units in femtoseconds.
fn femtoseconds(alloc: Global, digits: &str, unit: Unit) -> Result<Option<u64>, AllocError> {
    let written = Items::from_slice(alloc, digits.as_bytes())?;
    match TimeLiteral::of(written, 0, unit) {
        Some(literal) => Ok(Some(literal.time().fs())),
        None => Ok(None),
    }
}

static TIMES: [(&str, Unit, Option<u64>); 19] = [
    ("0", Unit::Hr, Some(0)),
    (
        "4611686018427387903",
        Unit::Fs,
        Some(4_611_686_018_427_387_903),
    ),
    ("4611686018427387904", Unit::Fs, None),
    (
        "4611686018427387",
        Unit::Ps,
        Some(4_611_686_018_427_387_000),
    ),
    ("4611686018427388", Unit::Ps, None),
    ("4611686018427", Unit::Ns, Some(4_611_686_018_427_000_000)),
    ("4611686018428", Unit::Ns, None),
    ("4611686018", Unit::Us, Some(4_611_686_018_000_000_000)),
    ("4611686019", Unit::Us, None),
    ("4611686", Unit::Ms, Some(4_611_686_000_000_000_000)),
    ("4611687", Unit::Ms, None),
    ("4611", Unit::Sec, Some(4_611_000_000_000_000_000)),
    ("4612", Unit::Sec, None),
    ("76", Unit::Min, Some(4_560_000_000_000_000_000)),
    ("77", Unit::Min, None),
    ("1", Unit::Hr, Some(3_600_000_000_000_000_000)),
    ("2", Unit::Hr, None),
    ("18446744073709551617", Unit::Fs, None),
    (
        "000000000000000000000000000000000000000012",
        Unit::Ps,
        Some(12_000),
    ),
];

#[test]
fn times_are_exact_up_to_the_largest(rt: HostRuntime) -> Result<(), Fail> {
    for row in TIMES.iter() {
        let found = femtoseconds(rt.alloc(), row.0, row.1)?;
        assert_eq!(rt; found, row.2, "{} {:?}", row.0, row.1);
    }
    Ok(())
}
