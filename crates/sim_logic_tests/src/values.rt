use sim_logic::{LATEST, Logic, Time, Unit, resolve};

/// A number of units in femtoseconds; `None` above the latest time.
fn femtoseconds(count: u64, unit: Unit) -> Option<u64> {
    Time::of(count, unit).map(|time| time.fs())
}

/// Whether characters name values, and values have characters.
fn are_named() -> bool {
    matches!(Logic::from_byte(b'-'), Some(Logic::Dash))
        && Logic::from_byte(b'z').is_none()
        && Logic::H.to_byte() == b'H'
}

#[test]
fn characters_name_values(rt: HostRuntime) {
    assert!(rt; are_named());
}

/// The default value, results of operators on weak values, and resolved values, each with the
/// expected value.
fn values() -> [(Logic, Logic); 8] {
    [
        (Logic::default(), Logic::U),
        (Logic::L.and(Logic::U), Logic::Zero),
        (Logic::H.or(Logic::U), Logic::One),
        (Logic::H.xor(Logic::One), Logic::Zero),
        (Logic::Z.not(), Logic::X),
        (resolve(&[Logic::Dash]), Logic::Dash),
        (resolve(&[Logic::Dash, Logic::Z]), Logic::X),
        (resolve(&[Logic::L, Logic::H]), Logic::W),
    ]
}

/// The index of the first value that is not the expected one.
fn first_other() -> Option<usize> {
    for (place, row) in values().iter().enumerate() {
        if row.0 != row.1 {
            return Some(place);
        }
    }
    None
}

#[test]
fn operators_look_through_weak_values_and_drivers_are_resolved(rt: HostRuntime) {
    assert_eq!(rt; first_other(), None);
}

/// Whether edges are detected between a zero and a one, strong or weak, and only there.
fn are_edges() -> bool {
    Logic::rises(Logic::L, Logic::H)
        && !Logic::rises(Logic::X, Logic::One)
        && Logic::falls(Logic::One, Logic::Zero)
}

#[test]
fn edges_are_between_zero_and_one(rt: HostRuntime) {
    assert!(rt; are_edges());
}

/// Numbers of units, in femtoseconds.
static TIMES: [(u64, Unit, Option<u64>); 4] = [
    (1, Unit::Hr, Some(3_600_000_000_000_000_000)),
    (2, Unit::Hr, None),
    (LATEST, Unit::Fs, Some(4_611_686_018_427_387_903)),
    (LATEST + 1, Unit::Fs, None),
];

/// The index of the first row with another time.
fn first_other_time() -> Option<usize> {
    for (place, row) in TIMES.iter().enumerate() {
        if femtoseconds(row.0, row.1) != row.2 {
            return Some(place);
        }
    }
    None
}

#[test]
fn times_are_exact_up_to_the_latest_and_then_none(rt: HostRuntime) {
    assert_eq!(rt; first_other_time(), None);
}
