//! Times: a number and its unit.

/// The latest time of a simulation, in femtoseconds.
pub const LATEST: u64 = 4_611_686_018_427_387_903;

/// A unit in femtoseconds.
fn femtoseconds(unit: &str) -> Option<u64> {
    Some(match unit {
        "fs" => 1,
        "ps" => 1_000,
        "ns" => 1_000_000,
        "us" => 1_000_000_000,
        "ms" => 1_000_000_000_000,
        "s" | "sec" => 1_000_000_000_000_000,
        _ => return None,
    })
}

/// A number with its unit, in femtoseconds.
pub(crate) fn in_femtoseconds(number: &str, unit: &str) -> Option<u64> {
    let number = number.parse::<u64>().ok()?;
    number.checked_mul(femtoseconds(unit)?)
}

/// Reads a time, as `40ps`, in femtoseconds: a whole number with its unit, or 0.
pub fn read_time(text: &str) -> Option<u64> {
    let (number, unit) = number_and_unit(text);
    let unit = if unit.is_empty() && number.parse::<u64>() == Ok(0) {
        "fs"
    } else {
        unit
    };
    match in_femtoseconds(number, unit) {
        Some(time) if time <= LATEST => Some(time),
        _ => None,
    }
}

/// The number of digits at the start of a text.
fn count_digits(text: &[u8]) -> usize {
    for (place, byte) in text.iter().enumerate() {
        if !byte.is_ascii_digit() {
            return place;
        }
    }
    text.len()
}

/// The digits at the start of a text, and the rest.
pub(crate) fn number_and_unit(text: &str) -> (&str, &str) {
    let at = count_digits(text.as_bytes());
    match (text.get(..at), text.get(at..)) {
        (Some(number), Some(unit)) => (number, unit),
        _ => (text, ""),
    }
}
