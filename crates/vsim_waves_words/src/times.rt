//! Times: a number and its unit.

/// A unit in femtoseconds.
fn femtoseconds(unit: &[u8]) -> Option<u64> {
    Some(match unit {
        b"" | b"fs" => 1,
        b"ps" => 1_000,
        b"ns" => 1_000_000,
        b"us" => 1_000_000_000,
        b"ms" => 1_000_000_000_000,
        b"s" | b"sec" => 1_000_000_000_000_000,
        _ => return None,
    })
}

/// The number of digits at the start of a text.
fn count_digits(text: &[u8]) -> usize {
    text.iter().take_while(|byte| byte.is_ascii_digit()).count()
}

/// A whole number.
pub fn read_number(text: &[u8]) -> Option<u64> {
    if text.is_empty() {
        return None;
    }
    let mut value = 0u64;
    for byte in text {
        let digit = byte.wrapping_sub(b'0');
        if digit > 9 {
            return None;
        }
        value = value.checked_mul(10)?.checked_add(u64::from(digit))?;
    }
    Some(value)
}

/// A time in femtoseconds, as `10ns`; the unit may be given apart, and without one it is `fs`.
pub fn read_time(text: &[u8], apart: &[u8]) -> Option<u64> {
    let at = count_digits(text);
    let (number, unit) = (text.get(..at).unwrap_or(&[]), text.get(at..).unwrap_or(&[]));
    let unit = if unit.is_empty() { apart } else { unit };
    read_number(number)?.checked_mul(femtoseconds(unit)?)
}
