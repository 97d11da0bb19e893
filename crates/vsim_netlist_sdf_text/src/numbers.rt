//! Numbers and time scales.

/// A number as it is written: its digits as an integer, and the power of ten by which they are
/// multiplied.
#[derive(Clone, Copy)]
struct Decimal {
    digits: u64,
    power: i64,
}

/// Digits are dropped after this many.
const MOST_DIGITS: u64 = 100_000_000_000_000_000;

/// The largest exponent that is read.
const LARGEST_EXPONENT: i64 = 1_000;

/// The longest delay, in femtoseconds: a fourth of the latest time of vsim.
const LONGEST: u64 = 1_152_921_504_606_846_975;

/// The units of times, each with its power of ten in femtoseconds.
static UNITS: [(&str, i64); 6] = [
    ("fs", 0),
    ("ps", 3),
    ("ns", 6),
    ("us", 9),
    ("ms", 12),
    ("s", 15),
];

/// The numbers of a time scale, each with its power of ten.
static SCALES: [(&str, i64); 6] = [
    ("1", 0),
    ("1.0", 0),
    ("10", 1),
    ("10.0", 1),
    ("100", 2),
    ("100.0", 2),
];

impl Decimal {
    /// The number with one more digit before or after its point.
    fn with(self, digit: u8, is_fraction: bool) -> Decimal {
        let is_full = MOST_DIGITS <= self.digits;
        let digits = if is_full {
            self.digits
        } else {
            self.digits
                .saturating_mul(10)
                .saturating_add(u64::from(digit))
        };
        let power = match (is_full, is_fraction) {
            (true, false) => self.power.saturating_add(1),
            (false, true) => self.power.saturating_sub(1),
            _ => self.power,
        };
        Decimal { digits, power }
    }

    /// The number with more digits before or after its point; `None` if the text has other signs.
    fn with_all(self, text: &str, is_fraction: bool) -> Option<Decimal> {
        let mut number = self;
        for byte in text.as_bytes() {
            match *byte {
                b'0'..=b'9' => number = number.with(byte.saturating_sub(b'0'), is_fraction),
                _ => return None,
            }
        }
        Some(number)
    }
}

/// The value of the digits of an exponent.
fn exponent_digits(text: &str) -> Option<i64> {
    let mut value = 0i64;
    for byte in text.as_bytes() {
        match *byte {
            b'0'..=b'9' => {
                let digit = i64::from(byte.saturating_sub(b'0'));
                value = value
                    .saturating_mul(10)
                    .saturating_add(digit)
                    .min(LARGEST_EXPONENT);
            }
            _ => return None,
        }
    }
    Some(value)
}

/// Whether a text begins with a minus, and the rest after a sign.
fn after_sign(text: &str) -> (bool, &str) {
    if let Some(rest) = text.strip_prefix('-') {
        return (true, rest);
    }
    (false, text.strip_prefix('+').unwrap_or(text))
}

/// The value of an exponent.
fn exponent(text: &str) -> Option<i64> {
    let (is_negative, digits) = after_sign(text);
    if digits.is_empty() {
        return None;
    }
    let value = exponent_digits(digits)?;
    Some(if is_negative {
        0i64.saturating_sub(value)
    } else {
        value
    })
}

/// The number of a text with neither a sign nor an exponent.
fn unsigned(text: &str) -> Option<Decimal> {
    let (whole, fraction) = text.split_once('.').unwrap_or((text, ""));
    if whole.is_empty() && fraction.is_empty() {
        return None;
    }
    let number = Decimal {
        digits: 0,
        power: 0,
    };
    number.with_all(whole, false)?.with_all(fraction, true)
}

/// The number of a text without a sign.
fn read_decimal(text: &str) -> Option<Decimal> {
    match text.split_once('e').or(text.split_once('E')) {
        Some((number, power)) => {
            let number = unsigned(number)?;
            let power = number.power.saturating_add(exponent(power)?);
            Some(Decimal { power, ..number })
        }
        None => unsigned(text),
    }
}

/// A number times a power of ten.
fn raised(number: u64, power: i64) -> u64 {
    let mut number = number;
    for _ in 0..power.min(20) {
        number = number.saturating_mul(10);
    }
    number
}

/// A number by a power of ten, rounded.
fn lowered(number: u64, power: i64) -> u64 {
    let mut number = number;
    for _ in 1..power.min(20) {
        number /= 10;
    }
    number.saturating_add(5) / 10
}

/// The femtoseconds of a number whose unit is a power of ten of them.
fn femtoseconds(number: Decimal, scale: i64) -> u64 {
    let power = number.power.saturating_add(scale);
    if power < 0 {
        lowered(number.digits, 0i64.saturating_sub(power))
    } else {
        raised(number.digits, power)
    }
}

/// What a text says of a time.
#[derive(Clone, Copy, PartialEq, Eq)]
pub enum Number {
    /// Femtoseconds.
    Time(i64),
    TooLong,
    None,
}

/// The time of a number, with its sign, whose unit is this power of ten of femtoseconds.
pub fn time_of(text: &str, scale: i64) -> Number {
    let (is_negative, digits) = after_sign(text);
    let Some(number) = read_decimal(digits) else {
        return Number::None;
    };
    let time = femtoseconds(number, scale);
    if LONGEST < time {
        return Number::TooLong;
    }
    let time = i64::try_from(time).unwrap_or(0);
    Number::Time(if is_negative {
        0i64.saturating_sub(time)
    } else {
        time
    })
}

/// The power of ten of a word in a table.
fn power_in(table: &[(&str, i64)], word: &str) -> Option<i64> {
    for (known, power) in table {
        if *known == word {
            return Some(*power);
        }
    }
    None
}

/// The power of ten of a time scale, as `100 ps`, in femtoseconds.
pub fn scale_of(text: &str) -> Option<i64> {
    let number = text.trim_end_matches(char::is_alphabetic);
    let unit = text.strip_prefix(number)?;
    let power = power_in(&SCALES, number.trim())?;
    Some(power.saturating_add(power_in(&UNITS, unit)?))
}
