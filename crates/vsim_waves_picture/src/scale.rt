//! Places along the axis of time.

/// The width of the waves, in tenths of a pixel.
const WIDTH: u64 = 6_000;

/// The most lines of the grid.
const LINES: u64 = 6;

/// The units of time in femtoseconds, the longest first.
static UNITS: [(u64, &str); 6] = [
    (1_000_000_000_000_000, "s"),
    (1_000_000_000_000, "ms"),
    (1_000_000_000, "us"),
    (1_000_000, "ns"),
    (1_000, "ps"),
    (1, "fs"),
];

/// The times that are shown, and the place of the first, in tenths of a pixel.
#[derive(Clone, Copy)]
pub struct Scale {
    pub from: u64,
    pub to: u64,
    pub left: u64,
}

impl Scale {
    /// The place of a time, in tenths of a pixel.
    pub fn place(&self, time: u64) -> u64 {
        let span = u128::from(self.to.saturating_sub(self.from));
        let elapsed = u128::from(time.min(self.to).saturating_sub(self.from));
        let place = elapsed.saturating_mul(u128::from(WIDTH)).checked_div(span);
        let place = u64::try_from(place.unwrap_or(0)).unwrap_or(WIDTH);
        self.left.saturating_add(place)
    }

    /// The place of the end.
    pub fn right(&self) -> u64 {
        self.left.saturating_add(WIDTH)
    }

    /// The time between two lines of the grid: 1, 2 or 5 of a power of ten.
    pub fn step(&self) -> u64 {
        let span = self.to.saturating_sub(self.from);
        let mut step = 1u64;
        for turn in 0u64..57 {
            if span / step.max(1) <= LINES {
                break;
            }
            step = if turn % 3 == 1 {
                (step / 2).saturating_mul(5)
            } else {
                step.saturating_mul(2)
            };
        }
        step.max(1)
    }

    /// The first line of the grid, at or after the beginning.
    pub fn first_line(&self, step: u64) -> u64 {
        self.from.div_ceil(step.max(1)).saturating_mul(step)
    }
}

/// A time as a number and a unit, of which it is a whole number.
pub fn in_units(time: u64, step: u64) -> (u64, &'static str) {
    for (length, name) in UNITS.iter() {
        if *length > 0 && step % *length == 0 {
            return (time / *length, name);
        }
    }
    (time, "fs")
}
