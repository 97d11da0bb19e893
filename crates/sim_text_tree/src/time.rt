//! Time literals (IEEE 1076-2008, 5.2.4).

ghost use Rattle.std.specs.Prelude.{◌≤◌};
ghost use Rattle.std.specs.Option.{SomeIff};
ghost use Rattle.sim_logic.specs.Time.{largest_time};
ghost use Rattle.sim_text_tree.specs.Times.{time_of};

use sim_logic::{Time, Unit};
use sqlite_items::Items;
use std::marker::Model;

/// A time as it is written: the digits of its number, the offset of the number, and its unit. It is
/// at most the largest time.
#[derive(Drop)]
pub struct TimeLiteral {
    digits: Items<u8>,
    at: usize,
    unit: Unit,
    time: Time,
}

impl Model for TimeLiteral {
    ghost use Rattle.std.specs.Prelude.{◌≡◌, ◌≤◌};
    ghost use Rattle.sim_logic.specs.Time.{largest_time};
    ghost use Rattle.sim_text_tree.specs.Times.{TimeLiteral, time_of};

    ghost Value = { TimeLiteral };

    ghost view = { λ t. record { digits = t.digits; at = t.at; unit = t.unit } };

    ghost invariant = { λ t. (t.time ≡ time_of t.digits t.unit) × (time_of t.digits t.unit ≤ largest_time) };
}

/// The time that the digits and the unit denote; `None` exactly if it is larger than the largest.
fn written_time(digits: &[u8], unit: Unit) -> Option<Time>
    ensures { SomeIff result (time_of digits.now unit ≤ largest_time) (time_of digits.now unit) }
{
    let mut count: u64 = 0;
    for digit in digits {
        if count > sim_logic::LATEST / 10 {
            return None;
        }
        count = 10 * count + u64::from(digit.saturating_sub(48));
    }
    Time::of(count, unit)
}

impl TimeLiteral {
    ghost use Rattle.std.specs.Prelude.{◌≡◌, ◌≤◌};
    ghost use Rattle.std.specs.Option.{SomeIff};
    ghost use Rattle.sim_logic.specs.Time.{largest_time};
    ghost use Rattle.sim_text_tree.specs.Times.{time_of};

    /// The time with these digits, which start at this offset, and this unit; `None` exactly if it
    /// is larger than the largest time.
    pub fn of(digits: Items<u8>, at: usize, unit: Unit) -> Option<TimeLiteral>
        ensures { SomeIff result (time_of digits unit ≤ largest_time) (record { digits = digits; at = at; unit = unit }) }
    {
        let time = written_time(digits.as_slice(), unit)?;
        Some(TimeLiteral {
            digits,
            at,
            unit,
            time,
        })
    }

    /// The digits of its number, leading zeros included.
    pub fn digits(&self) -> &[u8]
        ensures { result.now ≡ self.now.digits }
    {
        self.digits.as_slice()
    }

    /// The offset of its number.
    pub fn at(&self) -> usize
        ensures { result ≡ self.now.at }
    {
        self.at
    }

    /// Its unit.
    pub fn unit(&self) -> Unit
        ensures { result ≡ self.now.unit }
    {
        self.unit
    }

    /// Its value, in femtoseconds.
    pub fn time(&self) -> Time
        ensures value { result ≡ time_of self.now.digits self.now.unit }
        ensures bound { result ≤ largest_time }
    {
        self.time
    }
}
