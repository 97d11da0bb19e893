//! Times in femtoseconds.

ghost use Rattle.std.specs.Prelude.{◌≡◌, ◌≤◌, ◌*◌};
ghost use Rattle.std.specs.Option.{SomeIff};
ghost use Rattle.sim_logic.specs.Time.{femtoseconds_in, largest_time};

use std::marker::Model;

/// The greatest time in femtoseconds, 2^62 - 1: the sum of two times fits in a `u64`.
pub const LATEST: u64 = 4_611_686_018_427_387_903;

/// A unit of time (IEEE 1076-2008, 5.2.4.2).
#[derive(Clone, Copy, Debug, PartialEq, Eq, Hash)]
pub enum Unit {
    Fs,
    Ps,
    Ns,
    Us,
    Ms,
    Sec,
    Min,
    Hr,
}

impl Unit {
    /// The number of femtoseconds in the unit.
    pub fn femtoseconds(self) -> u64
        ensures { result ≡ femtoseconds_in self }
    {
        match self {
            Unit::Fs => 1,
            Unit::Ps => 1_000,
            Unit::Ns => 1_000_000,
            Unit::Us => 1_000_000_000,
            Unit::Ms => 1_000_000_000_000,
            Unit::Sec => 1_000_000_000_000_000,
            Unit::Min => 60_000_000_000_000_000,
            Unit::Hr => 3_600_000_000_000_000_000,
        }
    }
}

/// A time of at most `LATEST`; in contracts, its number of femtoseconds.
#[derive(Clone, Copy, Debug, PartialEq, Eq, PartialOrd, Ord, Hash)]
pub struct Time {
    fs: u64,
}

impl Model for Time {
    ghost use Rattle.std.specs.Prelude.{ℕ, ◌≤◌};
    ghost use Rattle.sim_logic.specs.Time.{largest_time};

    ghost Value = { ℕ };

    ghost view = { λ time. time.fs };

    ghost invariant = { λ time. time.fs ≤ largest_time };

    ghost inverse = { λ fs. record { fs = fs } };
}

impl Time {
    /// The time of `count` units; `None` exactly if it is more than `LATEST`.
    pub fn of(count: u64, unit: Unit) -> Option<Time>
        ensures { let fs = count * femtoseconds_in unit in SomeIff result (fs ≤ largest_time) fs }
    {
        let fs = count.checked_mul(unit.femtoseconds())?;
        if fs > LATEST {
            return None;
        }
        Some(Time { fs })
    }

    /// The time in femtoseconds.
    pub fn fs(&self) -> u64
        ensures value { result ≡ self.now }
        ensures bound { result ≤ largest_time }
    {
        self.fs
    }
}
