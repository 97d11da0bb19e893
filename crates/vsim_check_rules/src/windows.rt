//! Windows around reference events, in which no data event may be.

use crate::conditions::Conditions;
use crate::signals::Signals;
use crate::stamps::Stamps;
use crate::violations::{Demand, Violation, too_short};
use std::alloc::{AllocError, Global};
use vsim_netlist_design::Window;

/// A window, with the events that have been.
///
/// A data event at `d` violates a window around `r` if `r - before < d < r + after`; where `before`
/// is not above 0, also at `d = r - before`. So IEEE 1364 has it for a setup (neither end of the
/// window violates), a hold (its beginning does) and both together (15.2.1 to 15.2.3), and for
/// removal and recovery (15.2.4 to 15.2.6). A negative length moves an end past the reference, as
/// the delayed signals of 15.8 do.
#[derive(Drop)]
pub(crate) struct Watch {
    /// The index of the check.
    check: usize,
    window: Window,
    references: Stamps,
    data: Stamps,
}

/// How far an event has to lie back, if the limit at that side is negative.
fn age_of(limit: i64) -> u64 {
    u64::try_from(limit.saturating_neg()).unwrap_or(0)
}

/// The present time in femtoseconds, and the signals with their levels at that time.
#[derive(Clone, Copy)]
pub(crate) struct Present<'a> {
    pub(crate) now: u64,
    pub(crate) signals: &'a Signals,
}

impl Watch {
    /// A window without events.
    pub(crate) fn new(alloc: Global, check: usize, window: Window) -> Watch {
        Watch {
            check,
            window,
            references: Stamps::new(alloc, age_of(window.before)),
            data: Stamps::new(alloc, age_of(window.after)),
        }
    }

    /// A violation of this window.
    fn violation(&self, demand: Demand, times: Option<(u64, u64)>) -> Option<Violation> {
        let (needed, found) = times?;
        Some(Violation {
            check: self.check,
            demand,
            needed,
            found,
        })
    }

    /// The time from the last data event before the present time, if it is too short.
    fn short_before(&mut self, now: u64) -> Option<Violation> {
        let last = self.data.last(now.saturating_sub(1))?;
        self.violation(Demand::Before, too_short(self.window.before, last, now))
    }

    /// The time from the last reference event, if it is too short.
    fn short_after(&mut self, now: u64) -> Option<Violation> {
        let last = self.references.last(now)?;
        self.violation(Demand::After, too_short(self.window.after, last, now))
    }

    /// The violation that ends at the present time, if the second event counts.
    fn checked(
        &self,
        present: Present<'_>,
        conditions: &mut Conditions,
        violation: Option<Violation>,
    ) -> Result<Option<Violation>, AllocError> {
        if violation.is_none() || conditions.admits(present.signals, self.window.check)? {
            return Ok(violation);
        }
        Ok(None)
    }

    /// Takes a reference event. No data event of the present time was taken.
    pub(crate) fn take_reference(
        &mut self,
        present: Present<'_>,
        conditions: &mut Conditions,
    ) -> Result<Option<Violation>, AllocError> {
        if !conditions.admits(present.signals, self.window.reference.guard)? {
            return Ok(None);
        }
        let violation = self.short_before(present.now);
        if conditions.admits(present.signals, self.window.stamp)? {
            self.references.note(present.now)?;
        }
        self.checked(present, conditions, violation)
    }

    /// Takes a data event. All reference events of the present time were taken.
    pub(crate) fn take_data(
        &mut self,
        present: Present<'_>,
        conditions: &mut Conditions,
    ) -> Result<Option<Violation>, AllocError> {
        if !conditions.admits(present.signals, self.window.data.guard)? {
            return Ok(None);
        }
        let violation = self.short_after(present.now);
        if conditions.admits(present.signals, self.window.stamp)? {
            self.data.note(present.now)?;
        }
        self.checked(present, conditions, violation)
    }
}
