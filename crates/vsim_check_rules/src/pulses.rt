//! The widths of pulses.

use crate::conditions::Conditions;
use crate::violations::{Demand, Violation, too_short};
use crate::windows::Present;
use std::alloc::AllocError;
use vsim_netlist_design::Width;

/// A demand on the width of pulses, and when the present pulse began.
///
/// A pulse violates it if the time from its edge to the next opposite one is less than the limit
/// (IEEE 1364, 15.3.4). Where a pulse begins or ends by unknown values, the shortest one counts.
#[derive(Clone, Copy)]
pub(crate) struct Pulse {
    /// The index of the check.
    check: usize,
    width: Width,
    begun: Option<u64>,
}

impl Pulse {
    /// No pulse has begun.
    pub(crate) fn new(check: usize, width: Width) -> Pulse {
        Pulse {
            check,
            width,
            begun: None,
        }
    }

    /// Takes the edge that begins a pulse.
    pub(crate) fn begin(
        &mut self,
        present: Present<'_>,
        conditions: &mut Conditions,
    ) -> Result<(), AllocError> {
        if conditions.admits(present.signals, self.width.event.guard)? {
            self.begun = Some(present.now);
        }
        Ok(())
    }

    /// Takes the edge that ends a pulse.
    pub(crate) fn end(&mut self, now: u64) -> Option<Violation> {
        let begun = self.begun.take()?;
        let (needed, found) = too_short(self.width.limit, begun, now)?;
        Some(Violation {
            check: self.check,
            demand: Demand::Width,
            needed,
            found,
        })
    }
}
