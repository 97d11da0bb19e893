//! The values of nets from their drivers (IEEE 1076-2008, 14.7.3).

use sim_exec::NetView;
use sim_flat_design::{Net, Source};
use sim_logic::{Logic, resolve};
use sim_wave::Driver;
use std::alloc::Global;

/// The value of a source.
fn source_value(drivers: &[Driver], source: Source) -> Option<Logic> {
    match source {
        Source::Constant(value) => Some(value),
        Source::Driver(number) => match drivers.get(number) {
            Some(driver) => Some(driver.value()),
            None => None,
        },
    }
}

/// The resolved value of sources.
fn resolved(alloc: Global, drivers: &[Driver], sources: &[Source]) -> Option<Logic> {
    let mut values = Vec::new(alloc);
    for source in sources {
        let value = source_value(drivers, *source)?;
        values.push(value).ok()?;
    }
    Some(resolve(values.as_slice()))
}

/// The values of all nets.
pub fn values_of(alloc: Global, drivers: &[Driver], nets: &[Net]) -> Option<Vec<Logic>> {
    let mut values = Vec::new(alloc);
    for net in nets {
        let value = resolved(alloc, drivers, net.sources())?;
        values.push(value).ok()?;
    }
    Some(values)
}

/// The view of a net, from its value and the value before.
fn changed(value: Logic, before: Logic) -> NetView {
    NetView {
        value,
        event: value != before,
        before,
    }
}

/// The views of nets, from their values and the values before.
pub fn views_of(alloc: Global, values: &[Logic], values_before: &[Logic]) -> Option<Vec<NetView>> {
    let mut views = Vec::new(alloc);
    for (value, before) in values.iter().zip(values_before) {
        views.push(changed(*value, *before)).ok()?;
    }
    Some(views)
}

/// The values of nets.
pub fn values_in(alloc: Global, views: &[NetView]) -> Option<Vec<Logic>> {
    let mut values = Vec::new(alloc);
    for view in views {
        values.push(view.value).ok()?;
    }
    Some(values)
}
