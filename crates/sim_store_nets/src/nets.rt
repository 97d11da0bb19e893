//! The values of nets (IEEE 1076-2008, 14.7.3), and how processes see them.

ghost use Rattle.std.specs.Prelude.{[], ◌≡◌, ◌<◌, length, map, fold, slice_index_or, ◌↔◌, IsTrue, IfOk};
ghost use Rattle.sim_logic.specs.declared.logic.Logic as logic;
ghost use Rattle.sim_logic.specs.Tables.{resolution_table};
ghost use Rattle.sim_standard.specs.State.{net_at};
ghost use Rattle.sim_store_nets.specs.Nets.{AreTouched, row_from, value_at, value_from, views_of};
ghost use Rattle.sim_store_nets.specs.Nets as spec;

use crate::tallies::Tallies;
use sim_containers::NumberList;
use sim_exec_statements::{NetView, Nets};
use sim_flat_design::{Process, Source};
use sim_logic::{Logic, resolve_two};
use std::alloc::{AllocError, Global};

/// The least number of sources of a net that has many. With fewer, looking at each is as fast.
pub const MANY: usize = 16;

/// The value of the driver with a number.
fn driver_value(driving: &[Logic], number: usize) -> Logic
    ensures { result ≡ value_at driving.now number }
{
    match driving.get(number) {
        Some(value) => *value,
        None => Logic::U,
    }
}

/// The value of a source.
pub fn source_value(source: Source, driving: &[Logic]) -> Logic
    ensures { result ≡ value_from driving.now source }
{
    match source {
        Source::Driver(number) => driver_value(driving, number),
        Source::Constant(value) => value,
    }
}

/// The values of the sources, resolved from left to right.
fn merged(sources: &[Source], driving: &[Logic]) -> Logic
    ensures { result ≡ fold resolution_table logic.Logic.Z (map (value_from driving.now) sources.now) }
{
    let mut value = Logic::Z;
    for source in sources {
        value = resolve_two(value, source_value(*source, driving));
    }
    value
}

/// The value of a net with these sources (14.7.3.2, 14.7.3.3). It looks at values of drivers, not
/// at drivers.
pub fn net_value(sources: &[Source], driving: &[Logic]) -> Logic
    ensures { result ≡ row_from driving.now sources.now }
{
    match sources {
        [only] => source_value(*only, driving),
        sources => merged(sources, driving),
    }
}

/// The value of the net with a number, which has these sources. If they are many and their values
/// kept, it looks at the counts of these alone.
fn several_value(tallies: &Tallies, net: usize, sources: &[Source], driving: &[Logic]) -> Logic
    requires { 0 < length (slice_index_or tallies.now.rows net []) → slice_index_or tallies.now.rows net [] ≡ map (value_from driving.now) sources.now }
    ensures { result ≡ row_from driving.now sources.now }
{
    if sources.len() < MANY {
        return net_value(sources, driving);
    }
    match tallies.resolved(net) {
        Some(value) => value,
        None => net_value(sources, driving),
    }
}

/// The same; a net of one source costs no more than a look at it.
#[inline(always)]
pub(crate) fn resolved_value(
    tallies: &Tallies,
    net: usize,
    sources: &[Source],
    driving: &[Logic],
) -> Logic
    requires { 0 < length (slice_index_or tallies.now.rows net []) → slice_index_or tallies.now.rows net [] ≡ map (value_from driving.now) sources.now }
    ensures { result ≡ row_from driving.now sources.now }
{
    match sources {
        [only] => source_value(*only, driving),
        sources => several_value(tallies, net, sources, driving),
    }
}

/// The values before the cycle of touched nets become their values; those of other nets are already
/// equal. A single touched net, which is the usual case, costs no loop.
pub fn end_events(values_before: &mut [Logic], values: &[Logic], touched: &NumberList)
    requires sized { length values_before.old ≡ length values.now }
    requires touched { AreTouched values.now values_before.old touched.now }
    ensures { values_before.new ≡ values.now }
{
    let nets = touched.numbers();
    if nets.len() == 1 {
        let only = nets[0];
        values_before[only] = values[only];
        return;
    }
    for place in 0..nets.len() {
        let net = nets[place];
        values_before[net] = values[net];
    }
}

/// A net with this value, and this value before the cycle.
fn changed_to(value: Logic, before: Logic) -> NetView
    ensures { result ≡ spec.changed_to value before }
{
    NetView {
        value,
        event: before != value,
        before,
    }
}

/// The view of the net with a number.
fn view_at(values: &[Logic], values_before: &[Logic], number: usize) -> NetView
    ensures { result ≡ net_at (views_of values.now values_before.now) number }
{
    if number >= values.len() || number >= values_before.len() {
        return NetView {
            value: Logic::U,
            event: false,
            before: Logic::U,
        };
    }
    changed_to(values[number], values_before[number])
}

/// The views of the nets with these numbers.
pub fn views_at(
    alloc: Global,
    values: &[Logic],
    values_before: &[Logic],
    numbers: &[usize],
) -> Result<Vec<NetView>, AllocError>
    ensures { IfOk result (λ v. v.items ≡ map (net_at (views_of values.now values_before.now)) numbers.now) }
{
    numbers
        .iter()
        .map(|number| view_at(values, values_before, *number))
        .collect(alloc)
}

/// The views of the nets with these numbers, by place.
#[derive(Clone, Copy)]
pub struct Seen<'a> {
    pub object_nets: &'a [usize],
    pub values: &'a [Logic],
    pub values_before: &'a [Logic],
}

/// The views that a process has of its ports and signals.
#[derive(Clone, Copy)]
pub struct SeenBy<'a> {
    pub process: &'a Process,
    pub values: &'a [Logic],
    pub values_before: &'a [Logic],
}

/// The views of nets, by number.
#[derive(Clone, Copy)]
pub struct ByNumber<'a> {
    pub values: &'a [Logic],
    pub values_before: &'a [Logic],
}

impl<'a> Nets for ByNumber<'a> {
    ghost look = { λ s number. net_at (views_of s.values.now s.values_before.now) number };

    #[inline(always)]
    fn view(&self, number: usize) -> NetView {
        view_at(self.values, self.values_before, number)
    }
}

/// The number of the net of a port or signal.
fn object_net(object_nets: &[usize], object: usize) -> usize
    ensures { result ≡ slice_index_or object_nets.now object 0 }
{
    match object_nets.get(object) {
        Some(number) => *number,
        None => 0,
    }
}

impl<'a> Nets for Seen<'a> {
    ghost look = { λ s object. net_at (views_of s.values.now s.values_before.now) (slice_index_or s.object_nets.now object 0) };

    fn view(&self, object: usize) -> NetView {
        view_at(
            self.values,
            self.values_before,
            object_net(self.object_nets, object),
        )
    }
}

impl<'a> Nets for SeenBy<'a> {
    ghost look = { λ s object. net_at (views_of s.values.now s.values_before.now) (slice_index_or s.process.now.nets object 0) };

    fn view(&self, object: usize) -> NetView {
        view_at(
            self.values,
            self.values_before,
            object_net(self.process.nets(), object),
        )
    }
}

/// Whether two views are equal.
fn are_one(view: NetView, other: NetView) -> bool
    ensures { IsTrue result ↔ (view ≡ other) }
{
    view.value == other.value && view.event == other.event && view.before == other.before
}

/// Whether this is what is seen of the net with a number.
fn is_seen(values: &[Logic], values_before: &[Logic], number: usize, view: NetView) -> bool
    ensures { IsTrue result ↔ (view ≡ net_at (views_of values.now values_before.now) number) }
{
    are_one(view, view_at(values, values_before, number))
}

/// Whether these are what is seen of the nets with these numbers.
pub fn are_views(
    values: &[Logic],
    values_before: &[Logic],
    numbers: &[usize],
    views: &[NetView],
) -> bool
    ensures { IsTrue result ↔ (views.now ≡ map (net_at (views_of values.now values_before.now)) numbers.now) }
{
    if views.len() != numbers.len() {
        return false;
    }
    for i in 0..views.len() {
        if !is_seen(values, values_before, numbers[i], views[i]) {
            return false;
        }
    }
    true
}
