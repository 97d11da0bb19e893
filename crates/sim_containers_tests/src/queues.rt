ghost use Rattle.std.specs.Prelude.{◌≡◌, length, IfOk};

use sim_containers::{NumberSet, TimeQueue};
use std::alloc::{AllocError, Global};
use std::test::Fail;

/// Numbers at both ends of words and of top words.
const NUMBERS: [usize; 6] = [0, 63, 64, 4095, 4096, 4999];

/// Adds or removes these numbers.
fn put_each(set: &mut NumberSet, numbers: &[usize], is_member: bool) {
    for number in numbers {
        if *number < set.len() {
            set.put(*number, is_member);
        }
    }
}

/// The members, in ascending order.
fn listed(alloc: Global, set: &NumberSet) -> Result<Vec<usize>, AllocError> {
    let mut numbers = Vec::with_capacity(alloc, set.len())?;
    set.list(&mut numbers);
    Ok(numbers)
}

/// Where the search for a member starts, and the next member.
static NEXT: [(usize, Option<usize>); 6] = [
    (0, Some(0)),
    (1, Some(63)),
    (64, Some(64)),
    (65, Some(4095)),
    (4097, Some(4999)),
    (5000, None),
];

/// Whether the search finds the next member from each place in the table.
fn finds_each_next(set: &NumberSet) -> bool {
    for row in NEXT.iter() {
        if set.next(row.0) != row.1 {
            return false;
        }
    }
    true
}

/// Whether these are the members, in ascending order.
fn lists(alloc: Global, set: &NumberSet, wanted: &[usize]) -> Result<bool, AllocError> {
    Ok(listed(alloc, set)?.as_slice() == wanted)
}

#[test]
fn members_are_found_across_words(rt: HostRuntime) -> Result<(), Fail> {
    let mut set = NumberSet::new(rt.alloc(), 5000)?;
    put_each(&mut set, NUMBERS.as_slice(), true);
    assert!(rt; finds_each_next(&set));
    assert!(rt; lists(rt.alloc(), &set, NUMBERS.as_slice())?);
    Ok(())
}

/// Numbers, and whether they are members.
static MEMBERS: [(usize, bool); 5] = [
    (0, false),
    (1, true),
    (64, false),
    (129, true),
    (130, false),
];

/// Whether exactly the members in the table are in the set.
fn has_members(set: &NumberSet) -> bool {
    for row in MEMBERS.iter() {
        if set.contains(row.0) != row.1 {
            return false;
        }
    }
    true
}

#[test]
fn members_are_removed(rt: HostRuntime) -> Result<(), Fail> {
    let mut set = NumberSet::full(rt.alloc(), 130)?;
    put_each(&mut set, [0, 63, 64, 128].as_slice(), false);
    assert!(rt; has_members(&set));
    set.clear();
    assert!(rt; set.is_empty());
    Ok(())
}

/// The only member of a set, once these numbers are added.
fn only_with(set: &mut NumberSet, numbers: &[usize]) -> Option<usize> {
    put_each(set, numbers, true);
    set.only()
}

#[test]
fn a_single_member_is_known(rt: HostRuntime) -> Result<(), Fail> {
    let mut set = NumberSet::new(rt.alloc(), 130)?;
    assert!(rt; set.only().is_none());
    assert!(rt; only_with(&mut set, &[64]) == Some(64));
    assert!(rt; lists(rt.alloc(), &set, &[64])?);
    assert!(rt; only_with(&mut set, &[3]).is_none());
    Ok(())
}

/// Drivers 1 and 2 at 3.
fn put_both_at_3(queue: &mut TimeQueue) -> Result<(), AllocError>
    requires { length queue.old ≡ 3 }
    ensures { length queue.new ≡ 3 }
{
    queue.put(1, Some(3))?;
    queue.put(2, Some(3))?;
    Ok(())
}

/// Driver 0 at 5, driver 1 first at 3 and then at 9, driver 2 at 3.
fn put_three(queue: &mut TimeQueue) -> Result<(), AllocError>
    requires { length queue.old ≡ 3 }
    ensures { length queue.new ≡ 3 }
{
    queue.put(0, Some(5))?;
    put_both_at_3(queue)?;
    queue.put(1, Some(9))?;
    Ok(())
}

/// A queue of these three.
fn three(alloc: Global) -> Result<TimeQueue, AllocError>
    ensures { IfOk result (λ queue. length queue ≡ 3) }
{
    let mut queue = TimeQueue::new(alloc, 3)?;
    put_three(&mut queue)?;
    Ok(queue)
}

/// Whether this is the least time and these are the drivers due then, which are taken.
fn are_due(
    alloc: Global,
    queue: &mut TimeQueue,
    time: u64,
    wanted: &[usize],
) -> Result<bool, AllocError>
    ensures { length queue.new ≡ length queue.old }
{
    if queue.least() != Some(time) {
        return Ok(false);
    }
    Ok(queue.take_due(alloc, time)?.as_slice() == wanted)
}

/// Whether driver 2 is due at 3, driver 0 at 5 and, with the latter cleared, driver 1 at 9.
fn takes_at_the_last_times(alloc: Global, queue: &mut TimeQueue) -> Result<bool, AllocError>
    requires { length queue.old ≡ 3 }
{
    let is_taken = are_due(alloc, queue, 3, &[2])?;
    let is_next = queue.least() == Some(5);
    queue.put(0, None)?;
    Ok(is_taken && is_next && queue.least() == Some(9))
}

#[test]
fn drivers_are_taken_at_the_times_put_last(rt: HostRuntime) -> Result<(), Fail> {
    let mut queue = three(rt.alloc())?;
    assert!(rt; takes_at_the_last_times(rt.alloc(), &mut queue)?);
    Ok(())
}

/// Whether drivers put at 3 after 3 was taken are due at 3 again.
fn takes_at_one_time_again(alloc: Global, queue: &mut TimeQueue) -> Result<bool, AllocError>
    requires { length queue.old ≡ 3 }
{
    let is_taken = are_due(alloc, queue, 3, &[2])?;
    put_both_at_3(queue)?;
    Ok(is_taken && are_due(alloc, queue, 3, &[1, 2])? && queue.least() == Some(5))
}

#[test]
fn a_time_taken_before_can_be_queued_again(rt: HostRuntime) -> Result<(), Fail> {
    let mut queue = three(rt.alloc())?;
    assert!(rt; takes_at_one_time_again(rt.alloc(), &mut queue)?);
    Ok(())
}

/// Whether this is the least time, and this the driver that is taken by itself then, if any.
fn is_alone(queue: &mut TimeQueue, time: u64, wanted: Option<usize>) -> bool
    ensures { length queue.new ≡ length queue.old }
{
    if queue.least() != Some(time) {
        return false;
    }
    queue.take_only(time) == wanted
}

/// Whether a driver that is alone at 3 is taken by itself, and two at 3 are not.
fn takes_one_alone(alloc: Global, queue: &mut TimeQueue) -> Result<bool, AllocError>
    requires { length queue.old ≡ 3 }
{
    queue.put(1, Some(3))?;
    let is_taken = is_alone(queue, 3, Some(1));
    put_both_at_3(queue)?;
    Ok(is_taken && is_alone(queue, 3, None) && are_due(alloc, queue, 3, &[1, 2])?)
}

/// A queue of three drivers without times.
fn no_times(alloc: Global) -> Result<TimeQueue, AllocError>
    ensures { IfOk result (λ queue. length queue ≡ 3) }
{
    TimeQueue::new(alloc, 3)
}

#[test]
fn a_driver_that_is_alone_is_taken_by_itself(rt: HostRuntime) -> Result<(), Fail> {
    let mut queue = no_times(rt.alloc())?;
    assert!(rt; takes_one_alone(rt.alloc(), &mut queue)?);
    Ok(())
}
