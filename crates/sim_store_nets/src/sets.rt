//! Insertion of several members into a set.

ghost use Rattle.std.specs.Prelude.{ℕ, ◌≡◌, ◌<◌, ◌||◌, ◌==◌, length};
ghost use Rattle.sim_containers.specs.Numbers.{is_in};
ghost use Rattle.sim_standard.specs.Orders.{is_among};

use sim_containers::{NumberList, NumberSet};

/// Inserts a number, if it is below the bound.
fn insert_below(set: &mut NumberSet, number: usize)
    ensures sized { length set.new ≡ length set.old }
    ensures members { (n : ℕ) → n < length set.old → is_in set.new n ≡ ((number == n) || is_in set.old n) }
{
    if number < set.len() {
        set.insert(number);
    }
}

/// Inserts those of these numbers that are below the bound.
pub fn insert_each(set: &mut NumberSet, numbers: &[usize])
    ensures sized { length set.new ≡ length set.old }
    ensures members { (n : ℕ) → n < length set.old → is_in set.new n ≡ (is_among numbers.now n || is_in set.old n) }
{
    for number in numbers {
        insert_below(set, *number);
    }
}

/// Makes those of these numbers that are below the bound the members of a list, and gathers them in
/// a set if they are several.
#[inline(always)]
pub fn replace_by(list: &mut NumberList, set: &mut NumberSet, numbers: &[usize])
    requires { length set.old ≡ length list.old }
    ensures sized { length list.new ≡ length list.old }
    ensures set { length set.new ≡ length set.old }
    ensures members { (n : ℕ) → n < length list.old → is_in list.new n ≡ is_among numbers.now n }
{
    match numbers {
        [number] => list.set_only(*number),
        numbers => gather(list, set, numbers),
    }
}

/// The same, for any number of numbers.
#[inline(never)]
fn gather(list: &mut NumberList, set: &mut NumberSet, numbers: &[usize])
    requires { length set.old ≡ length list.old }
    ensures sized { length list.new ≡ length list.old }
    ensures set { length set.new ≡ length set.old }
    ensures members { (n : ℕ) → n < length list.old → is_in list.new n ≡ is_among numbers.now n }
{
    set.clear();
    insert_each(set, numbers);
    list.set_from(set);
}
