//! A body with every statement and operator, executed once at 10 ns, when x rises from '0' to '1',
//! y is '0' and z is 'H'.

use crate::jobs::{changed, is_driver, job, steady};
use crate::texts::flat;
use sim_exec::{Done, NetView};
use sim_flat_design::Held;
use sim_logic::Logic;
use sim_wave::Driver;
use std::alloc::{AllocError, Global};
use std::test::Fail;

/// Process 0 has every statement and operator; processes 1 and 2 are conditional assignments
/// without and with a last waveform.
const TEXT: &str =
    "entity t is end;architecture a of t is signal x,y,z,q,r,s,u,w,k:std_logic;begin \
process (x, y, z) variable v:std_logic:='0'; variable b:boolean; begin \
  v := not ((x and y) or (x nand y)); \
  q <= transport (x xor y) after 1 ns, (x xnor y) after 2 ns, (x nor y) after 3 ns; \
  v := z; \
  if v = '1' then q <= 'X'; elsif (v and x) = '1' then r <= v after 4 ns; else r <= 'Z'; end if; \
  b := x'event and not y'event; \
  b := (b xor rising_edge(x)) or falling_edge(x) or (b nand (x /= y)); \
  if b then s <= '0'; elsif b nor (b xnor true) then s <= '1' after 1 ns; end if; \
  null; \
  s <= reject 500 ps inertial '0' after 2 ns; \
  v := '0'; \
  u <= v after 1 ns; \
  v := '1'; \
end process; \
w <= '1' when x = '0' else '0' when y = '1'; \
k <= '1' when x = '0' else 'W' after 1 ns when z = 'H' else '0'; \
end;";

/// The views of x, y and z.
fn views(alloc: Global) -> Result<Vec<NetView>, AllocError> {
    let mut views = Vec::new(alloc);
    views.push(changed(Logic::Zero, Logic::One))?;
    views.push(steady(Logic::Zero))?;
    views.push(steady(Logic::H))?;
    Ok(views)
}

/// This number of drivers at 'U'.
fn drivers(alloc: Global, count: usize) -> Result<Vec<Driver>, AllocError> {
    let mut drivers = Vec::new(alloc);
    for _turn in 0..count {
        drivers.push(Driver::new(alloc, Logic::U))?;
    }
    Ok(drivers)
}

/// The process with a number, executed with these views and variables.
fn executed(
    alloc: Global,
    number: usize,
    views: Vec<NetView>,
    variables: Vec<Held>,
    count: usize,
) -> Result<Option<Done>, AllocError> {
    let Some(design) = flat(alloc, TEXT) else {
        return Ok(None);
    };
    let drivers = drivers(alloc, count)?;
    let Some(job) = job(&design, number, 10_000_000, views, variables, drivers) else {
        return Ok(None);
    };
    Ok(Done::run(alloc, job).ok())
}

/// Process 0.
fn all_statements(alloc: Global) -> Result<Option<Done>, AllocError> {
    let mut variables = Vec::new(alloc);
    variables.push(Held::Bit(Logic::Zero))?;
    variables.push(Held::Truth(false))?;
    executed(alloc, 0, views(alloc)?, variables, 4)
}

/// Whether the variables are '1' and false.
fn are_left(variables: &[Held]) -> bool {
    match variables {
        [Held::Bit(bit), Held::Truth(truth)] => *bit == Logic::One && !*truth,
        _ => false,
    }
}

/// Whether the drivers of q, r, s and u have what was assigned to them.
fn are_assigned(drivers: &[Driver]) -> bool {
    let q = [
        (11_000_000, Logic::One),
        (12_000_000, Logic::Zero),
        (13_000_000, Logic::Zero),
    ];
    let s = [(11_000_000, Logic::One), (12_000_000, Logic::Zero)];
    is_driver(drivers.first(), Logic::U, &q)
        && is_driver(drivers.get(1), Logic::U, &[(14_000_000, Logic::H)])
        && is_driver(drivers.get(2), Logic::U, &s)
        && is_driver(drivers.get(3), Logic::U, &[(11_000_000, Logic::Zero)])
}

#[test]
fn every_statement_is_carried_out(rt: HostRuntime) -> Result<(), Fail> {
    let done = all_statements(rt.alloc())?;
    assert!(rt;
        done.is_some_and(|done| are_left(done.variables()) && are_assigned(done.drivers()))
    );
    Ok(())
}

#[test]
fn no_condition_holds_and_nothing_is_assigned(rt: HostRuntime) -> Result<(), Fail> {
    let alloc = rt.alloc();
    let mut seen = views(alloc)?;
    let _z = seen.pop();
    let done = executed(alloc, 1, seen, Vec::new(alloc), 1)?;
    assert!(rt; done.is_some_and(|done| is_driver(done.drivers().first(), Logic::U, &[])));
    Ok(())
}

#[test]
fn the_first_waveform_whose_condition_holds_is_taken(rt: HostRuntime) -> Result<(), Fail> {
    let alloc = rt.alloc();
    let mut seen = views(alloc)?;
    let _z = seen.pop();
    let _y = seen.pop();
    seen.push(steady(Logic::H))?;
    let done = executed(alloc, 2, seen, Vec::new(alloc), 1)?;
    assert!(rt;
        done.is_some_and(|done| is_driver(
            done.drivers().first(),
            Logic::U,
            &[(11_000_000, Logic::W)]
        ))
    );
    Ok(())
}
