//! Designs and processes that are equal, or differ in one thing.

use crate::readers::OPEN;
use crate::texts::flat;
use sim_flat_design::{Design, Process};
use std::alloc::{AllocError, Global};
use std::test::Fail;

const TEXT: &str =
    "entity t is port(d:in std_logic:='0');end;architecture a of t is signal clk,q,n:std_logic:='0';begin \
p:process(clk) variable v:boolean:=true;begin if rising_edge(clk) and v then \
q<=reject 1 ns inertial not d after 2 ns;null;end if;v:=d='1';end process;\
u:entity work.l port map(i=>'1',o=>clk);end;entity l is port(i:in std_logic;o:out std_logic);end;\
architecture a of l is begin o<=i;end;";

/// A piece of the text, its replacement, and whether the first process stays equal.
static CHANGES: [(&str, &str, bool); 22] = [
    ("", "", true),
    ("clk,q,n:", "clk,q,m:", true),
    ("u:entity", "w:entity", true),
    ("clk,q,n:std_logic:='0'", "clk,q,n:std_logic:='1'", true),
    ("std_logic:='0');", "std_logic:='1');", true),
    ("i=>'1'", "i=>'H'", true),
    ("o=>clk", "o=>q", true),
    ("o<=i", "o<='1'", true),
    ("process(clk)", "process(clk,d)", false),
    ("boolean:=true", "boolean", false),
    ("rising", "falling", false),
    ("and v", "or v", false),
    ("and v", "and true", false),
    ("reject 1 ns", "reject 2 ns", false),
    ("reject 1 ns inertial", "transport", false),
    ("reject 1 ns inertial", "", false),
    ("not d", "d", false),
    ("after 2 ns", "after 3 ns", false),
    ("after 2 ns", "after 2 ns,'1' after 3 ns", false),
    ("null;", "", false),
    ("null;", "else null;", false),
    ("d='1'", "d/='1'", false),
];

/// The text with one piece replaced.
fn changed(alloc: Global, old: &str, new: &str) -> Result<String, AllocError> {
    let (front, back) = TEXT.split_once(old).unwrap_or((TEXT, ""));
    format!(in alloc; "{front}{new}{back}")
}

/// Whether a text has a design that is equal to this one.
fn is_of(alloc: Global, design: &Design, text: &str) -> Option<bool> {
    let other = flat(alloc, text)?;
    Some(design.same(&other))
}

/// Whether two texts have designs that are equal.
fn are_same(alloc: Global, text: &str, other: &str) -> Option<bool> {
    let design = flat(alloc, text)?;
    is_of(alloc, &design, other)
}

/// Whether two designs have first processes that are equal.
fn begin_alike(design: &Design, other: &Design) -> Option<bool> {
    let first = design.processes().first()?;
    Some(first.same(other.processes().first()?))
}

/// Whether a text has a design whose first process is equal to that of this one.
fn begins_alike(alloc: Global, design: &Design, text: &str) -> Option<bool> {
    let other = flat(alloc, text)?;
    begin_alike(design, &other)
}

/// Whether two texts have first processes that are equal.
fn first_processes_are_same(alloc: Global, text: &str, other: &str) -> Option<bool> {
    let design = flat(alloc, text)?;
    begins_alike(alloc, &design, other)
}

/// The index of the first change for which the comparison with the design of a text is wrong. The
/// designs must be equal for the text's own change alone.
fn first_other(alloc: Global, text: &str, own: usize) -> Result<Option<usize>, AllocError> {
    for (place, row) in CHANGES.iter().enumerate() {
        let other = changed(alloc, row.0, row.1)?;
        if are_same(alloc, text, other.as_str()) != Some(place == own) {
            return Ok(Some(place));
        }
    }
    Ok(None)
}

/// The indices of the first two changes whose designs compare wrongly.
fn first_others(alloc: Global) -> Result<Option<(usize, usize)>, AllocError> {
    for (place, row) in CHANGES.iter().enumerate() {
        let text = changed(alloc, row.0, row.1)?;
        if let Some(other) = first_other(alloc, text.as_str(), place)? {
            return Ok(Some((place, other)));
        }
    }
    Ok(None)
}

#[test]
fn designs_that_differ_in_one_thing_are_not_the_same(rt: HostRuntime) -> Result<(), Fail> {
    assert_eq!(rt; first_others(rt.alloc())?, None);
    Ok(())
}

/// The index of the first change for which the first processes compare wrongly.
fn first_other_process(alloc: Global) -> Result<Option<usize>, AllocError> {
    for (place, row) in CHANGES.iter().enumerate() {
        let text = changed(alloc, row.0, row.1)?;
        if first_processes_are_same(alloc, TEXT, text.as_str()) != Some(row.2) {
            return Ok(Some(place));
        }
    }
    Ok(None)
}

#[test]
fn processes_are_equal_whatever_surrounds_them(rt: HostRuntime) -> Result<(), Fail> {
    assert_eq!(rt; first_other_process(rt.alloc())?, None);
    Ok(())
}

/// Whether a design has a copy that is equal to it.
fn design_is_copied(design: &Design) -> bool {
    match design.try_copy() {
        Ok(copy) => copy.same(design),
        Err(_refused) => false,
    }
}

/// Whether a process has a copy that is equal to another process.
fn copy_is_same(process: &Process, other: &Process) -> Option<bool> {
    match process.try_copy() {
        Ok(copy) => Some(copy.same(other)),
        Err(_refused) => None,
    }
}

/// Whether two processes have copies, each of which is equal to its own process and not to the
/// other.
fn processes_are_copied(processes: &[Process]) -> bool {
    match processes {
        [one, other] => {
            copy_is_same(one, one) == Some(true)
                && copy_is_same(other, other) == Some(true)
                && copy_is_same(one, other) == Some(false)
        }
        _ => false,
    }
}

/// Whether the design of a text and its processes have equal copies.
fn are_copied(alloc: Global, text: &str) -> Option<bool> {
    let design = flat(alloc, text)?;
    Some(design_is_copied(&design) && processes_are_copied(design.processes()))
}

#[test]
fn copies_are_the_same(rt: HostRuntime) {
    assert_eq!(rt; are_copied(rt.alloc(), TEXT), Some(true));
}

/// Whether a text has a design with an equal copy.
fn is_copied(alloc: Global, text: &str) -> Option<bool> {
    let design = flat(alloc, text)?;
    Some(design_is_copied(&design))
}

#[test]
fn an_open_port_is_copied(rt: HostRuntime) {
    assert_eq!(rt; is_copied(rt.alloc(), OPEN), Some(true));
}
