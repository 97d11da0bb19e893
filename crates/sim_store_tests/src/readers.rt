//! The contents of flat designs.

use crate::line::Line;
use crate::texts::flat;
use crate::written::put_design;
use std::alloc::Global;
use std::test::Fail;

/// An instance with a constant and an open port.
pub const OPEN: &str =
    "entity t is end;architecture a of t is begin u:entity work.l port map(i=>'1',o=>open); end;\
entity l is port(i:in std_logic;o:out std_logic);end;architecture a of l is begin o<=i;end;";

/// A process with two drivers for ports that are the same signal.
const TWICE: &str =
    "entity t is end;architecture a of t is signal s:std_logic;begin u:entity work.e port map(s,s); end;\
entity e is port(p,q:out std_logic);end;architecture a of e is begin process(all) begin p<='0';q<='1';end process;end;";

/// A process with variables.
const CLOCK: &str =
    "entity t is end;architecture a of t is signal clk:std_logic:='0'; signal q:std_logic;begin \
clk <= not clk after 5 ns; process (clk) variable v:std_logic:='0'; variable w:boolean; begin if rising_edge(clk) then \
v := not v; q <= v; end if; end process; end;";

/// An architecture that is instantiated twice, with instances of its own.
const DEEP: &str =
    "entity t is end;architecture a of t is signal s:std_logic:='H';begin U:entity work.m port map(s);\
v:entity work.m port map(s); end;entity m is port(o:out std_logic:='L');end;architecture a of m is signal x:std_logic;begin \
w:entity work.l port map(x,o);end;entity l is port(i:in std_logic;o:out std_logic:='0');end;architecture a of l is begin o<=i;end;";

/// Texts, and the lines of their designs.
static DESIGNS: [(&str, &str); 4] = [
    (
        OPEN,
        "net u.i has '1'; net u.o has 0; driver of 0 to 1 from 'U'; \
process sensitive 0, reads 0, nets 0 1, objects, drivers and the first 2 1 0, variables, statements to 0 after 0; ",
    ),
    (
        TWICE,
        "net s has 0 1; driver of 0 to 0 from 'U'; driver of 0 to 0 from 'U'; \
process sensitive, reads, nets 0 0, objects, drivers and the first 2 2 0, variables, statements to 0 after 0 to 1 after 0; ",
    ),
    (
        CLOCK,
        "net clk has 0; net q has 1; driver of 0 to 0 from '0'; driver of 1 to 1 from 'U'; \
process sensitive 0, reads 0, nets 0 1, objects, drivers and the first 2 1 0, variables, statements to 0 after 5000000; \
process sensitive 0, reads 0, nets 0 1, objects, drivers and the first 2 1 1, variables '0' false, statements if; ",
    ),
    (
        DEEP,
        "net s has 0 1; net u.x has 'U'; net v.x has 'U'; driver of 0 to 0 from '0'; driver of 1 to 0 from '0'; \
process sensitive 1, reads 1, nets 1 0, objects, drivers and the first 2 1 0, variables, statements to 0 after 0; \
process sensitive 2, reads 2, nets 2 0, objects, drivers and the first 2 1 1, variables, statements to 0 after 0; ",
    ),
];

/// Appends the design of a text, if it has one.
fn put_written(line: &mut Line, alloc: Global, text: &str) {
    if let Some(design) = flat(alloc, text) {
        put_design(line, &design);
    }
    line.put("\n");
}

/// The lines of the designs, and the expected ones.
fn written(alloc: Global) -> (Line, Line) {
    let mut found = Line::new(alloc);
    let mut wanted = Line::new(alloc);
    for row in DESIGNS.iter() {
        put_written(&mut found, alloc, row.0);
        wanted.put(row.1);
        wanted.put("\n");
    }
    (found, wanted)
}

#[test]
fn a_design_has_its_nets_drivers_and_processes(rt: HostRuntime) -> Result<(), Fail> {
    let (found, wanted) = written(rt.alloc());
    assert_eq!(rt; found.whole()?.as_str(), wanted.whole()?.as_str());
    Ok(())
}

/// The number of the net with a name in the design of a text.
fn number_of(alloc: Global, text: &str, name: &str) -> Option<usize> {
    flat(alloc, text)?.net_named(name)
}

/// Names, and the numbers of their nets.
static NAMES: [(&str, Option<usize>); 6] = [
    ("u.i", Some(0)),
    ("u.o", Some(1)),
    ("U.O", None),
    ("u.", None),
    ("o", None),
    ("", None),
];

/// The index of the first row whose name gives another net.
fn first_other(alloc: Global) -> Option<usize> {
    for (place, row) in NAMES.iter().enumerate() {
        if number_of(alloc, OPEN, row.0) != row.1 {
            return Some(place);
        }
    }
    None
}

#[test]
fn a_net_is_found_by_its_name_in_lower_case(rt: HostRuntime) {
    assert_eq!(rt; first_other(rt.alloc()), None);
}
