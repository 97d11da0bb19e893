//! What the subset leaves out of VHDL, and what to write instead.

pub const SUBPROGRAM: &str = "\
    Subprograms are left out. Write a process, or an entity with ports, instead.\n\
    See Declarations in docs/LEFT_OUT.md.";

pub const LOOP: &str = "\
    Loops and generate statements are left out. Write the statements or instances one by\n\
    one. See Sequential statements in docs/LEFT_OUT.md.";

pub const ASSERTION: &str = "\
    Assertions and reports are left out. Let a signal show the failure, and look for it in\n\
    the listing. See Sequential statements in docs/LEFT_OUT.md.";

pub const TYPES: &str = "\
    The only types are std_logic, std_ulogic and, for variables, boolean. Numbers,\n\
    user-defined types and all others are left out. See Declarations in docs/LEFT_OUT.md.\n\
    Designs with vectors, numbers or Verilog become gates first. See docs/SYNTHESIS.md.";

pub const DECLARATION: &str = "\
    Declarations of this kind are left out. An architecture declares signals and components,\n\
    a process declares variables. See Declarations in docs/LEFT_OUT.md.";

pub const UNIT: &str = "\
    The only units of a file are entities and architectures. Leave out all others.\n\
    See Units in docs/LEFT_OUT.md.";

pub const VECTOR: &str = "\
    Vectors are left out. Declare a signal or port for each element.\n\
    See Declarations in docs/LEFT_OUT.md.\n\
    Designs with vectors, numbers or Verilog become gates first. See docs/SYNTHESIS.md.";

pub const SHIFT: &str = "\
    Shift operators are left out, as vectors are. See Values in docs/LEFT_OUT.md.\n\
    Designs with vectors, numbers or Verilog become gates first. See docs/SYNTHESIS.md.";

pub const MODES: &str = "\
    The only modes of ports are in, out and inout. See Entities in docs/LEFT_OUT.md.";

pub const GENERIC: &str = "\
    Generics are left out. Write the values where they are used, or one entity for each\n\
    value. See Entities in docs/LEFT_OUT.md.";

pub const CONSTANT: &str = "\
    Constants are left out. Use a signal with an initial value and no assignments; instead\n\
    of a constant of type time, write the delay itself, as in after 5 ns.\n\
    See Declarations in docs/LEFT_OUT.md.";

pub const CONDITIONAL: &str = "\
    Conditional assignments are left out in processes. Write an if statement.\n\
    See Sequential statements in docs/LEFT_OUT.md.";

pub const WAIT: &str = "\
    Wait statements are left out. Give the process a sensitivity list, and write stimuli as\n\
    a waveform, as in s <= '0', '1' after 5 ns, '0' after 10 ns;\n\
    See Sequential statements in docs/LEFT_OUT.md.";

pub const WAIT_EDGE: &str = "\
    Wait statements are left out. Write if rising_edge(clk) then .. end if; in process (clk).\n\
    See Edges in docs/LANGUAGE.md.";

pub const FILES: &str = "\
    Files are left out. Write stimuli as a waveform, and look at the listing for results.\n\
    See Declarations in docs/LEFT_OUT.md.";

pub const CONFIGURATION: &str = "\
    Configurations are left out; remove it. A component is bound to the entity of its name.\n\
    See Which architecture in docs/INSTANCES.md.";

pub const CASE: &str = "\
    Case statements are left out. Write if, elsif and else.\n\
    See Sequential statements in docs/LEFT_OUT.md.";

pub const BLOCK: &str = "\
    Blocks are left out. Write their contents in the architecture, or in a separate entity.\n\
    See Concurrent statements in docs/LEFT_OUT.md.";

pub const PROCESS: &str = "\
    A process needs a sensitivity list: process (s) or process (all); wait is left out.\n\
    Write stimuli as a waveform, as in s <= '0', '1' after 5 ns, '0' after 10 ns;\n\
    See Processes in docs/LANGUAGE.md.";

pub const FOREIGN: &str = "\
    This looks like Verilog or a netlist. vsim reads a subset of VHDL, in which each unit is\n\
    an entity or an architecture. See A first design in docs/LANGUAGE.md.\n\
    Designs with vectors, numbers or Verilog become gates first. See docs/SYNTHESIS.md.";

pub const SELECTED: &str = "\
    Selected assignments are left out. Write a conditional assignment: '1' when .. else '0';\n\
    in a process an if statement. See Concurrent statements in docs/LEFT_OUT.md.";

pub const AGGREGATE: &str = "\
    Aggregates are left out, as vectors are. See Values in docs/LEFT_OUT.md.\n\
    Designs with vectors, numbers or Verilog become gates first. See docs/SYNTHESIS.md.";

pub const UNAFFECTED: &str = "\
    unaffected is left out. Omit the last else: if no condition holds, nothing is assigned.\n\
    See Conditional assignments in docs/LANGUAGE.md.";

pub const RELEASE: &str = "\
    force and release are left out. See Sequential statements in docs/LEFT_OUT.md.";

pub const FUNCTION: &str = "\
    The only functions are rising_edge and falling_edge. See Edges in docs/LANGUAGE.md.";

pub const TICK: &str = "\
    The only attribute is 'event, as in s'event; nothing else may follow an apostrophe after\n\
    a name. See Values in docs/LEFT_OUT.md.";

pub const CALL: &str = "\
    The only calls are rising_edge (s) and falling_edge (s); signals have no elements, since\n\
    vectors are left out. See Values in docs/LEFT_OUT.md.\n\
    Designs with vectors, numbers or Verilog become gates first. See docs/SYNTHESIS.md.";

pub const STRING: &str = "\
    Strings are left out, since vectors and reports are. Declare a signal for each element\n\
    of a vector, and assign each one a value in apostrophes, such as '1'.\n\
    See Values in docs/LEFT_OUT.md.\n\
    Designs with vectors, numbers or Verilog become gates first. See docs/SYNTHESIS.md.";

pub const EXTENDED: &str = "\
    Extended identifiers are left out. Use a name of letters, digits and single underscores.\n\
    See Declarations in docs/LEFT_OUT.md.";

pub const ORDER: &str = "\
    Ordering and matching operators are left out; the only comparisons are = and /=.\n\
    See Values in docs/LEFT_OUT.md.";

pub const ARITHMETIC: &str = "\
    Arithmetic is left out; the operators are and, or, nand, nor, xor, xnor, not, ??,\n\
    = and /=. See Values in docs/LEFT_OUT.md.\n\
    Designs with vectors, numbers or Verilog become gates first. See docs/SYNTHESIS.md.";

pub const JOINING: &str = "\
    Concatenation is left out, as vectors are. See Values in docs/LEFT_OUT.md.\n\
    Designs with vectors, numbers or Verilog become gates first. See docs/SYNTHESIS.md.";

pub const BASED: &str = "\
    Based literals are left out. Write the number in decimal.\n\
    See Values in docs/LEFT_OUT.md.\n\
    Designs with vectors, numbers or Verilog become gates first. See docs/SYNTHESIS.md.";

/// The constructs that a word at the place of a `Syntax` begins.
pub static AT: [(&str, &str); 20] = [
    ("generic", GENERIC),
    ("constant", CONSTANT),
    ("type", TYPES),
    ("subtype", TYPES),
    ("range", TYPES),
    ("alias", DECLARATION),
    ("file", FILES),
    ("shared", DECLARATION),
    ("attribute", DECLARATION),
    ("disconnect", DECLARATION),
    ("function", SUBPROGRAM),
    ("procedure", SUBPROGRAM),
    ("impure", SUBPROGRAM),
    ("pure", SUBPROGRAM),
    ("package", UNIT),
    ("context", UNIT),
    ("configuration", UNIT),
    ("when", CONDITIONAL),
    ("sll", SHIFT),
    ("srl", SHIFT),
];

/// The constructs that a word before the place of a `Syntax` begins.
pub static AFTER: [(&str, &str); 23] = [
    ("wait", WAIT),
    ("case", CASE),
    ("for", LOOP),
    ("while", LOOP),
    ("loop", LOOP),
    ("exit", LOOP),
    ("next", LOOP),
    ("return", SUBPROGRAM),
    ("block", BLOCK),
    ("process", PROCESS),
    ("with", SELECTED),
    ("assert", ASSERTION),
    ("report", ASSERTION),
    ("std_logic_vector", VECTOR),
    ("std_ulogic_vector", VECTOR),
    ("bit_vector", VECTOR),
    ("unsigned", VECTOR),
    ("signed", VECTOR),
    ("buffer", MODES),
    ("linkage", MODES),
    ("input", MODES),
    ("output", MODES),
    ("others", AGGREGATE),
];

/// The meaning of an `Unknown` name in VHDL.
pub static NAMES: [(&str, &str); 15] = [
    ("bit", TYPES),
    ("integer", TYPES),
    ("natural", TYPES),
    ("positive", TYPES),
    ("real", TYPES),
    ("time", TYPES),
    ("string", TYPES),
    ("bit_vector", VECTOR),
    ("std_logic_vector", VECTOR),
    ("std_ulogic_vector", VECTOR),
    ("unsigned", VECTOR),
    ("signed", VECTOR),
    ("unaffected", UNAFFECTED),
    ("release", RELEASE),
    ("to_x01", FUNCTION),
];
