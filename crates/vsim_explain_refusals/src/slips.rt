//! Common slips in the use of what the subset has.

pub const COMPARISON: &str = "\
    = compares values, as in s = '1' (not ==). Assign a signal with <=, a variable with :=.\n\
    See Assignments and delays in docs/LANGUAGE.md.";

pub const ARROW: &str = "\
    => is for port maps. Assign a signal with <=, and a variable with :=.\n\
    See Assignments and delays in docs/LANGUAGE.md.";

pub const ASSIGNMENT: &str = "\
    := assigns variables in a process, and gives initial values. Assign a signal with <=.\n\
    See Assignments and delays in docs/LANGUAGE.md.";

pub const SIGNAL_ASSIGNMENT: &str = "\
    <= assigns a signal, in a statement of its own. An initial value is given with :=. In a\n\
    port map write =>; ordering operators are left out.\n\
    See Assignments and delays in docs/LANGUAGE.md.";

pub const UNEQUAL: &str = "\
    /= tests whether two values differ; not inverts a value.\n\
    See Expressions in docs/LANGUAGE.md.";

pub const NUMBER: &str = "\
    Numbers occur only before a unit of time, as in 5 ns. A value has apostrophes, as in\n\
    '1'. See Values in docs/LEFT_OUT.md.";

pub const UNIT_OF_TIME: &str = "\
    A time is a whole number and a unit: fs, ps, ns, us, ms, sec, min or hr, as in 5 ns.\n\
    See Times in docs/REFERENCE.md.";

pub const MIXED: &str = "\
    Different logical operators can be combined only with parentheses, as in (p and q) or r;\n\
    nand and nor cannot be repeated without them, and ?? s as an operand needs them.\n\
    See Expressions in docs/LANGUAGE.md.";

pub const ENDS: &str = "\
    This end does not match what is open here. An if ends with end if, a process with end\n\
    process, and a name after end must be that of what it closes. Perhaps an end is missing\n\
    before this, or else if should be elsif. See Processes in docs/LANGUAGE.md.";

pub const ELSIF: &str = "\
    The word is elsif. See Processes in docs/LANGUAGE.md.";

pub const END_IF: &str = "\
    An if ends with two words, end if. See Processes in docs/LANGUAGE.md.";

pub const ELSE_IF: &str = "\
    else if opens another if, which needs its own end if; probably elsif was meant.\n\
    See Processes in docs/LANGUAGE.md.";

pub const ACTUAL: &str = "\
    An actual is a signal, a port, a literal or open, not an expression. Assign the\n\
    expression to a signal, and associate that. See Modes in docs/INSTANCES.md.";

pub const SIGNAL: &str = "\
    Signals are declared in an architecture, between is and begin; a process declares only\n\
    variables. See Processes in docs/LANGUAGE.md.";

pub const VARIABLE: &str = "\
    Variables are declared in a process, between its sensitivity list and begin.\n\
    See Variables in docs/LANGUAGE.md.";

pub const PORT: &str = "\
    In an entity declaration write is before port; in an instance write entity work.NAME\n\
    before port map. See docs/INSTANCES.md.";

pub const SEQUENTIAL: &str = "\
    if and null belong in a process, between its begin and its end; generate statements are\n\
    left out. See Processes in docs/LANGUAGE.md.";

pub const CONCURRENT: &str = "\
    A process belongs in an architecture, between its begin and its end. That begin may be\n\
    missing, or the end of the previous process. See Processes in docs/LANGUAGE.md.";

pub const COMPONENT: &str = "\
    Components are declared in an architecture, between is and begin. See docs/INSTANCES.md.";

pub const COLON: &str = "\
    A colon separates the names from their type, as in signal p, q : std_logic;\n\
    See Signals and their values in docs/LANGUAGE.md.";

pub const COMMA: &str = "\
    Ports are separated by ; and names, actuals and elements of a waveform by commas.\n\
    See Grammar in docs/REFERENCE.md.";

pub const LAST_PORT: &str = "\
    There must be no ; after the last port, before the closing ). See docs/INSTANCES.md.";

pub const CLOSING_NAME: &str = "\
    A name after end must be that of what it closes; a process or if without a label has\n\
    none. See Text in docs/LANGUAGE.md.";

pub const NOT_ASCII: &str = "\
    Outside comments, a text must be ASCII. Some editors put a byte order mark at the\n\
    beginning, or other quotes in place of '. See Text in docs/LANGUAGE.md.";

pub const UNDERSCORE: &str = "\
    An underscore must be between letters or digits, not next to another underscore.\n\
    See Tokens in docs/REFERENCE.md.";

pub const LINE_BEFORE: &str = "\
    A line begins here, so something may be missing at the end of the line before: a ; or ),\n\
    or a word such as is, then or begin. See Grammar in docs/REFERENCE.md.";

pub const BEGIN: &str = "\
    What comes before is complete. Perhaps begin is missing between declarations and\n\
    statements, an end is missing or one too many, or a word is misspelled.\n\
    See Grammar in docs/REFERENCE.md.";

pub const NO_BOOLEAN: &str = "\
    Signals and ports are of std_logic or std_ulogic; only variables can be boolean.\n\
    See Declarations in docs/LEFT_OUT.md.";

pub const CONVERSION: &str = "\
    A type is not a value, and conversions are left out: signals of std_logic and std_ulogic\n\
    can be assigned to one another directly. See Values in docs/LEFT_OUT.md.";

pub const LOGICAL: &str = "\
    The logical operators are words: s and d, s or d, s xor d, not s.\n\
    See Expressions in docs/LANGUAGE.md.";

pub const COMMENT: &str = "\
    A comment begins with -- and goes to the end of the line. See Text in docs/LANGUAGE.md.";

pub const ALWAYS: &str = "\
    always @ (posedge clk) is written process (clk), with if rising_edge(clk) then .. end if;\n\
    inside. See Edges in docs/LANGUAGE.md.";

pub const BRACES: &str = "\
    There are no braces: an if ends with end if, a process with end process.\n\
    See Processes in docs/LANGUAGE.md.";

pub const DELAY: &str = "\
    A delay comes after the value and has a unit, as in q <= d after 5 ns;\n\
    See Assignments and delays in docs/LANGUAGE.md.";

pub const CONTINUOUS: &str = "\
    An assignment begins with its target, as in q <= d;\n\
    See Assignments and delays in docs/LANGUAGE.md.";

pub const CHOICE: &str = "\
    s ? d : clk is written d when s = '1' else clk; in a process it is an if statement.\n\
    See Conditional assignments in docs/LANGUAGE.md.";

pub const ALL_SIGNALS: &str = "\
    A process that is sensitive to all it reads is written process (all).\n\
    See Processes in docs/LANGUAGE.md.";

pub const POSITIONAL: &str = "\
    In a port map positional associations come before named ones, as in\n\
    port map (s, b => d), or each names its port. See docs/INSTANCES.md.";

pub const MAP_MISSING: &str = "\
    port map is missing before the parenthesis, as in entity work.NAME port map (s, d).\n\
    See docs/INSTANCES.md.";

pub const LABEL: &str = "\
    An instance has a label, as in u1 : entity work.NAME port map (s, d); or, if its\n\
    component is declared, u1 : NAME port map (s, d). See docs/INSTANCES.md.";

pub const ELSE: &str = "\
    A conditional assignment goes on with else, as in '1' when s = '1' else '0'.\n\
    See Conditional assignments in docs/LANGUAGE.md.";

pub const WHEN: &str = "\
    In an assignment the word is when, as in q <= '1' when s = '1' else '0'; in a process\n\
    write an if statement around it. See Conditional assignments in docs/LANGUAGE.md.";

pub const CHAINED: &str = "\
    Comparisons need parentheses to be combined, as in (s = d) and (d = '1').\n\
    See Expressions in docs/LANGUAGE.md.";

pub const AND_MISSING: &str = "\
    A word is missing behind 'event, as in clk'event and clk = '1'.\n\
    See Edges in docs/LANGUAGE.md.";

pub const EDGE_OF: &str = "\
    rising_edge and falling_edge take the name of one signal. The rising edge of not clk is\n\
    falling_edge (clk). See Edges in docs/LANGUAGE.md.";

pub const TRANSPORT: &str = "\
    transport, inertial and reject come directly behind <=, as in q <= transport d after 1 ns.\n\
    See Transport, inertial and reject in docs/LANGUAGE.md.";

pub const NAMES_APART: &str = "\
    Names are separated by commas, and a colon comes before their type, as in\n\
    signal a, b : std_logic; See Signals and their values in docs/LANGUAGE.md.";

pub const COMPONENT_END: &str = "\
    A component declaration ends with end component; See docs/INSTANCES.md.";

pub const END_TOO_MANY: &str = "\
    This end if is one too many: each if of this process has its own already.\n\
    See Processes in docs/LANGUAGE.md.";

pub const OF_VARIABLE: &str = "\
    If this is a variable, use :=, as in v := d; See Variables in docs/LANGUAGE.md.";

pub const OF_SIGNAL: &str = "\
    If this is a signal or port, use <=, as in q <= d;\n\
    See Assignments and delays in docs/LANGUAGE.md.";

/// The hint on a word at the place of a `Syntax`.
pub static AT: [(&str, &str); 19] = [
    ("transport", TRANSPORT),
    ("inertial", TRANSPORT),
    ("reject", TRANSPORT),
    ("and", MIXED),
    ("or", MIXED),
    ("nand", MIXED),
    ("nor", MIXED),
    ("xor", MIXED),
    ("xnor", MIXED),
    ("signal", SIGNAL),
    ("variable", VARIABLE),
    ("port", PORT),
    ("std_logic", COLON),
    ("std_ulogic", COLON),
    ("if", SEQUENTIAL),
    ("elsif", SEQUENTIAL),
    ("null", SEQUENTIAL),
    ("process", CONCURRENT),
    ("component", COMPONENT),
];

/// The hint on a word before the place of a `Syntax`.
pub static AFTER: [(&str, &str); 9] = [
    ("assign", CONTINUOUS),
    ("posedge", ALWAYS),
    ("els", ELSIF),
    ("end", ENDS),
    ("endif", END_IF),
    ("elseif", ELSIF),
    ("elif", ELSIF),
    ("after", UNIT_OF_TIME),
    ("reject", UNIT_OF_TIME),
];

/// The hint on a name of the wrong kind.
pub static KINDS: [(&str, &str); 3] = [
    ("boolean", NO_BOOLEAN),
    ("std_logic", CONVERSION),
    ("std_ulogic", CONVERSION),
];

/// The types of signals and variables.
pub static TYPES: [&str; 3] = ["std_logic", "std_ulogic", "boolean"];

/// The operators that are words.
pub static OPERATORS: [&str; 7] = ["not", "and", "or", "nand", "nor", "xor", "xnor"];

/// The words with which a line may end.
pub static OPEN: [&str; 4] = ["is", "begin", "then", "else"];
