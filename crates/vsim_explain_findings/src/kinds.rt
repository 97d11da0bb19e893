//! The kinds of findings, and what is said of each.

/// What is probably wrong.
#[derive(Clone, Copy)]
pub enum Finding {
    /// A signal that a sensitivity list lacks.
    Lacked,
    /// A clock without a first value.
    Clock,
    /// An input of the top that nothing drives.
    Undriven,
    /// A net that is U at the end.
    Unassigned,
    /// A net that is X at the end.
    Conflicting,
    /// A stop time before the first delay.
    Stop,
}

const LACKED: &str = "\
    The process is not executed when it changes. Add it to the list, or write process (all).\n\
    See Processes in docs/LANGUAGE.md.\n";

const UNDRIVEN: &str = "\
    It keeps its first value, which is U. Give it another, as in i : in std_logic := '0';\n\
    or make an entity the top that drives it.\n\
    See Signals and their values in docs/LANGUAGE.md.\n";

const CLOCK: &str = "\
    The inverse of U is U, so it never changes. Declare it with a first value, as in\n\
    signal clk : std_logic := '0'; See Signals and their values in docs/LANGUAGE.md.\n";

const UNASSIGNED: &str = "\
    A signal is U until it is assigned, and so is most of what is made of it. Give it, or what\n\
    it is made of, a first value. See Signals and their values in docs/LANGUAGE.md.\n";

const CONFLICTING: &str = "\
    X comes of several drivers with different values, and of what is made of X. Look at all\n\
    that assign it. See Resolution in docs/LANGUAGE.md.\n";

const STOP: &str = "\
    --stop counts femtoseconds, so --stop 1000 is 1 ps, and --stop 1000000 is 1 ns.\n\
    See Calling the program in docs/LANGUAGE.md.\n";

impl Finding {
    /// The name of the kind, for tools.
    pub fn code(self) -> &'static str {
        match self {
            Finding::Lacked => "SensitivityList",
            Finding::Clock => "ClockValue",
            Finding::Undriven => "UndrivenInput",
            Finding::Unassigned => "ValueU",
            Finding::Conflicting => "ValueX",
            Finding::Stop => "StopTime",
        }
    }

    /// What follows the name in the first line of a warning; empty if it is not about a name.
    pub fn what(self) -> &'static str {
        match self {
            Finding::Lacked => "is read here, but is not in the sensitivity list of its process",
            Finding::Clock => "is inverted here, but has no first value",
            Finding::Undriven => "is an input of the top, and nothing drives it",
            Finding::Unassigned => "is U at the end of the run",
            Finding::Conflicting => "is X at the end of the run",
            Finding::Stop => "",
        }
    }

    /// What it means, and how to mend it.
    pub fn advice(self) -> &'static str {
        match self {
            Finding::Lacked => LACKED,
            Finding::Clock => CLOCK,
            Finding::Undriven => UNDRIVEN,
            Finding::Unassigned => UNASSIGNED,
            Finding::Conflicting => CONFLICTING,
            Finding::Stop => STOP,
        }
    }
}
