//! Explanations of the faults of a design.

use crate::explanation::{Explanation, at, nowhere};
use crate::hints;
use sim_flat::FlatError;
use vsim_explain_source::tokens::{is_one_of, last_word, without_comments};

const MEMORY: &str = "\
    There is not enough memory to elaborate the design.";

const NO_TOP: &str = "\
    No entity in the text has the name given by --top. Check the spelling; case makes no\n\
    difference.\n\
    See Calling the program in docs/LANGUAGE.md.";

const DUPLICATE: &str = "\
    This name is already declared in the same entity, component, architecture or process, or\n\
    as another unit of this file. Rename one of the two; case makes no difference.\n\
    See Names and scopes in docs/LANGUAGE.md.";

const PREDEFINED: &str = "\
    This name is predefined, like std_logic, true and rising_edge, and cannot be declared\n\
    again. Choose another name.\n\
    See Names and scopes in docs/LANGUAGE.md.";

const UNKNOWN: &str = "\
    Nothing visible here has this name. Compare it with its declaration. An instance can\n\
    name components of its architecture, and units of this file as entity work.NAME. If this\n\
    is an actual, there may be more actuals than ports.\n\
    See Names and scopes in docs/LANGUAGE.md.";

const WRONG_KIND: &str = "\
    This name denotes something that cannot be used here. A declaration needs a type, an\n\
    expression a signal, port or variable; the target of <= is a signal or port, that of :=\n\
    a variable.\n\
    See Names and scopes in docs/LANGUAGE.md.";

const TYPE_CLASH: &str = "\
    std_logic and boolean are mixed here, or ?? is applied to a boolean. s = '1' and (?? s)\n\
    turn a signal into a boolean. '1' when .. else '0' turns a boolean into std_logic; in a\n\
    process an if statement does.\n\
    See Expressions in docs/LANGUAGE.md.";

const AMBIGUOUS: &str = "\
    A comparison, a condition or the operand of ?? consists only of literals here, which\n\
    leaves its type open. Use a signal or variable in it, or write the result instead.\n\
    See Expressions in docs/LANGUAGE.md.";

const READ_OUT: &str = "\
    In vsim an architecture cannot read its ports of mode out, though VHDL-2008 allows it.\n\
    Drive a signal, read that, and assign it to the port.\n\
    See Modes in docs/INSTANCES.md.";

const WRITE_IN: &str = "\
    A port of mode in can be read in its architecture, but not assigned. Make it out or\n\
    inout, or assign a signal instead.\n\
    See Modes in docs/INSTANCES.md.";

const PORT_MISSING: &str = "\
    A port of mode in of this instance has neither an actual nor a default value. Associate\n\
    it with a signal or literal, or declare it like i : in std_logic := '0'.\n\
    See Modes in docs/INSTANCES.md.";

const PORT_TWICE: &str = "\
    This port already has an actual in this port map. Remove one of the two.\n\
    See Faults of the design in docs/REFERENCE.md.";

const MODE_CLASH: &str = "\
    The mode of the port forbids this actual. An in port cannot be connected to an out port,\n\
    nor an out port to an in port or a literal; an inout port can be connected only to a\n\
    signal or an inout port. Connect a signal, or change a mode.\n\
    See Modes in docs/INSTANCES.md.";

const COMPONENT_DIFFERS: &str = "\
    The component and the entity of its name differ in their ports. Make names, order, modes\n\
    and types equal, or write entity work.NAME instead of the component's name.\n\
    See Which architecture in docs/INSTANCES.md.";

const NO_ARCHITECTURE: &str = "\
    This entity has no architecture, or none with the name given here. Write one, or name\n\
    one that exists.\n\
    See Which architecture in docs/INSTANCES.md.";

const RECURSIVE: &str = "\
    This instance leads back to the architecture that it is in, directly or through others,\n\
    so the hierarchy never ends. Instantiate another entity.\n\
    See Which fault is reported in docs/LANGUAGE.md.";

const MANY_SOURCES: &str = "\
    A signal or port of type std_ulogic may have only one source, and this one has several.\n\
    Declare it as std_logic, which is resolved, or keep only one source.\n\
    See Resolution in docs/LANGUAGE.md.";

const NOT_ASCENDING: &str = "\
    Each element of a waveform must be later than the one before it, and this one is not.\n\
    Put the elements in the order of their times, with no two the same.\n\
    See Waveforms in docs/LANGUAGE.md.";

const REJECT_TOO_LONG: &str = "\
    The time after reject must not exceed the first delay of any waveform of the assignment.\n\
    Shorten it, or lengthen that delay.\n\
    See Transport, inertial and reject in docs/LANGUAGE.md.";

const TOO_MANY_ELEMENTS: &str = "\
    A waveform may have at most 16 elements. Use several assignments in a process that is\n\
    executed only once, with transport from the second on, as in\n\
    s <= transport '0' after 16 ns, '1' after 17 ns;\n\
    See Stimuli longer than sixteen elements in docs/LANGUAGE.md.";

const TOO_MANY: &str = "\
    The design of this top has more than 65,536 nets, processes or drivers, more than 16,384\n\
    instances, or more than 32 levels of instances. Leave part of it out. With --large it may\n\
    have 1,000,000 nets, processes, drivers and instances.\n\
    See Limits in docs/REFERENCE.md.";

/// The explanation of a limit exceeded at this place: the name of the top, or an element.
fn explain_limit(source: &[u8], place: usize) -> Explanation {
    let (before, _) = source.split_at(place.min(source.len()));
    if is_one_of(&["entity"], last_word(without_comments(before))) {
        at(place, TOO_MANY)
    } else {
        at(place, TOO_MANY_ELEMENTS)
    }
}

/// The explanation of a fault of the design.
pub fn explain_design(source: &[u8], fault: FlatError) -> Explanation {
    match fault {
        FlatError::Memory => nowhere(MEMORY),
        FlatError::NoTop => nowhere(NO_TOP),
        FlatError::Duplicate { at: place } => at(place, DUPLICATE),
        FlatError::Predefined { at: place } => at(place, PREDEFINED),
        FlatError::Unknown { at: place } => at(place, UNKNOWN).with(hints::of_name(source, place)),
        FlatError::WrongKind { at: place } => {
            at(place, WRONG_KIND).with(hints::of_kind(source, place))
        }
        FlatError::TypeClash { at: place } => at(place, TYPE_CLASH),
        FlatError::Ambiguous { at: place } => at(place, AMBIGUOUS),
        FlatError::ReadOut { at: place } => at(place, READ_OUT),
        FlatError::WriteIn { at: place } => at(place, WRITE_IN),
        FlatError::PortMissing { at: place } => at(place, PORT_MISSING),
        FlatError::PortTwice { at: place } => at(place, PORT_TWICE),
        FlatError::ModeClash { at: place } => at(place, MODE_CLASH),
        FlatError::ComponentDiffers { at: place } => at(place, COMPONENT_DIFFERS),
        FlatError::NoArchitecture { at: place } => at(place, NO_ARCHITECTURE),
        FlatError::Recursive { at: place } => at(place, RECURSIVE),
        FlatError::ManySources { at: place } => at(place, MANY_SOURCES),
        FlatError::NotAscending { at: place } => at(place, NOT_ASCENDING),
        FlatError::RejectTooLong { at: place } => at(place, REJECT_TOO_LONG),
        FlatError::TooMany { at: place } => explain_limit(source, place),
    }
}
