//! The faults of a design, and the one that is reported.

ghost use Rattle.std.specs.Prelude.{◌≡◌};
ghost use Rattle.sim_flat_scope.specs.Faults.{number_of, sooner};

/// The kind of a fault. If two faults are at one place, the kind listed first is reported.
#[derive(Clone, Copy)]
pub enum Kind {
    /// A name is declared twice.
    Duplicate,
    /// A predefined name is declared.
    Predefined,
    /// No such name is declared.
    Unknown,
    /// A name has a meaning that is not allowed at its place.
    WrongKind,
    /// Two operands, or a value and its target, have different types.
    TypeClash,
    /// The operands of `=` or `/=`, the operand of `??`, or a condition are of type std_ulogic and
    /// contain no name.
    Ambiguous,
    /// A port of mode out is read.
    ReadOut,
    /// A port of mode in is assigned.
    WriteIn,
    /// A port of mode in without a default expression is left open or unassociated.
    PortMissing,
    /// A port is associated twice.
    PortTwice,
    /// The mode of a port does not allow its actual.
    ModeClash,
    /// The ports of a component differ from those of its entity.
    ComponentDiffers,
    /// An entity has no architecture, or not the named one.
    NoArchitecture,
    /// An architecture contains itself, through instances.
    Recursive,
    /// A signal or port of type std_ulogic has more than one source.
    ManySources,
    /// The delays of a waveform do not ascend.
    NotAscending,
    /// A rejection limit is larger than the first delay of its waveform.
    RejectTooLong,
    /// There are too many elements, nets, processes, drivers or instances, or instances are nested
    /// too deeply.
    TooMany,
}

/// A fault, and the offset of the first byte of the token at fault.
#[derive(Clone, Copy)]
pub struct Fault {
    pub kind: Kind,
    pub at: usize,
}

/// The number of a kind: of two faults at one place, the one with the smaller number is reported.
fn number_of(kind: Kind) -> usize
    ensures { result ≡ number_of kind }
{
    kind as usize
}

/// Records a fault if it precedes the known one.
pub fn note(first: &mut Option<Fault>, kind: Kind, at: usize)
    ensures { first.new ≡ sooner first.old (record { kind = kind; at = at }) }
{
    match first {
        Some(known) => {
            if at < known.at || (at == known.at && number_of(kind) < number_of(known.kind)) {
                *first = Some(Fault { kind, at });
            }
        }
        None => *first = Some(Fault { kind, at }),
    }
}
