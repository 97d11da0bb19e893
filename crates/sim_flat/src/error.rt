//! Why a file has no flat design.

ghost use Rattle.std.specs.Prelude.{◌≡◌};
ghost use Rattle.sim_flat.specs.declared.error.FlatError.TheVariants as fault;
ghost use Rattle.sim_flat.specs.Refusals.{refusal_of};

use sim_flat_scope::{Fault, Kind};
use std::alloc::{AllocError, AllocFailed};
use thiserror::Error;

/// A refusal of `flatten`. Positions are offsets of the first byte of a token, from 0; `Display`
/// writes the text of the program's line on standard error.
#[derive(Clone, Copy, Debug, PartialEq, Eq, Error)]
pub enum FlatError {
    /// An allocation failed.
    #[error("Memory")]
    Memory,
    /// No entity has the name of the top.
    #[error("NoTop")]
    NoTop,
    /// A name is declared twice (12.3).
    #[error("Duplicate at {at}")]
    Duplicate { at: usize },
    /// A predefined name is declared.
    #[error("Predefined at {at}")]
    Predefined { at: usize },
    /// No such name is declared (12.3).
    #[error("Unknown at {at}")]
    Unknown { at: usize },
    /// A name has a meaning that is not allowed at its place.
    #[error("WrongKind at {at}")]
    WrongKind { at: usize },
    /// Two operands, or a value and its target, have different types (9.2, 10.5, 10.6).
    #[error("TypeClash at {at}")]
    TypeClash { at: usize },
    /// The operands of `=` or `/=`, the operand of `??`, or a condition are of type std_ulogic and
    /// contain no name (9.2.9, 12.5).
    #[error("Ambiguous at {at}")]
    Ambiguous { at: usize },
    /// A port of mode out is read. The rule is our own: the standard has allowed this since 2008.
    #[error("ReadOut at {at}")]
    ReadOut { at: usize },
    /// A port of mode in is assigned (6.5.2).
    #[error("WriteIn at {at}")]
    WriteIn { at: usize },
    /// A port of mode in without a default expression is left open or unassociated (6.5.6.3).
    #[error("PortMissing at {at}")]
    PortMissing { at: usize },
    /// A port is associated twice (6.5.7).
    #[error("PortTwice at {at}")]
    PortTwice { at: usize },
    /// The mode of a port does not allow its actual. The rule is stricter than the standard's
    /// (6.5.6.3).
    #[error("ModeClash at {at}")]
    ModeClash { at: usize },
    /// The ports of a component differ from those of its entity (7.3.3).
    #[error("ComponentDiffers at {at}")]
    ComponentDiffers { at: usize },
    /// An entity has no architecture, or not the named one (7.3.3).
    #[error("NoArchitecture at {at}")]
    NoArchitecture { at: usize },
    /// An architecture contains itself, through instances.
    #[error("Recursive at {at}")]
    Recursive { at: usize },
    /// A signal or port of type std_ulogic has more than one source (6.4.2.3).
    #[error("ManySources at {at}")]
    ManySources { at: usize },
    /// The delays of a waveform do not ascend (10.5.2.2).
    #[error("NotAscending at {at}")]
    NotAscending { at: usize },
    /// A rejection limit is larger than the first delay of its waveform (10.5.2.1).
    #[error("RejectTooLong at {at}")]
    RejectTooLong { at: usize },
    /// There are too many elements, nets, processes, drivers or instances, or instances are nested
    /// too deeply.
    #[error("TooMany at {at}")]
    TooMany { at: usize },
}

impl From<AllocError> for FlatError {
    ghost from_gives = { λ _ e. e ≡ fault.Memory };

    fn from(_e: AllocError) -> FlatError {
        FlatError::Memory
    }
}

impl<T: Drop> From<AllocFailed<T>> for FlatError {
    ghost from_gives = { λ _ e. e ≡ fault.Memory };

    fn from(_e: AllocFailed<T>) -> FlatError {
        FlatError::Memory
    }
}

/// The refusal that reports a fault.
pub fn refusal_of(found: Fault) -> FlatError
    ensures { result ≡ refusal_of found }
{
    let at = found.at;
    match found.kind {
        Kind::Duplicate => FlatError::Duplicate { at },
        Kind::Predefined => FlatError::Predefined { at },
        Kind::Unknown => FlatError::Unknown { at },
        Kind::WrongKind => FlatError::WrongKind { at },
        Kind::TypeClash => FlatError::TypeClash { at },
        Kind::Ambiguous => FlatError::Ambiguous { at },
        Kind::ReadOut => FlatError::ReadOut { at },
        Kind::WriteIn => FlatError::WriteIn { at },
        Kind::PortMissing => FlatError::PortMissing { at },
        Kind::PortTwice => FlatError::PortTwice { at },
        Kind::ModeClash => FlatError::ModeClash { at },
        Kind::ComponentDiffers => FlatError::ComponentDiffers { at },
        Kind::NoArchitecture => FlatError::NoArchitecture { at },
        Kind::Recursive => FlatError::Recursive { at },
        Kind::ManySources => FlatError::ManySources { at },
        Kind::NotAscending => FlatError::NotAscending { at },
        Kind::RejectTooLong => FlatError::RejectTooLong { at },
        Kind::TooMany => FlatError::TooMany { at },
    }
}
