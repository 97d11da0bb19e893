//! Waveforms and delays (IEEE 1076-2008, 10.5).

use crate::expression::Expression;
use crate::list::NonEmpty;
use crate::name::Name;
use crate::time::TimeLiteral;
use sqlite_items::Items;

/// A waveform element (10.5.2.1).
#[derive(Drop)]
pub struct Element {
    pub value: Expression,
    pub after: Option<TimeLiteral>,
}

/// A waveform: at least one element (10.5.2.1).
pub type Waveform = NonEmpty<Element>;

/// A waveform and the condition after its `when` (10.5.3).
#[derive(Drop)]
pub struct ConditionalWaveform {
    pub waveform: Waveform,
    pub condition: Expression,
}

/// The waveforms of a concurrent signal assignment (10.5.3, 11.6).
#[derive(Drop)]
pub struct ConditionalWaveforms {
    pub conditional: Items<ConditionalWaveform>,
    /// The waveform without a condition: the only one, or the one after the last `else`.
    pub otherwise: Option<Waveform>,
}

/// A delay mechanism (10.5.2.1).
#[derive(Drop)]
pub enum DelayMechanism {
    Unwritten,
    Transport,
    Inertial,
    /// `reject TIME inertial`
    Reject(TimeLiteral),
}

/// A concurrent signal assignment statement (11.6).
#[derive(Drop)]
pub struct ConcurrentSignalAssignment {
    pub label: Option<Name>,
    pub postponed: bool,
    pub target: Name,
    pub delay: DelayMechanism,
    pub waveforms: ConditionalWaveforms,
}
