//! Waveforms of a process (IEEE 1076-2008, 10.5.2).

ghost use Rattle.std.specs.Prelude.{◌≡◌};
ghost use Rattle.std.specs.Bool.{Decides};

use crate::expression::LogicExpression;
use sim_logic::Time;
use sqlite_items::Items;
use std::marker::Model;

/// A waveform element: a value, and its delay.
#[derive(Drop)]
pub struct Element {
    pub value: LogicExpression,
    pub after: Time,
}

/// A waveform: at least one element, with strictly ascending delays.
#[derive(Drop)]
pub struct Waveform {
    elements: Items<Element>,
}

impl Element {
    /// Whether the two elements are equal.
    fn same(&self, other: &Element) -> bool
        ensures { Decides result (self.now ≡ other.now) }
    {
        self.after == other.after && self.value.same(&other.value)
    }
}

/// Whether these are the same elements, in the same order.
fn same_elements(elements: &[Element], others: &[Element]) -> bool
    ensures { Decides result (elements.now ≡ others.now) }
{
    elements.len() == others.len()
        && elements
            .iter()
            .zip(others)
            .all(|(element, other)| element.same(other))
}

impl Model for Waveform {
    ghost use Rattle.std.specs.Prelude.{List};
    ghost use Rattle.sim_flat_design.specs.declared.waveform.Element.{Element};
    ghost use Rattle.sim_flat_design.specs.contracts.expression.LogicExpression as logic;
    ghost use Rattle.sim_flat_design.specs.Waveforms.{IsWaveform};
    ghost use Rattle.std.specs.Coded.{codes};

    ghost Value = { List Element };

    ghost coded = { Prim.hlevel (codes, logic.the_row.coded) };

    ghost view = { λ w. w.elements };

    ghost invariant = { λ w. IsWaveform w.elements };
}

impl Waveform {
    ghost use Rattle.std.specs.Prelude.{◌≡◌};
    ghost use Rattle.std.specs.Bool.{Decides};
    ghost use Rattle.sim_flat_design.specs.Waveforms.{IsWaveform};

    /// The waveform of these elements.
    pub fn new(elements: Items<Element>) -> Waveform
        requires { IsWaveform elements }
        ensures { result ≡ elements }
    {
        Waveform { elements }
    }

    /// The elements: at least one, with strictly ascending delays.
    pub fn elements(&self) -> &[Element]
        ensures value { result.now ≡ self.now }
        ensures waveform { IsWaveform result.now }
    {
        self.elements.as_slice()
    }

    /// Whether the two waveforms are equal.
    pub(crate) fn same(&self, other: &Waveform) -> bool
        ensures { Decides result (self.now ≡ other.now) }
    {
        same_elements(self.elements(), other.elements())
    }
}
