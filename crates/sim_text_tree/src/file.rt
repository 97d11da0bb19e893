//! Design files (IEEE 1076-2008, 13.1).

use crate::list::NonEmpty;
use crate::unit::DesignUnit;
use std::marker::Model;

/// A design file: its design units in order. Some list of tokens spells it within the limits: no
/// time is larger than the largest, at most 64 parentheses of an expression and 64 ifs of a process
/// are open, and everything that the grammar requires is present.
pub struct DesignFile {
    units: NonEmpty<DesignUnit>,
}

/// Written by hand so that crates which drop a file need no proof about its contents.
impl Drop for DesignFile {
    fn drop(self) {
        let DesignFile { units } = self;
        drop(units);
    }
}

impl Model for DesignFile {
    ghost use Rattle.std.specs.Prelude.{List};
    ghost use Rattle.sim_text_tokens.specs.Token.{Token};
    ghost use Rattle.sim_text_tree.specs.DesignFile.{DesignFile};
    ghost use Rattle.sim_text_tree.specs.Grammar.{AreUnits};
    ghost use Rattle.std.specs.Coded.{codes};
    ghost use Rattle.sim_text_tree.specs.contracts.expression.Expression as expression;
    ghost use Rattle.sim_text_tree.specs.contracts.sequential.Statement as statement;
    ghost use Rattle.sim_text_tree.specs.contracts.sequential.Sequential as sequential;

    ghost Value = { DesignFile };

    ghost coded = { Prim.hlevel (codes, expression.the_row.coded, statement.the_row.coded, sequential.the_row.coded) };

    ghost view = { λ f. record { units = f.units } };

    ghost invariant = { λ f. ∥ ((tokens : List Token) × AreUnits f.units tokens) ∥₁ };
}

impl DesignFile {
    ghost use Rattle.std.specs.Prelude.{◌≡◌, List};
    ghost use Rattle.sim_text_tokens.specs.Token.{Token};
    ghost use Rattle.sim_text_tree.specs.Grammar.{AreUnits};

    /// The file of these units, which some list of tokens spells within the limits.
    pub fn new(units: NonEmpty<DesignUnit>) -> DesignFile
        requires { (tokens : List Token) × AreUnits units tokens }
        ensures { result ≡ record { units = units } }
    {
        DesignFile { units }
    }

    /// The design units, in order.
    pub fn units(&self) -> &[DesignUnit]
        ensures { result.now ≡ self.now.units }
    {
        self.units.as_slice()
    }
}
