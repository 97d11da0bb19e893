//! The times of all waveforms of a body ascend (IEEE 1076-2008, 10.5.2.2). The type `Waveform`
//! ensures it; these functions only visit all waveforms, to pass it on.

ghost use Rattle.std.specs.Prelude.{◌≡◌, [], ◌∷◌, true, map, Some};
ghost use Rattle.sim_flat_design.specs.declared.statement.Statement.TheVariants as variants;
ghost use Rattle.sim_flat_design.specs.Bodies.{all};
ghost use Rattle.sim_exec_code.specs.Bodies.{rises};
ghost use Rattle.sim_exec_code.specs.Fitting as spec;

use sim_flat_design::statement::{Branch, ConditionalWaveform, SignalAssignment, Statement};
use sim_flat_design::waveform::Waveform;

/// The times of a waveform ascend.
#[tactic(auto, using(crate::proofs::TimesRise::waveform_rises))]
fn waveform_rises(waveform: &Waveform)
    ensures { rises waveform.now ≡ true }
{
    let _elements = waveform.elements();
}

/// The times of each waveform that has a condition ascend.
fn conditionals_rise(conditionals: &[ConditionalWaveform])
    ensures { all (map spec.conditional_rises conditionals.now) ≡ true }
{
    for conditional in conditionals {
        waveform_rises(&conditional.waveform);
    }
}

/// The times of the waveform without a condition ascend, if there is one.
fn last_rises(last: &Option<Waveform>)
    ensures { spec.last_rises last.now ≡ true }
{
    if let Some(last) = last {
        waveform_rises(last);
    }
}

/// The times of each waveform of a signal assignment ascend.
#[tactic(auto, using(crate::proofs::TimesRise::assignment_is))]
fn assignment_rises(assignment: &SignalAssignment)
    ensures { spec.assignment_rises assignment.now ≡ true }
{
    conditionals_rise(assignment.conditional.as_slice());
    last_rises(&assignment.otherwise);
}

/// The times of each waveform in a statement ascend.
#[cycle(rising)]
#[tactic(auto, using(crate::proofs::TimesRise::statements_rise))]
fn statement_rises(statement: &Statement)
    ensures { spec.statement_rises statement.now ≡ true }
{
    match statement {
        Statement::Signal(own) => assignment_rises(own),
        Statement::If {
            branches,
            otherwise,
        } => {
            branches_rise(branches.as_slice());
            all_rise(otherwise.as_slice());
        }
        Statement::LogicVariable { .. } | Statement::BooleanVariable { .. } | Statement::Null => {}
    }
}

/// The times of each waveform in branches ascend.
#[cycle(rising)]
fn branches_rise(branches: &[Branch])
    ensures { all (map spec.branch_rises branches.now) ≡ true }
{
    for branch in branches {
        branch_rises(branch);
    }
}

/// The times of each waveform in a branch ascend.
#[cycle(rising)]
fn branch_rises(branch: &Branch)
    ensures { spec.branch_rises branch.now ≡ true }
{
    all_rise(branch.statements.as_slice());
}

/// The times of each waveform in a list of statements ascend.
#[cycle(rising)]
#[tactic(auto, unfolding(crate::specs::Fitting::waveforms_rise))]
pub fn all_rise(statements: &[Statement])
    ensures { spec.waveforms_rise statements.now ≡ true }
{
    for statement in statements {
        statement_rises(statement);
    }
}

/// The times of each waveform of an if statement ascend.
#[tactic(auto, unfolding(crate::specs::Fitting::waveforms_rise), using(crate::proofs::TimesRise::statements_rise))]
pub fn if_rises(branches: &[Branch], otherwise: &[Statement])
    ensures { spec.waveforms_rise (variants.If branches.now otherwise.now ∷ []) ≡ true }
{
    branches_rise(branches);
    all_rise(otherwise);
}

/// The times of each waveform of a conditional signal assignment ascend.
#[tactic(auto, unfolding(crate::specs::Fitting::waveforms_rise), using(crate::proofs::TimesRise::statements_rise))]
pub fn conditional_rises(
    assignment: &SignalAssignment,
    conditionals: &[ConditionalWaveform],
    last: &Waveform,
)
    ensures { spec.waveforms_rise (variants.Signal
        (record assignment.now { conditional = conditionals.now; otherwise = Some last.now }) ∷ []) ≡ true }
{
    conditionals_rise(conditionals);
    waveform_rises(last);
}
