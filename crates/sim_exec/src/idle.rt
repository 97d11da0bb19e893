//! Executions that assign nothing.

ghost use Rattle.std.specs.Prelude.{ℕ, ◌≡◌, IsTrue, map, not};
ghost use Rattle.sim_standard.specs.State.{Owned};
ghost use Rattle.sim_standard.specs.Statements.{own_steps, statement_done, branch_done, if_taken, in_turn};
ghost use Rattle.sim_exec_statements.specs.Branches.{one_holds};

use sim_exec_statements::{Nets, boolean_value};
use sim_flat_design::Held;
use sim_flat_design::statement::{Branch, Statement};

/// Returns true if these statements are known to assign nothing: they are examined up to the first
/// assignment, or the first condition of a branch that holds. `false` says nothing about them.
#[cycle(idle)]
#[tactic(auto, unfolding(sim_standard::specs::Statements::in_turn))]
pub(crate) fn assign_nothing<N: Nets>(
    nets: &N,
    variables: &[Held],
    statements: &[Statement],
) -> bool
    ensures { IsTrue result → (now : ℕ) (own : Owned) → own.variables ≡ variables.now
        → in_turn (map (statement_done (own_steps (N.look nets.now) now)) statements.now) own ≡ own }
{
    for statement in statements {
        if !assigns_nothing(nets, variables, statement) {
            return false;
        }
    }
    true
}

/// Returns true if a statement is known to assign nothing.
#[cycle(idle)]
#[tactic(auto, using(sim_standard::proofs::Rules::statements_are))]
fn assigns_nothing<N: Nets>(nets: &N, variables: &[Held], statement: &Statement) -> bool
    ensures { IsTrue result → (now : ℕ) (own : Owned) → own.variables ≡ variables.now
        → statement_done (own_steps (N.look nets.now) now) statement.now own ≡ own }
{
    match statement {
        Statement::Signal(_)
        | Statement::LogicVariable { .. }
        | Statement::BooleanVariable { .. } => false,
        Statement::If {
            branches,
            otherwise,
        } => {
            none_is_taken(nets, variables, branches.as_slice())
                && assign_nothing(nets, variables, otherwise.as_slice())
        }
        Statement::Null => true,
    }
}

/// Returns true if no condition of these branches holds.
#[tactic(auto, using(sim_standard::proofs::Rules::branch_is), unfolding(sim_exec_statements::specs::Branches::one_holds))]
fn none_is_taken<N: Nets>(nets: &N, variables: &[Held], branches: &[Branch]) -> bool
    ensures none { IsTrue result → (now : ℕ) (otherwise : Owned → Owned) (own : Owned) → own.variables ≡ variables.now
        → if_taken (map (branch_done (own_steps (N.look nets.now) now)) branches.now) otherwise own ≡ otherwise own }
    ensures some { (now : ℕ) (own : Owned) → own.variables ≡ variables.now → one_holds (N.look nets.now) now branches.now own ≡ not result }
{
    for branch in branches {
        if boolean_value(nets, variables, &branch.condition) {
            return false;
        }
    }
    true
}
