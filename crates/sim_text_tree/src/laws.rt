//! Laws of the syntax tree and its spelling.

ghost use Rattle.std.specs.Prelude.{◌≡◌, ℕ};
ghost use Rattle.sim_text_tree.specs.declared.expression.Expression.{Expression};
ghost use Rattle.sim_text_tree.specs.Grammar.{of_expression};
ghost use Rattle.sim_text_tree.specs.Input.{Input, place};
ghost use Rattle.sim_text_tree.specs.Starts.{start_of};
ghost use Rattle.sim_text_tree.specs.Writing.{Fits};

/// An expression starts where the first of its tokens starts.
pub fn an_expression_starts_with_its_first_token()
    ensures { (parentheses ifs : ℕ) (x : Expression) (i j : Input) →
        Fits parentheses ifs (of_expression x) i j → start_of x ≡ place i }
{}
