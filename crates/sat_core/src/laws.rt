// Laws of spent budgets, each the contract of a function without a body.
ghost use Rattle.std.specs.Prelude.{ℕ, ℤ, List};
ghost use Rattle.clauses.specs.Spent.{Decides};

/// All variables decide clauses, so a budget above 2^(n+1) - 2 is never spent over n variables.
pub fn all_variables_decide()
    ensures { (n : ℕ) (clauses : List (List ℤ)) → Decides n n clauses }
{}
