//! What follows from answers.
ghost use Rattle.std.specs.Prelude.{◌<◌, ◌^◌, ℕ};
ghost use Rattle.sat_core.specs.Answers.{IsSpent};

use lrat_check::Derivation;

/// A budget that is spent is below the number of sets of literals without a complementary pair.
pub fn spent_budgets_are_small(d: &Derivation)
    ensures { (budget : ℕ) → IsSpent d.now.cnf budget d.now → budget < 3 ^ d.now.cnf.vars }
{
    let _derivation = d;
}
