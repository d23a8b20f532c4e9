//! The check of a lemma against the live clauses, and its parts.
ghost use Rattle.std.specs.Prelude.{◌≡◌, [], map, OnOk, IfErr};
ghost use Rattle.std.specs.List.{list_any};
ghost use Rattle.knox_cnf.specs.Literals.{has, complement};
ghost use Rattle.lrat_check.specs.declared.step.Step.TheVariants.{Memory};
ghost use Rattle.lrat_check.specs.Hints.{Answers, Takes, after_clause, after_hints, take_hints as hints_taken, check as checked, is_negative};
ghost use Rattle.lrat_check.specs.Marks.{all_with_true, Extends};
ghost use Rattle.lrat_check.specs.Derivations.{live_clause};

use crate::database::Database;
use crate::marks::Marks;
use crate::reading::{Reading, read};
use crate::step::Step;
use knox_cnf::Lit;

/// Takes one hint: true where the check has ended.
fn take_hint(database: &Database, marks: &mut Marks, id: u64) -> Result<bool, Step>
    ensures takes { Takes (after_clause marks.old id (live_clause database.now id)) result marks.new }
    ensures more { Extends marks.old marks.new }
{
    let Some(clause) = database.live_clause(id) else {
        return Err(Step::NoSuchClause(id));
    };
    match read(marks, clause.lits()) {
        Reading::False => Ok(true),
        Reading::Other => Err(Step::NotUnit(id)),
        Reading::Unit(lit) => {
            if marks.assume(lit).is_err() {
                return Err(Step::Memory);
            }
            Ok(false)
        }
    }
}

/// Takes hints in order: true where the check has ended.
pub fn walk_hints(database: &Database, marks: &mut Marks, hints: &[i64]) -> Result<bool, Step>
    ensures takes { Takes (after_hints (live_clause database.now) marks.old hints.now) result marks.new }
    ensures more { Extends marks.old marks.new }
{
    for hint in hints {
        let id = hint.unsigned_abs();
        match take_hint(database, marks, id) {
            Err(step) => return Err(step),
            Ok(true) => return Ok(true),
            Ok(false) => {}
        }
    }
    Ok(false)
}

fn take_hints(database: &Database, marks: &mut Marks, hints: &[i64]) -> Result<(), Step>
    ensures { Answers result (hints_taken (live_clause database.now) marks.old hints.now) }
{
    match walk_hints(database, marks, hints) {
        Err(step) => Err(step),
        Ok(true) => Ok(()),
        Ok(false) => Err(Step::NoConflict),
    }
}

/// Takes the literals to be false.
pub fn deny(marks: &mut Marks, lits: &[Lit]) -> Result<(), Step>
    ensures ok { OnOk result (marks.new ≡ all_with_true marks.old (map complement lits.now)) }
    ensures err { IfErr result (λ step. step ≡ Memory) }
    ensures more { Extends marks.old marks.new }
{
    for lit in lits {
        if marks.assume(lit.complement()).is_err() {
            return Err(Step::Memory);
        }
    }
    Ok(())
}

/// Whether a literal of the lemma is true.
pub fn is_contradictory(marks: &Marks, lits: &[Lit]) -> bool
    ensures { result ≡ list_any (has marks.now) lits.now }
{
    lits.iter().any(|lit| marks.holds(*lit))
}

/// Checks a lemma, and leaves assumptions behind.
pub fn check(
    database: &Database,
    marks: &mut Marks,
    lits: &[Lit],
    hints: &[i64],
) -> Result<(), Step>
    requires { marks.old ≡ [] }
    ensures { Answers result (checked (live_clause database.now) lits.now hints.now) }
{
    match deny(marks, lits) {
        Ok(()) => {}
        Err(step) => return Err(step),
    }
    if is_contradictory(marks, lits) {
        return Ok(());
    }
    take_hints(database, marks, hints)
}

/// Whether a hint is negative.
pub fn has_negative(hints: &[i64]) -> bool
    ensures { result ≡ list_any is_negative hints.now }
{
    hints.iter().any(|hint| *hint < 0)
}
