//! The check of a lemma against the live clauses.
ghost use Rattle.std.specs.Prelude.{◌≡◌, ◌++◌, ◌∷◌, [], true, map, OnOk, IfErr};
ghost use Rattle.std.specs.List.{list_any};
ghost use Rattle.knox_cnf.specs.Literals.{has, complement};
ghost use Rattle.lrat_check.specs.Register.{all_ids, Rises};
ghost use Rattle.lrat_check.specs.Marks.{all_with_true, Extends};
ghost use Rattle.lrat_check.specs.Hints.{after_hints};
ghost use Rattle.lrat_check.specs.Derivations.{entries_of, live_clause};
ghost use Rattle.rat_check.specs.Groups.{parts_of, group};
ghost use Rattle.rat_check.specs.Occurrences.{AreListed};
ghost use Rattle.rat_check.specs.Rat.{told as told_of, others, group_ended, group_shown as shown, group_answer, groups_answer, pivotless, left_over, by_pivot as answer_by_pivot, check as checked, Answers};

use crate::covering::{first_uncovered, holds};
use crate::grouping::lead_len;
use crate::occurrences::Occurrences;
use crate::rat_step::RatStep;
use knox_cnf::Lit;
use lrat_check::{Database, Marks, Step, deny, is_contradictory, walk_hints};

fn told(step: Step) -> RatStep
    ensures { result ≡ told_of step }
{
    match step {
        Step::NoSuchClause(id) => RatStep::NoSuchClause(id),
        Step::NotUnit(id) => RatStep::NotUnit(id),
        Step::Memory => RatStep::Memory,
        _ => RatStep::NoConflict,
    }
}

/// Whether a literal of the clause, but for this one, is true.
fn is_satisfied(marks: &Marks, lit: Lit, clause: &[Lit]) -> bool
    ensures { result ≡ list_any (has marks.now) (others lit clause.now) }
{
    clause
        .iter()
        .filter(|other| lit != **other)
        .any(|other| marks.holds(*other))
}

/// Takes the literals of the clause, but for this one, to be false.
fn deny_others(marks: &mut Marks, lit: Lit, clause: &[Lit]) -> Result<(), RatStep>
    ensures ok { OnOk result (marks.new ≡ all_with_true marks.old (map complement (others lit clause.now))) }
    ensures err { IfErr result (λ step. step ≡ RatStep.Memory) }
    ensures more { Extends marks.old marks.new }
{
    for other in clause {
        if lit != *other && marks.assume(other.complement()).is_err() {
            return Err(RatStep::Memory);
        }
    }
    Ok(())
}

/// Takes the hints of a group, and leaves assumptions behind.
fn show_group(
    database: &Database,
    marks: &mut Marks,
    lit: Lit,
    clause: &[Lit],
    hints: &[i64],
) -> Result<(), RatStep>
    ensures answer { Answers result (group_ended (after_hints (live_clause database.now) (all_with_true marks.old (map complement (others lit clause.now))) hints.now)) }
    ensures more { Extends marks.old marks.new }
{
    match deny_others(marks, lit, clause) {
        Ok(()) => {}
        Err(step) => return Err(step),
    }
    match walk_hints(database, marks, hints) {
        Err(step) => Err(told(step)),
        Ok(true) => Ok(()),
        Ok(false) => Err(RatStep::NoConflict),
    }
}

/// Takes one group, and takes back what it assumed.
fn take_group(
    database: &Database,
    marks: &mut Marks,
    lit: Lit,
    id: u64,
    hints: &[i64],
) -> Result<(), RatStep>
    ensures answer { Answers result (group_answer (live_clause database.now) lit marks.old (group id hints.now)) }
    ensures same { marks.new ≡ marks.old }
{
    let Some(clause) = database.live_clause(id) else {
        return Err(RatStep::NoSuchClause(id));
    };
    if !holds(clause.lits(), lit) {
        return Err(RatStep::NotPivot(id));
    }
    if is_satisfied(marks, lit, clause.lits()) {
        return Ok(());
    }
    let first = marks.len();
    let answer = show_group(database, marks, lit, clause.lits(), hints);
    marks.undo(first);
    answer
}

/// Takes groups in order.
fn take_groups(
    database: &Database,
    marks: &mut Marks,
    lit: Lit,
    hints: &[i64],
) -> Result<(), RatStep>
    requires { (parts_of hints.now).lead ≡ [] }
    ensures answer { Answers result (groups_answer (live_clause database.now) lit marks.old (parts_of hints.now).groups) }
    ensures same { marks.new ≡ marks.old }
{
    let mut left = hints;
    while let Some((first, more)) = left.split_first() {
        let own = lead_len(more);
        let id = first.unsigned_abs();
        match take_group(database, marks, lit, id, &more[..own]) {
            Ok(()) => {}
            Err(step) => return Err(step),
        }
        left = &more[own..];
    }
    Ok(())
}

/// Why the empty lemma is refused.
fn without_pivot(hints: &[i64]) -> RatStep
    requires { (parts_of hints.now).lead ≡ [] }
    ensures { result ≡ pivotless (parts_of hints.now).groups }
{
    match hints.split_first() {
        None => RatStep::NoConflict,
        Some(_) => RatStep::NoPivot,
    }
}

/// Why a lemma is refused where this clause is left.
fn without_group(hints: &[i64], id: u64) -> RatStep
    requires { (parts_of hints.now).lead ≡ [] }
    ensures { result ≡ left_over (parts_of hints.now).groups id }
{
    match hints.split_first() {
        None => RatStep::NoConflict,
        Some(_) => RatStep::Uncovered(id),
    }
}

/// Checks a lemma by its pivot, where the hints before the groups showed nothing.
fn check_by_pivot(
    database: &Database,
    occurrences: &Occurrences,
    marks: &mut Marks,
    lits: &[Lit],
    hints: &[i64],
) -> Result<(), RatStep>
    requires rises { Rises (all_ids (entries_of database.now)) }
    requires listed { AreListed database.now occurrences.now }
    requires begins { (parts_of hints.now).lead ≡ [] }
    ensures { Answers result (answer_by_pivot (live_clause database.now) (all_ids (entries_of database.now)) lits.now (parts_of hints.now).groups marks.old) }
{
    let Some((pivot, _)) = lits.split_first() else {
        return Err(without_pivot(hints));
    };
    let lit = pivot.complement();
    match take_groups(database, marks, lit, hints) {
        Ok(()) => {}
        Err(step) => return Err(step),
    }
    match first_uncovered(database, occurrences, lit, hints) {
        None => Ok(()),
        Some(id) => Err(without_group(hints, id)),
    }
}

/// Checks a lemma, and leaves assumptions behind.
pub fn check(
    database: &Database,
    occurrences: &Occurrences,
    marks: &mut Marks,
    lits: &[Lit],
    hints: &[i64],
) -> Result<(), RatStep>
    requires rises { Rises (all_ids (entries_of database.now)) }
    requires listed { AreListed database.now occurrences.now }
    requires marks { marks.old ≡ [] }
    ensures { Answers result (checked (live_clause database.now) (all_ids (entries_of database.now)) lits.now hints.now) }
{
    match deny(marks, lits) {
        Ok(()) => {}
        Err(step) => return Err(told(step)),
    }
    if is_contradictory(marks, lits) {
        return Ok(());
    }
    let lead = lead_len(hints);
    match walk_hints(database, marks, &hints[..lead]) {
        Err(step) => return Err(told(step)),
        Ok(true) => return Ok(()),
        Ok(false) => {}
    }
    check_by_pivot(database, occurrences, marks, lits, &hints[lead..])
}
