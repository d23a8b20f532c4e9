//! Lemmas with groups of hints over the four clauses of two variables, worked by hand: -1 has the pivot's
//! complement 1 in the clauses 1 and 3.
use crate::derivations::{formula, lits};
use rat_check::{RatStep, Refutation};
use std::alloc::Global;
use std::test::Fail;

/// What the first line of a proof is answered.
fn first(alloc: Global, lemma: &[i64], hints: &[i64]) -> Result<Result<(), RatStep>, Fail> {
    let mut refutation = Refutation::new(alloc, formula(alloc)?)?;
    let lemma = lits(alloc, lemma)?;
    Ok(refutation.admit(5, lemma.as_slice(), hints))
}

#[test]
fn each_clause_with_the_complement_has_a_group(rt: HostRuntime) -> Result<(), Fail> {
    let mut refutation = Refutation::new(rt.alloc(), formula(rt.alloc())?)?;
    let lemma = lits(rt.alloc(), &[-1])?;
    assert_eq!(rt;
        refutation.admit(5, lemma.as_slice(), &[-1, 2, -3, 4]),
        Ok(())
    );
    assert!(rt; !refutation.closed());
    assert_eq!(rt; refutation.admit(6, &[], &[5, 1, 3]), Ok(()));
    assert!(rt; refutation.closed());
    assert_eq!(rt; refutation.delete(&[6, 6]), Err(RatStep::NoSuchClause(6)));
    assert_eq!(rt; refutation.delete(&[6]), Ok(()));
    assert!(rt; refutation.closed());
    Ok(())
}

#[test]
fn a_new_variable_needs_no_group(rt: HostRuntime) -> Result<(), Fail> {
    let mut refutation = Refutation::new(rt.alloc(), formula(rt.alloc())?)?;
    let lemma = lits(rt.alloc(), &[3, 1])?;
    assert_eq!(rt; refutation.admit(5, lemma.as_slice(), &[]), Ok(()));
    let second = lits(rt.alloc(), &[2])?;
    assert_eq!(rt; refutation.admit(6, second.as_slice(), &[1, 2]), Ok(()));
    assert_eq!(rt; refutation.admit(7, &[], &[6, 3, 4]), Ok(()));
    assert!(rt; refutation.closed());
    Ok(())
}

#[test]
fn what_is_refused(rt: HostRuntime) -> Result<(), Fail> {
    let alloc = rt.alloc();
    assert_eq!(rt; first(alloc, &[-1], &[-1, 2])?, Err(RatStep::Uncovered(3)));
    assert_eq!(rt; first(alloc, &[2], &[-1, 2])?, Err(RatStep::NotPivot(1)));
    assert_eq!(rt; first(alloc, &[], &[-1, 2])?, Err(RatStep::NoPivot));
    assert_eq!(rt;
        first(alloc, &[-1], &[-7, 2])?,
        Err(RatStep::NoSuchClause(7))
    );
    assert_eq!(rt; first(alloc, &[-1], &[])?, Err(RatStep::NoConflict));
    assert_eq!(rt;
        first(alloc, &[-1], &[-1, 2, -3])?,
        Err(RatStep::NoConflict)
    );
    Ok(())
}
