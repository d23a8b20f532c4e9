//! A small formula that can't be satisfied, and what is refused.
use knox_cnf::{Clause, Cnf, Lit};
use lrat_check::{Derivation, Step};
use sqlite_items::Items;
use std::alloc::Global;
use std::test::Fail;

pub fn lits(alloc: Global, numbers: &[i64]) -> Result<Items<Lit>, Fail> {
    let mut lits = Items::new(alloc);
    for number in numbers {
        lits.push(Lit::new(*number).ok_or("a number of a literal")?)?;
    }
    Ok(lits)
}

/// Each of the four clauses over two variables.
pub fn formula(alloc: Global) -> Result<Cnf, Fail> {
    let mut clauses = Items::new(alloc);
    let rows: [[i64; 2]; 4] = [[1, 2], [-1, 2], [1, -2], [-1, -2]];
    for row in rows {
        let made = lits(alloc, &row)?;
        clauses.push(Clause::from_lits(alloc, made.as_slice())?)?;
    }
    Ok(Cnf { vars: 2, clauses })
}

#[test]
fn a_refutation_is_admitted(rt: HostRuntime) -> Result<(), Fail> {
    let mut derivation = Derivation::new(rt.alloc(), formula(rt.alloc())?)?;
    let second = lits(rt.alloc(), &[2])?;
    assert_eq!(rt; derivation.admit(5, second.as_slice(), &[1, 2]), Ok(()));
    assert!(rt; !derivation.closed());
    assert_eq!(rt; derivation.delete(&[1]), Ok(()));
    assert_eq!(rt; derivation.delete(&[2, 2]), Err(Step::NoSuchClause(2)));
    assert_eq!(rt; derivation.admit(6, &[], &[5, 3, 4]), Ok(()));
    assert!(rt; derivation.closed());
    assert_eq!(rt; derivation.lemmas().len(), 2);
    Ok(())
}

#[test]
fn what_does_not_follow_is_refused(rt: HostRuntime) -> Result<(), Fail> {
    let mut derivation = Derivation::new(rt.alloc(), formula(rt.alloc())?)?;
    let second = lits(rt.alloc(), &[2])?;
    let second = second.as_slice();
    assert_eq!(rt;
        derivation.admit(5, second, &[1, 7]),
        Err(Step::NoSuchClause(7))
    );
    assert_eq!(rt; derivation.admit(5, second, &[1]), Err(Step::NoConflict));
    assert_eq!(rt; derivation.admit(5, &[], &[2]), Err(Step::NotUnit(2)));
    assert_eq!(rt;
        derivation.admit(4, second, &[1, 2]),
        Err(Step::IdNotNew(4))
    );
    assert_eq!(rt; derivation.admit(5, second, &[1, -2]), Err(Step::Rat(5)));
    let far = lits(rt.alloc(), &[i64::MAX, -i64::MAX])?;
    assert_eq!(rt; derivation.admit(5, far.as_slice(), &[]), Ok(()));
    Ok(())
}
