//! Formulas and what satisfies them.
use knox_cnf::{Assignment, Clause, Cnf, Lit, satisfies};
use sqlite_items::Items;
use std::test::Fail;

#[test]
fn a_formula_is_satisfied_by_some_values(rt: HostRuntime) -> Result<(), Fail> {
    let first = Lit::new(1).ok_or("1 is a literal")?;
    let second = Lit::new(-2).ok_or("-2 is a literal")?;
    let mut clauses = Items::new(rt.alloc());
    clauses.push(Clause::from_lits(rt.alloc(), &[first, second])?)?;
    clauses.push(Clause::from_lits(rt.alloc(), &[second.complement()])?)?;
    let cnf = Cnf { vars: 2, clauses };
    let both = Assignment {
        values: Items::from_slice(rt.alloc(), &[true, true])?,
    };
    let second_alone = Assignment {
        values: Items::from_slice(rt.alloc(), &[false, true])?,
    };
    let none = Assignment {
        values: Items::new(rt.alloc()),
    };
    assert!(rt; cnf.is_within());
    assert!(rt; satisfies(&cnf, &both));
    assert!(rt; !satisfies(&cnf, &second_alone));
    assert!(rt; !satisfies(&cnf, &none));
    Ok(())
}

#[test]
fn numbers_of_literals(rt: HostRuntime) -> Result<(), Fail> {
    assert!(rt; Lit::new(0).is_none());
    assert!(rt; Lit::new(i64::MIN).is_none());
    let last = Lit::new(-i64::MAX).ok_or("the last negation is a literal")?;
    assert_eq!(rt; last.value(), -i64::MAX);
    Ok(())
}
