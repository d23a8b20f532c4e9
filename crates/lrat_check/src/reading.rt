//! What a clause says where some literals are taken to be true.
ghost use Rattle.std.specs.Prelude.{◌≡◌};
ghost use Rattle.lrat_check.specs.Reading.{reading_of};

use crate::marks::Marks;
use knox_cnf::Lit;

/// All literals are false, all but this one are, or neither.
#[derive(Clone, Copy, Debug)]
pub enum Reading {
    False,
    Unit(Lit),
    Other,
}

pub fn read(marks: &Marks, lits: &[Lit]) -> Reading
    ensures { result ≡ reading_of marks.now lits.now }
{
    let mut only = None;
    for lit in lits {
        if !marks.holds(lit.complement()) {
            match only {
                None => only = Some(*lit),
                Some(first) => {
                    if first != *lit {
                        return Reading::Other;
                    }
                }
            }
        }
    }
    match only {
        None => Reading::False,
        Some(lit) => Reading::Unit(lit),
    }
}
