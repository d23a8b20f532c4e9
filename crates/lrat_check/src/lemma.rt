//! Lemmas.
use knox_cnf::Clause;
use sqlite_items::Items;

/// A clause that follows from the clauses before it, with the ids of those that show it.
#[derive(Debug, Drop)]
pub struct Lemma {
    pub id: u64,
    pub lits: Clause,
    pub hints: Items<i64>,
}
