//! Lines of a proof.
use knox_cnf::Lit;
use sqlite_items::Items;

/// A line of a proof. The first part is the number of the text's line.
#[derive(Debug, Drop)]
pub enum ProofLine {
    /// Adds a lemma: its id, its literals and its hints.
    Add(u32, u64, Items<Lit>, Items<i64>),
    /// Deletes clauses: their ids.
    Delete(u32, Items<u64>),
}
