//! A formula while its text is read.
use knox_cnf::{Clause, Lit};
use sqlite_items::Items;

/// What the next token is to be.
#[derive(Clone, Copy)]
pub enum Stage {
    /// `p`
    Start,
    /// `cnf`
    Format,
    /// The number of variables.
    Variables,
    /// The number of clauses.
    Clauses,
    /// A number of a clause.
    Body,
}

/// What was read so far. An open clause has literals and no 0 yet.
#[derive(Drop)]
pub struct Draft {
    pub stage: Stage,
    pub vars: u32,
    pub count: u32,
    pub clauses: Items<Clause>,
    pub open_clause: Items<Lit>,
}
