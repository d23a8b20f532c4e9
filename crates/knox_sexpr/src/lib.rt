//! Texts of trees in parentheses. Start at `read`. `specs/Tokens.antt` says which tokens a text has,
//! `specs/Grammar.antt` which trees it means, `specs/Faults.antt` its first fault, and
//! `specs/Printing.antt` what trees are printed as.
#![tactic(auto)]

mod examples;
mod fault;
mod printing;
mod reading;
mod scanning;
mod token;
mod tree;

pub use examples::{faults_as_expected, tokens_as_expected};
pub use fault::SexprFault;
pub use printing::{print, printed_again};
pub use reading::{one_meaning, read};
pub use tree::Tree;
