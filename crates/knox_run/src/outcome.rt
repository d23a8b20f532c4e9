//! What a run comes to before it writes.
use crate::checking::CheckEnd;
use knox_verify::{Letter, TextWhy, Verdict};
use proof_text::ProofFault;
use sat_core::Solved;

/// What is wrong with a text.
#[derive(Clone, Copy, Debug, PartialEq, Eq)]
pub enum TextFault {
    /// This, of a text of a verify command; or any text is too long.
    OfDevice(TextWhy),
    /// This, of a formula or a proof.
    OfProof(ProofFault),
}

/// What a run has to say.
#[derive(Drop)]
pub enum Outcome {
    /// The words are no command.
    NoCommand,
    /// The command, or a text's form, isn't built yet.
    Unbuilt,
    /// The read of this one of the command's texts, counted from 0, failed.
    Unread(usize),
    /// This text has this fault.
    Text(Letter, TextFault),
    /// The five texts have this verdict.
    Judged(Verdict),
    /// The check of a proof ends so.
    Checked(CheckEnd),
    /// A formula comes to this.
    Solved(Solved),
    /// Memory ran out.
    Memory,
}
