//! How a run ends.
ghost use Rattle.std.specs.Prelude.{◌≡◌};
ghost use Rattle.knox_run.specs.Outcomes.{number_of};

/// The status of a run. The program ends with its number.
#[derive(Clone, Copy, Debug, PartialEq, Eq)]
pub enum Status {
    /// The two worlds agree.
    Yes,
    /// The command did its work: a proof is verified, or a formula is solved.
    Done,
    /// A proof is rejected.
    No,
    /// Choices falsify a hint, which shows nothing of the two worlds.
    Undecided,
    /// The budget of lemmas is spent.
    Spent,
    /// A text has a fault.
    Text,
    /// The words are no command.
    Usage,
    /// A text could not be read.
    ReadFault,
    /// A line could not be written.
    WriteFault,
    /// Memory ran out. This says nothing of the texts.
    Memory,
    /// A segment takes too many bits to be tried.
    TooWide,
    /// The command, or the form of a text, isn't built yet.
    NotYet,
}

impl Status {
    /// The number that the program ends with.
    pub fn number(self) -> u8
        ensures { result ≡ number_of self }
    {
        match self {
            Status::Yes => 0,
            Status::Done => 0,
            Status::No => 1,
            Status::Undecided => 2,
            Status::Spent => 3,
            Status::Text => 5,
            Status::Usage => 6,
            Status::ReadFault => 7,
            Status::WriteFault => 8,
            Status::Memory => 9,
            Status::TooWide => 10,
            Status::NotYet => 11,
        }
    }
}
