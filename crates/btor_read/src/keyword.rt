//! The words that begin a line's form.
ghost use Rattle.std.specs.Prelude.{◌≡◌};
ghost use Rattle.btor_read.specs.Keywords.{keyword};

use circuit_table::Why;
use knox_words::{Op1, Op2};
use operator_names::{named, op1_named, op2_named};

/// What the word behind a line's number says.
#[derive(Clone, Copy, Debug, PartialEq, Eq)]
pub enum Keyword {
    Sort,
    Input,
    State,
    Init,
    Next,
    Output,
    Bad,
    Fair,
    Justice,
    Const,
    Constd,
    Consth,
    Zero,
    One,
    Ones,
    /// An operator with one operand.
    Un(Op1),
    /// An operator with two operands.
    Bin(Op2),
    Slice,
    Uext,
    Sext,
    Ite,
    Read,
    Write,
}

/// The keywords but the plain operators, and the words that are refused by name.
static KEYWORDS: [(&[u8], Result<Keyword, Why>); 30] = [
    (b"sort", Ok(Keyword::Sort)),
    (b"input", Ok(Keyword::Input)),
    (b"state", Ok(Keyword::State)),
    (b"init", Ok(Keyword::Init)),
    (b"next", Ok(Keyword::Next)),
    (b"output", Ok(Keyword::Output)),
    (b"bad", Ok(Keyword::Bad)),
    (b"fair", Ok(Keyword::Fair)),
    (b"justice", Ok(Keyword::Justice)),
    (b"const", Ok(Keyword::Const)),
    (b"constd", Ok(Keyword::Constd)),
    (b"consth", Ok(Keyword::Consth)),
    (b"zero", Ok(Keyword::Zero)),
    (b"one", Ok(Keyword::One)),
    (b"ones", Ok(Keyword::Ones)),
    (b"slice", Ok(Keyword::Slice)),
    (b"uext", Ok(Keyword::Uext)),
    (b"sext", Ok(Keyword::Sext)),
    (b"ite", Ok(Keyword::Ite)),
    (b"read", Ok(Keyword::Read)),
    (b"write", Ok(Keyword::Write)),
    (b"constraint", Err(Why::Constraint)),
    (b"saddo", Err(Why::Unsupported)),
    (b"uaddo", Err(Why::Unsupported)),
    (b"sdivo", Err(Why::Unsupported)),
    (b"udivo", Err(Why::Unsupported)),
    (b"smulo", Err(Why::Unsupported)),
    (b"umulo", Err(Why::Unsupported)),
    (b"ssubo", Err(Why::Unsupported)),
    (b"usubo", Err(Why::Unsupported)),
];

/// The keyword that a word is, or the rule that it breaks.
pub fn keyword_of(word: &[u8]) -> Result<Keyword, Why>
    ensures { result ≡ keyword word.now }
{
    if let Some(entry) = named(&KEYWORDS, word) {
        return entry;
    }
    if let Some(operator) = op1_named(word) {
        return Ok(Keyword::Un(operator));
    }
    match op2_named(word) {
        None => Err(Why::Keyword),
        Some(operator) => Ok(Keyword::Bin(operator)),
    }
}
