//! The line that a text line says: its number, its keyword, the operands, and the symbol.
ghost use Rattle.std.specs.Prelude.{◌≡◌, ◌≢◌, Ok, Err, IfOk, IfErr};
ghost use Rattle.circuit_table.specs.declared.fault.Why.TheVariants.{Memory};
ghost use Rattle.btor_read.specs.Said.{number_at as number_of, keyword_at as keyword_of, said};

use crate::keyword::{self, Keyword};
use crate::tokens::Tokens;
use crate::{numbers, operands};
use circuit_table::{Line, Why};
use std::alloc::Global;

/// The last line of a text on which a line may stand.
const LAST_LINE: u32 = 1_000_000;

/// The number of a line, which has to be above the last one.
fn number_at(last: u32, tokens: &mut Tokens) -> Result<u32, Why>
    ensures ok { IfOk result (λ n. number_of last tokens.old ≡ Ok (n, tokens.new)) }
    ensures err { IfErr result (λ why. number_of last tokens.old ≡ Err why) }
{
    match tokens.next() {
        None => Err(Why::Number),
        Some(token) => match numbers::positive(token) {
            None => Err(Why::Number),
            Some(number) => {
                if number <= last {
                    return Err(Why::Order);
                }
                Ok(number)
            }
        },
    }
}

fn keyword_at(tokens: &mut Tokens) -> Result<Keyword, Why>
    ensures ok { IfOk result (λ k. keyword_of tokens.old ≡ Ok (k, tokens.new)) }
    ensures err { IfErr result (λ why. keyword_of tokens.old ≡ Err why) }
{
    match tokens.next() {
        None => Err(Why::Keyword),
        Some(word) => {
            let keyword = keyword::keyword_of(word)?;
            Ok(keyword)
        }
    }
}

/// The line that the tokens of a text line say, or the first rule that they break. `at` is the number
/// of the text line, from 1, and `last` that of the last line of BTOR2 before it, or 0.
pub fn line_at(alloc: Global, at: u32, last: u32, tokens: &mut Tokens) -> Result<Line, Why>
    ensures ok { IfOk result (λ line. said at last tokens.old ≡ Ok line) }
    ensures err { IfErr result (λ why. why ≢ Memory → said at last tokens.old ≡ Err why) }
{
    if at > LAST_LINE {
        return Err(Why::TooManyLines);
    }
    let number = number_at(last, tokens)?;
    let keyword = keyword_at(tokens)?;
    let shape = operands::form(alloc, keyword, tokens)?;
    let symbol = operands::symbol_at(alloc, tokens)?;
    Ok(Line {
        number,
        at,
        shape,
        symbol,
    })
}
