//! Reading a text, line after line.
ghost use Rattle.std.specs.Prelude.{◌≡◌, ◌≢◌, ◌≤◌, length, Ok, Err, IfOk, IfErr, OnOk};
ghost use Rattle.knox_circuit.specs.Circuit.{Circuit};
ghost use Rattle.btor_read.specs.Tokens.{tokens_of};
ghost use Rattle.btor_read.specs.Meaning.{last_number, IsCircuit, FaultsAt};
ghost use Rattle.btor_read.specs.Reading.{with_tokens, lines_or_fault};

use crate::line::line_at;
use crate::tokens::Tokens;
use circuit_table::{BtorFault, Why};
use knox_circuit::{Circuit, Draft};
use std::alloc::Global;

/// Adds the line that stands on text line `at`, behind a line with the number `last`. Gives its
/// number, or `last` where the text line is skipped.
#[tactic(auto, using(crate::proofs::ReadingLemmas::line_steps))]
fn add_line(alloc: Global, draft: &mut Draft, text: &[u8], at: u32, last: u32) -> Result<u32, Why>
    requires { last ≡ last_number draft.old.lines }
    ensures ok { OnOk result (with_tokens draft.old.lines at (tokens_of text.now) ≡ Ok draft.new.lines) }
    ensures last { IfOk result (λ n. n ≡ last_number draft.new.lines) }
    ensures err { IfErr result (λ why. why ≢ Why.Memory → with_tokens draft.old.lines at (tokens_of text.now) ≡ Err why) }
{
    let mut tokens = Tokens::new(text);
    if tokens.is_empty() {
        return Ok(last);
    }
    let line = line_at(alloc, at, last, &mut tokens)?;
    let number = line.number;
    draft.add(line)?;
    Ok(number)
}

/// What a text is read as.
#[tactic(auto, using(crate::proofs::ReadingLemmas::text_steps))]
fn read(alloc: Global, text: &[u8]) -> Result<Circuit, BtorFault>
    requires { length text.now ≤ 67108864 }
    ensures ok { IfOk result (λ c. lines_or_fault text.now ≡ Ok c.lines) }
    ensures err { IfErr result (λ fault. fault.why ≢ Why.Memory → lines_or_fault text.now ≡ Err fault) }
{
    let mut draft = Draft::new(alloc);
    let mut rest = text;
    let mut at = 0u32;
    let mut last = 0u32;
    while let Some(cut) = knox_text::cut_line(rest) {
        at += 1;
        match add_line(alloc, &mut draft, cut.piece, at, last) {
            Ok(number) => last = number,
            Err(why) => return Err(BtorFault { line: at, why }),
        }
        rest = cut.rest;
    }
    let circuit = draft.finish()?;
    Ok(circuit)
}

/// The circuit that a text means, or its first fault. A text has at most 64 MiB.
pub fn read_circuit(alloc: Global, bytes: &[u8]) -> Result<Circuit, BtorFault>
    requires { length bytes.now ≤ 67108864 }
    ensures found { IfOk result (λ c. IsCircuit bytes.now c) }
    ensures only { (c : Circuit) → IsCircuit bytes.now c → IfErr result (λ f. f.why ≡ Why.Memory) }
    ensures fault { IfErr result (λ f. f.why ≢ Why.Memory → FaultsAt bytes.now f) }
{
    read(alloc, bytes)
}
