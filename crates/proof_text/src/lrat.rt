//! Proofs from the bytes of a text.
ghost use Rattle.std.specs.Prelude.{◌≡◌, ◌≤◌, ◌<◌, ◌+◌, ◌^◌, ◌⊎◌, [], length, not, IfOk, IfErr, Ok, Err, option_to_list, OnOk, IfSome, IfNone, false, ◌++◌};
ghost use Rattle.knox_cnf.specs.Literals.{signed as signed_is};
ghost use Rattle.knox_text.specs.Lines.{lines};
ghost use Rattle.proof_text.specs.declared.fault.ProofFault.TheVariants.{Memory};
ghost use Rattle.knox_text.specs.Tokens.{tokens, place_of};
ghost use Rattle.proof_text.specs.Results.{Answers};
ghost use Rattle.proof_text.specs.Lrat.{literal_at as literal_is, hint_at as hint_is, id_at as id_is, numbers, ended, addition as addition_is, deletion as deletion_is, is_d as is_d_token, after_id as after_id_is, entry as entry_is, line_of, lrat_of, begins_with_d, has_d};

use crate::fault::ProofFault;
use crate::number::{read_number, unsigned};
use crate::proof_line::ProofLine;
use crate::reader::LratReader;
use knox_cnf::Lit;
use knox_text::{Line, Place, begins_with, cut_token};
use sqlite_items::Items;
use std::alloc::Global;

/// The first magnitude that no literal and no hint above 0 has.
const TOO_GREAT: u128 = 1 << 63;

/// The first id that is too great.
const NO_ID: u128 = 1 << 64;

fn signed(negative: bool, magnitude: u64) -> i64
    requires { magnitude < 2 ^ 63 }
    ensures { result ≡ signed_is magnitude (not negative) }
{
    let value = magnitude as i64;
    if negative { -value } else { value }
}

/// A literal in a list that a 0 ends: `Some(None)` at the 0.
fn literal_at(token: &[u8]) -> Option<Option<Lit>>
    ensures { result ≡ literal_is token.now }
{
    let number = read_number(token)?;
    if number.magnitude == 0 {
        return if number.negative { None } else { Some(None) };
    }
    if number.magnitude >= TOO_GREAT {
        return None;
    }
    match Lit::new(signed(number.negative, number.magnitude as u64)) {
        None => None,
        Some(lit) => Some(Some(lit)),
    }
}

fn hint_at(token: &[u8]) -> Option<Option<i64>>
    ensures { result ≡ hint_is token.now }
{
    let number = read_number(token)?;
    if number.magnitude == 0 {
        return if number.negative { None } else { Some(None) };
    }
    if number.magnitude < TOO_GREAT {
        return Some(Some(signed(number.negative, number.magnitude as u64)));
    }
    if number.negative && number.magnitude == TOO_GREAT {
        return Some(Some(i64::MIN));
    }
    None
}

fn id_at(token: &[u8]) -> Option<Option<u64>>
    ensures { result ≡ id_is token.now }
{
    let number = unsigned(token)?;
    if number == 0 {
        return Some(None);
    }
    if number < NO_ID {
        Some(Some(number as u64))
    } else {
        None
    }
}

/// Reads literals up to the 0, and answers the line behind it.
fn read_lits<'a>(line: Line, text: &'a [u8], lits: &mut Items<Lit>) -> Result<&'a [u8], ProofFault>
    requires width { line.width ≤ 67108864 }
    requires none { lits.old ≡ [] }
    ensures ok { IfOk result (λ rest. numbers literal_is line.number line.width (tokens text.now) ≡ Ok (lits.new, tokens rest.now)) }
    ensures err { IfErr result (λ f. (f ≡ Memory) ⊎ (numbers literal_is line.number line.width (tokens text.now) ≡ Err f)) }
{
    let mut rest = text;
    while let Some(cut) = cut_token(rest) {
        let at = line.place(cut.token.left);
        match literal_at(cut.token.bytes) {
            None => return Err(ProofFault::Shape(at)),
            Some(entry) => match entry {
                None => return Ok(cut.rest),
                Some(lit) => lits.push(lit)?,
            },
        }
        rest = cut.rest;
    }
    Err(ProofFault::Shape(line.place(0)))
}

/// Reads hints up to the 0, and answers the line behind it.
fn read_hints<'a>(
    line: Line,
    text: &'a [u8],
    hints: &mut Items<i64>,
) -> Result<&'a [u8], ProofFault>
    requires width { line.width ≤ 67108864 }
    requires none { hints.old ≡ [] }
    ensures ok { IfOk result (λ rest. numbers hint_is line.number line.width (tokens text.now) ≡ Ok (hints.new, tokens rest.now)) }
    ensures err { IfErr result (λ f. (f ≡ Memory) ⊎ (numbers hint_is line.number line.width (tokens text.now) ≡ Err f)) }
{
    let mut rest = text;
    while let Some(cut) = cut_token(rest) {
        let at = line.place(cut.token.left);
        match hint_at(cut.token.bytes) {
            None => return Err(ProofFault::Shape(at)),
            Some(entry) => match entry {
                None => return Ok(cut.rest),
                Some(hint) => hints.push(hint)?,
            },
        }
        rest = cut.rest;
    }
    Err(ProofFault::Shape(line.place(0)))
}

/// Reads ids up to the 0, and answers the line behind it.
fn read_ids<'a>(line: Line, text: &'a [u8], ids: &mut Items<u64>) -> Result<&'a [u8], ProofFault>
    requires width { line.width ≤ 67108864 }
    requires none { ids.old ≡ [] }
    ensures ok { IfOk result (λ rest. numbers id_is line.number line.width (tokens text.now) ≡ Ok (ids.new, tokens rest.now)) }
    ensures err { IfErr result (λ f. (f ≡ Memory) ⊎ (numbers id_is line.number line.width (tokens text.now) ≡ Err f)) }
{
    let mut rest = text;
    while let Some(cut) = cut_token(rest) {
        let at = line.place(cut.token.left);
        match id_at(cut.token.bytes) {
            None => return Err(ProofFault::Shape(at)),
            Some(entry) => match entry {
                None => return Ok(cut.rest),
                Some(id) => ids.push(id)?,
            },
        }
        rest = cut.rest;
    }
    Err(ProofFault::Shape(line.place(0)))
}

/// A line of the proof, if no token is left.
fn end_line(line: Line, rest: &[u8], made: ProofLine) -> Result<Option<ProofLine>, ProofFault>
    requires { line.width ≤ 67108864 }
    ensures { Answers result (ended line.number line.width (tokens rest.now) made) }
{
    match cut_token(rest) {
        None => Ok(Some(made)),
        Some(cut) => Err(ProofFault::Shape(line.place(cut.token.left))),
    }
}

fn addition(
    alloc: Global,
    line: Line,
    id: u64,
    text: &[u8],
) -> Result<Option<ProofLine>, ProofFault>
    requires { line.width ≤ 67108864 }
    ensures { Answers result (addition_is line.number line.width id (tokens text.now)) }
{
    let mut lits = Items::new(alloc);
    let mut hints = Items::new(alloc);
    let behind_lits = read_lits(line, text, &mut lits)?;
    let behind_hints = read_hints(line, behind_lits, &mut hints)?;
    end_line(
        line,
        behind_hints,
        ProofLine::Add(line.number, id, lits, hints),
    )
}

fn deletion(alloc: Global, line: Line, text: &[u8]) -> Result<Option<ProofLine>, ProofFault>
    requires { line.width ≤ 67108864 }
    ensures { Answers result (deletion_is line.number line.width (tokens text.now)) }
{
    let mut ids = Items::new(alloc);
    let behind_ids = read_ids(line, text, &mut ids)?;
    end_line(line, behind_ids, ProofLine::Delete(line.number, ids))
}

/// Whether the next token is `d`, and the line behind it.
fn behind_d(text: &[u8]) -> Option<&[u8]>
    ensures some { IfSome result (λ rest. has_d (tokens text.now) (tokens rest.now)) }
    ensures none { IfNone result (begins_with_d (tokens text.now) ≡ false) }
{
    match cut_token(text) {
        None => None,
        Some(cut) => {
            if is_d(cut.token.bytes) {
                Some(cut.rest)
            } else {
                None
            }
        }
    }
}

fn is_d(token: &[u8]) -> bool
    ensures { result ≡ is_d_token token.now }
{
    match token {
        [byte] => *byte == b'd',
        _ => false,
    }
}

fn after_id(
    alloc: Global,
    line: Line,
    at: Place,
    id: u128,
    text: &[u8],
) -> Result<Option<ProofLine>, ProofFault>
    requires { line.width ≤ 67108864 }
    ensures { Answers result (after_id_is line.number line.width at id (tokens text.now)) }
{
    match behind_d(text) {
        Some(rest) => deletion(alloc, line, rest),
        None => {
            if id < NO_ID {
                addition(alloc, line, id as u64, text)
            } else {
                Err(ProofFault::Shape(at))
            }
        }
    }
}

fn entry(alloc: Global, line: Line, text: &[u8]) -> Result<Option<ProofLine>, ProofFault>
    requires { line.width ≤ 67108864 }
    ensures { Answers result (entry_is line.number line.width (tokens text.now)) }
{
    match cut_token(text) {
        None => Ok(None),
        Some(cut) => {
            let at = line.place(cut.token.left);
            match unsigned(cut.token.bytes) {
                None => Err(ProofFault::Shape(at)),
                Some(id) => after_id(alloc, line, at, id, cut.rest),
            }
        }
    }
}

/// What a line means: a line of the proof, or none where it is left out.
pub fn read_line(alloc: Global, number: u32, text: &[u8]) -> Result<Option<ProofLine>, ProofFault>
    requires { length text.now ≤ 67108864 }
    ensures { Answers result (line_of number text.now) }
{
    if begins_with(b'c', text) {
        return Ok(None);
    }
    let width = text.len();
    entry(alloc, Line { number, width }, text)
}

/// The lines that an LRAT text of at most 64 MiB means, or its first fault in reading order.
pub fn read_lrat(alloc: Global, bytes: &[u8]) -> Result<Items<ProofLine>, ProofFault>
    requires { length bytes.now ≤ 67108864 }
    ensures { Answers result (lrat_of bytes.now) }
{
    let mut lines = Items::new(alloc);
    let mut reader = LratReader::new(bytes);
    while let Some(line) = reader.next_line(alloc)? {
        lines.push(line)?;
    }
    Ok(lines)
}
