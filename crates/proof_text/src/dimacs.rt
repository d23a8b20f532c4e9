//! Formulas from the bytes of a text.
ghost use Rattle.std.specs.Prelude.{◌≡◌, ◌≤◌, ◌<◌, ◌+◌, ◌++◌, ◌∷◌, ◌==◌, ◌&&◌, [], not, length, IfOk, IfSome, IsNone, ◌↔◌, OnOk, IfErr, cond};
ghost use Rattle.knox_text.specs.Lines.{lines};
ghost use Rattle.knox_text.specs.Places.{start_of, end_of};
ghost use Rattle.knox_cnf.specs.Literals.{literal as literal_is};
ghost use Rattle.proof_text.specs.declared.draft.Stage.TheVariants as stages;
ghost use Rattle.proof_text.specs.declared.fault.ProofFault.TheVariants.{Memory};
ghost use Rattle.knox_text.specs.Tokens.{tokens};
ghost use Rattle.proof_text.specs.Numbers.{number_of};
ghost use Rattle.proof_text.specs.Results.{Answers, and_then};
ghost use Rattle.proof_text.specs.Dimacs.{Takes, is_p as is_p_token, is_cnf as is_cnf_token, expected, at_stage, size_of, with_vars, with_count, is_full as has_all, with_number, with_clause_token, with_token, with_tokens, with_line, with_lines, finished, cnf_of, is_none, nothing};

use crate::draft::{Draft, Stage};
use crate::fault::ProofFault;
use crate::number::{Number, read_number, unsigned};
use knox_cnf::{Clause, Cnf, Lit};
use knox_text::{Line, Place, begins_with, cut_line, cut_token, end_place};
use sqlite_items::Items;
use std::alloc::{AllocError, Global};

/// The greatest number of variables, and of clauses.
const GREATEST_SIZE: u128 = 10_000_000;

fn is_p(token: &[u8]) -> bool
    ensures { result ≡ is_p_token token.now }
{
    match token {
        [byte] => *byte == b'p',
        _ => false,
    }
}

fn is_cnf(token: &[u8]) -> bool
    ensures { result ≡ is_cnf_token token.now }
{
    match token {
        [first, second, third] => *first == b'c' && (*second == b'n' && *third == b'f'),
        _ => false,
    }
}

/// Goes on to a stage if a token of the header is the expected one.
fn expect(draft: &mut Draft, is_expected: bool, at: Place, stage: Stage) -> Result<(), ProofFault>
    ensures { Takes result draft.new (expected is_expected at (at_stage draft.old stage)) }
{
    if !is_expected {
        return Err(ProofFault::Header(at));
    }
    draft.stage = stage;
    Ok(())
}

/// A number of the header.
fn size(token: &[u8]) -> Option<u32>
    ensures { result ≡ size_of token.now }
{
    match unsigned(token) {
        None => None,
        Some(number) => {
            if number <= GREATEST_SIZE {
                Some(number as u32)
            } else {
                None
            }
        }
    }
}

fn take_vars(draft: &mut Draft, at: Place, token: &[u8]) -> Result<(), ProofFault>
    ensures { Takes result draft.new (with_vars draft.old at (size_of token.now)) }
{
    match size(token) {
        None => Err(ProofFault::Header(at)),
        Some(vars) => {
            draft.vars = vars;
            draft.stage = Stage::Clauses;
            Ok(())
        }
    }
}

fn take_count(draft: &mut Draft, at: Place, token: &[u8]) -> Result<(), ProofFault>
    ensures { Takes result draft.new (with_count draft.old at (size_of token.now)) }
{
    match size(token) {
        None => Err(ProofFault::Header(at)),
        Some(count) => {
            draft.count = count;
            draft.stage = Stage::Body;
            Ok(())
        }
    }
}

fn has_no_open_clause(draft: &Draft) -> bool
    ensures { result ≡ is_none draft.now.open_clause }
{
    draft.open_clause.as_slice().is_empty()
}

fn is_full(draft: &Draft) -> bool
    ensures { result ≡ has_all draft.now }
{
    has_no_open_clause(draft) && draft.clauses.len() == draft.count as usize
}

fn clear(lits: &mut Items<Lit>)
    ensures { lits.new ≡ [] }
{
    'all: while let Some(_) = lits.pop() {}
}

/// Ends the open clause.
fn end_clause(alloc: Global, draft: &mut Draft) -> Result<(), AllocError>
    ensures { OnOk result (draft.new ≡ record draft.old { clauses = draft.old.clauses ++ draft.old.open_clause ∷ []; open_clause = [] }) }
{
    let clause = Clause::from_lits(alloc, draft.open_clause.as_slice())?;
    draft.clauses.push(clause)?;
    clear(&mut draft.open_clause);
    Ok(())
}

/// The literal of a variable from 1 on.
fn literal(negative: bool, variable: u32) -> Option<Lit>
    ensures some { IfSome result (λ l. l ≡ literal_is variable (not negative)) }
    ensures none { IsNone result ↔ (variable ≡ 0) }
{
    let value = i64::from(variable);
    Lit::new(if negative { -value } else { value })
}

fn take_number(
    alloc: Global,
    draft: &mut Draft,
    at: Place,
    number: Number,
) -> Result<(), ProofFault>
    ensures { Takes result draft.new (with_number draft.old at number) }
{
    if number.negative && number.magnitude == 0 {
        return Err(ProofFault::Shape(at));
    }
    if is_full(draft) {
        return Err(ProofFault::Count(at));
    }
    if number.magnitude == 0 {
        end_clause(alloc, draft)?;
        return Ok(());
    }
    if number.magnitude > u128::from(draft.vars) {
        return Err(ProofFault::Variable(at));
    }
    match literal(number.negative, number.magnitude as u32) {
        None => unreachable!(),
        Some(lit) => draft.open_clause.push(lit)?,
    }
    Ok(())
}

fn take_clause_token(
    alloc: Global,
    draft: &mut Draft,
    at: Place,
    token: &[u8],
) -> Result<(), ProofFault>
    ensures { Takes result draft.new (with_clause_token draft.old at token.now (number_of token.now)) }
{
    match read_number(token) {
        Some(number) => take_number(alloc, draft, at, number),
        None => {
            if is_p(token) {
                Err(ProofFault::Header(at))
            } else {
                Err(ProofFault::Shape(at))
            }
        }
    }
}

fn take_token(alloc: Global, draft: &mut Draft, at: Place, token: &[u8]) -> Result<(), ProofFault>
    ensures { Takes result draft.new (with_token draft.old at token.now) }
{
    match draft.stage {
        Stage::Start => expect(draft, is_p(token), at, Stage::Format),
        Stage::Format => expect(draft, is_cnf(token), at, Stage::Variables),
        Stage::Variables => take_vars(draft, at, token),
        Stage::Clauses => take_count(draft, at, token),
        Stage::Body => take_clause_token(alloc, draft, at, token),
    }
}

fn take_tokens(alloc: Global, draft: &mut Draft, line: Line, text: &[u8]) -> Result<(), ProofFault>
    requires { line.width ≤ 67108864 }
    ensures { Takes result draft.new (with_tokens draft.old line.number line.width (tokens text.now)) }
{
    let mut rest = text;
    while let Some(cut) = cut_token(rest) {
        let at = line.place(cut.token.left);
        match take_token(alloc, draft, at, cut.token.bytes) {
            Ok(()) => {}
            Err(fault) => return Err(fault),
        }
        rest = cut.rest;
    }
    Ok(())
}

fn take_line(alloc: Global, draft: &mut Draft, number: u32, line: &[u8]) -> Result<(), ProofFault>
    requires { length line.now ≤ 67108864 }
    ensures { Takes result draft.new (with_line draft.old number line.now) }
{
    if has_no_open_clause(draft) && begins_with(b'c', line) {
        return Ok(());
    }
    let width = line.len();
    take_tokens(alloc, draft, Line { number, width }, line)
}

fn take_lines(alloc: Global, draft: &mut Draft, text: &[u8]) -> Result<(), ProofFault>
    requires { length text.now ≤ 67108864 }
    ensures { Takes result draft.new (with_lines draft.old 1 (lines text.now)) }
{
    let mut number = 1;
    let mut rest = text;
    while let Some(cut) = cut_line(rest) {
        match take_line(alloc, draft, number, cut.piece) {
            Ok(()) => {}
            Err(fault) => return Err(fault),
        }
        number += 1;
        rest = cut.rest;
    }
    Ok(())
}

fn finish(draft: Draft, text: &[u8]) -> Result<Cnf, ProofFault>
    requires { length text.now ≤ 67108864 }
    ensures { Answers result (finished draft (end_of (start_of text.now))) }
{
    match draft.stage {
        Stage::Body => {}
        _ => return Err(ProofFault::Header(end_place(text))),
    }
    if !is_full(&draft) {
        return Err(ProofFault::Count(end_place(text)));
    }
    Ok(Cnf {
        vars: u64::from(draft.vars),
        clauses: draft.clauses,
    })
}

/// The formula that a DIMACS text of at most 64 MiB means, or its first fault in reading order.
pub fn read_cnf(alloc: Global, bytes: &[u8]) -> Result<Cnf, ProofFault>
    requires { length bytes.now ≤ 67108864 }
    ensures { Answers result (cnf_of bytes.now) }
{
    let mut draft = Draft {
        stage: Stage::Start,
        vars: 0,
        count: 0,
        clauses: Items::new(alloc),
        open_clause: Items::new(alloc),
    };
    match take_lines(alloc, &mut draft, bytes) {
        Err(fault) => Err(fault),
        Ok(()) => finish(draft, bytes),
    }
}
