//! From formulas and proofs to bytes.
ghost use Rattle.std.specs.Prelude.{◌≡◌, ◌++◌, ◌∷◌, [], codes, flat_map, length, IfOk, OnOk, Ok, List, ℕ};
ghost use Rattle.std.specs.Fmt.{decimal};
ghost use Rattle.knox_cnf.specs.declared.formula.Cnf.{Cnf};
ghost use Rattle.proof_text.specs.Dimacs.{cnf_of};
ghost use Rattle.proof_text.specs.Lrat.{lrat_of};
ghost use Rattle.proof_text.specs.declared.proof_line.ProofLine.{ProofLine};
ghost use Rattle.proof_text.specs.Printing.{sign_shown, natural_shown, signed_shown, literal_shown, end_of_line, clause_shown, header_shown, cnf_shown, line_shown, lrat_shown, renumbered};

use crate::proof_line::ProofLine;
use knox_cnf::{Clause, Cnf, Lit};
use sqlite_items::Items;
use std::alloc::{AllocError, Global};

fn put_bytes(out: &mut Items<u8>, bytes: &[u8]) -> Result<(), AllocError>
    ensures { OnOk result (out.new ≡ out.old ++ bytes.now) }
{
    for byte in bytes {
        out.push(*byte)?;
    }
    Ok(())
}

fn put_decimal(alloc: Global, out: &mut Items<u8>, number: u64) -> Result<(), AllocError>
    ensures { OnOk result (out.new ≡ out.old ++ decimal number) }
{
    let digits = format!(in alloc; "{number}")?;
    put_bytes(out, digits.as_bytes())
}

/// A number and a space.
fn put_natural(alloc: Global, out: &mut Items<u8>, number: u64) -> Result<(), AllocError>
    ensures { OnOk result (out.new ≡ out.old ++ natural_shown number) }
{
    put_decimal(alloc, out, number)?;
    out.push(b' ')?;
    Ok(())
}

fn put_sign(out: &mut Items<u8>, number: i64) -> Result<(), AllocError>
    ensures { OnOk result (out.new ≡ out.old ++ sign_shown number) }
{
    if number < 0 {
        out.push(b'-')?;
    }
    Ok(())
}

fn put_signed(alloc: Global, out: &mut Items<u8>, number: i64) -> Result<(), AllocError>
    ensures { OnOk result (out.new ≡ out.old ++ signed_shown number) }
{
    put_sign(out, number)?;
    put_natural(alloc, out, number.unsigned_abs())
}

fn put_lits(alloc: Global, out: &mut Items<u8>, lits: &[Lit]) -> Result<(), AllocError>
    ensures { OnOk result (out.new ≡ out.old ++ flat_map literal_shown lits.now) }
{
    for lit in lits {
        put_signed(alloc, out, lit.value())?;
    }
    Ok(())
}

fn put_hints(alloc: Global, out: &mut Items<u8>, hints: &[i64]) -> Result<(), AllocError>
    ensures { OnOk result (out.new ≡ out.old ++ flat_map signed_shown hints.now) }
{
    for hint in hints {
        put_signed(alloc, out, *hint)?;
    }
    Ok(())
}

fn put_ids(alloc: Global, out: &mut Items<u8>, ids: &[u64]) -> Result<(), AllocError>
    ensures { OnOk result (out.new ≡ out.old ++ flat_map natural_shown ids.now) }
{
    for id in ids {
        put_natural(alloc, out, *id)?;
    }
    Ok(())
}

fn put_end(out: &mut Items<u8>) -> Result<(), AllocError>
    ensures { OnOk result (out.new ≡ out.old ++ end_of_line) }
{
    put_bytes(out, b"0\n")
}

fn put_clause(alloc: Global, out: &mut Items<u8>, clause: &Clause) -> Result<(), AllocError>
    ensures { OnOk result (out.new ≡ out.old ++ clause_shown clause.now) }
{
    put_lits(alloc, out, clause.lits())?;
    put_end(out)
}

fn put_header(alloc: Global, out: &mut Items<u8>, vars: u64, count: u64) -> Result<(), AllocError>
    ensures { OnOk result (out.new ≡ out.old ++ header_shown vars count) }
{
    put_bytes(out, b"p cnf ")?;
    put_natural(alloc, out, vars)?;
    put_decimal(alloc, out, count)?;
    out.push(b'\n')?;
    Ok(())
}

/// The bytes of a formula, one clause a line.
pub fn print_cnf(alloc: Global, cnf: &Cnf) -> Result<Items<u8>, AllocError>
    ensures { IfOk result (λ out. out ≡ cnf_shown cnf.now) }
{
    let mut out = Items::new(alloc);
    put_header(alloc, &mut out, cnf.vars, cnf.clauses.len() as u64)?;
    for clause in cnf.clauses.as_slice() {
        put_clause(alloc, &mut out, clause)?;
    }
    Ok(out)
}

fn put_line(alloc: Global, out: &mut Items<u8>, line: &ProofLine) -> Result<(), AllocError>
    ensures { OnOk result (out.new ≡ out.old ++ line_shown line.now) }
{
    match line {
        ProofLine::Add(_, id, lits, hints) => {
            put_natural(alloc, out, *id)?;
            put_lits(alloc, out, lits.as_slice())?;
            put_bytes(out, b"0 ")?;
            put_hints(alloc, out, hints.as_slice())?;
        }
        ProofLine::Delete(_, ids) => {
            put_bytes(out, b"0 d ")?;
            put_ids(alloc, out, ids.as_slice())?;
        }
    }
    put_end(out)
}

/// The bytes of a proof, each of its lines on a line.
pub fn print_lrat(alloc: Global, lines: &[ProofLine]) -> Result<Items<u8>, AllocError>
    ensures { IfOk result (λ out. out ≡ lrat_shown lines.now) }
{
    let mut out = Items::new(alloc);
    for line in lines {
        put_line(alloc, &mut out, line)?;
    }
    Ok(out)
}

/// What is printed of a formula that some text means is a text that means it.
pub fn formula_printed_again()
    ensures { (text : List ℕ) (f : Cnf) → cnf_of text ≡ Ok f → cnf_of (cnf_shown f) ≡ Ok f }
{}

/// What is printed of a proof that some text means is a text that means it, with the lines numbered
/// from 1 on.
pub fn proof_printed_again()
    ensures { (text : List ℕ) (ls : List ProofLine) → lrat_of text ≡ Ok ls → lrat_of (lrat_shown ls) ≡ Ok (renumbered 1 ls) }
{}
