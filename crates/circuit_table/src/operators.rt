//! Which sorts an operator takes, and the sort of what it gives.
ghost use Rattle.std.specs.Prelude.{◌≡◌};
ghost use Rattle.circuit_table.specs.Operators.{words_of, un_sort, bin_sort, slice_sort, extended_sort, ite_sort, read_sort, write_sort};

use crate::sort;
use circuit_nodes::SortOf;
use knox_words::{Op1, Op2};

/// The sort of words of a width, where there is one.
fn words_of(width: Option<u8>) -> Option<SortOf>
    ensures { result ≡ words_of width }
{
    match width {
        None => None,
        Some(width) => Some(SortOf::Words(width)),
    }
}

/// The sort of an operator's value on an operand; none where the operator doesn't take it.
pub fn un_sort(operator: Op1, a: Option<SortOf>) -> Option<SortOf>
    ensures { result ≡ un_sort operator a }
{
    match a {
        Some(SortOf::Words(width)) => Some(SortOf::Words(knox_words::op1_width(operator, width))),
        _ => None,
    }
}

pub fn bin_sort(operator: Op2, a: Option<SortOf>, b: Option<SortOf>) -> Option<SortOf>
    ensures { result ≡ bin_sort operator a b }
{
    match (a, b) {
        (Some(SortOf::Words(w)), Some(SortOf::Words(v))) => {
            words_of(knox_words::op2_typed(operator, w, v))
        }
        _ => None,
    }
}

/// The sort of the bits from `high` down to `low`.
pub fn slice_sort(a: Option<SortOf>, high: u32, low: u32) -> Option<SortOf>
    ensures { result ≡ slice_sort a high low }
{
    match a {
        Some(SortOf::Words(width)) => words_of(knox_words::slice_typed(width, high, low)),
        _ => None,
    }
}

/// The sort of a word in `more` bits more.
pub fn extended_sort(a: Option<SortOf>, more: u32) -> Option<SortOf>
    ensures { result ≡ extended_sort a more }
{
    match a {
        Some(SortOf::Words(width)) => words_of(knox_words::extended(width, more)),
        _ => None,
    }
}

/// The sort of a choice between two words, or two arrays.
pub fn ite_sort(c: Option<SortOf>, a: Option<SortOf>, b: Option<SortOf>) -> Option<SortOf>
    ensures { result ≡ ite_sort c a b }
{
    if !sort::are_one(c, Some(SortOf::Words(1))) {
        return None;
    }
    if !sort::are_one(a, b) {
        return None;
    }
    a
}

pub fn read_sort(a: Option<SortOf>, index: Option<SortOf>) -> Option<SortOf>
    ensures { result ≡ read_sort a index }
{
    match (a, index) {
        (Some(SortOf::Arrays(i, e)), Some(SortOf::Words(w))) => {
            if i == w { Some(SortOf::Words(e)) } else { None }
        }
        _ => None,
    }
}

pub fn write_sort(a: Option<SortOf>, index: Option<SortOf>, word: Option<SortOf>) -> Option<SortOf>
    ensures { result ≡ write_sort a index word }
{
    match (a, index, word) {
        (Some(SortOf::Arrays(i, e)), Some(SortOf::Words(w)), Some(SortOf::Words(v))) => {
            if i == w && e == v {
                Some(SortOf::Arrays(i, e))
            } else {
                None
            }
        }
        _ => None,
    }
}
