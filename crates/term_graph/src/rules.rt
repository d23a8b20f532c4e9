//! The rules by which an operator on two terms is simplified, as tables.
ghost use Rattle.std.specs.Prelude.{◌≡◌, ◌<◌};
ghost use Rattle.term_graph.specs.Rules.{apart, at_bit, at_ends, at_greatest, at_least, at_one, first_rule, is_commutative, is_equality, lengthened, same_rule, second_rule, shortened, undoes};

use knox_words::{Op1, Op2, Word, op1, sext_or, slice_or, uext_or, word_or};

/// What a term becomes.
#[derive(Clone, Copy, Debug)]
pub(crate) enum Rule {
    /// The term itself.
    Itself,
    /// The term with every bit turned.
    Turned,
    /// A word.
    Word(Word),
}

/// Whether an operator undoes another on every word.
pub(crate) fn undoes(o: Op1, inner: Op1) -> bool
    ensures { result ≡ undoes o inner }
{
    match (o, inner) {
        (Op1::Not, Op1::Not) | (Op1::Neg, Op1::Neg) => true,
        (Op1::Inc, Op1::Dec) | (Op1::Dec, Op1::Inc) => true,
        _ => false,
    }
}

/// Whether an operator has the same value on its operands in the other order.
pub(crate) fn is_commutative(o: Op2) -> bool
    ensures { result ≡ is_commutative o }
{
    match o {
        Op2::Iff | Op2::Eq | Op2::Neq => true,
        Op2::And | Op2::Nand | Op2::Nor | Op2::Or | Op2::Xnor | Op2::Xor => true,
        Op2::Add | Op2::Mul => true,
        _ => false,
    }
}

/// What an operator makes of a term of this width and itself.
pub(crate) fn same_rule(o: Op2, width: u8) -> Option<Rule>
    ensures { result ≡ same_rule o width }
{
    match o {
        Op2::And | Op2::Or => Some(Rule::Itself),
        Op2::Nand | Op2::Nor => Some(Rule::Turned),
        Op2::Xor | Op2::Sub => Some(Rule::Word(word_or(width, 0))),
        Op2::Xnor => Some(Rule::Word(op1(Op1::Not, word_or(width, 0)))),
        Op2::Iff | Op2::Implies | Op2::Eq => Some(Rule::Word(word_or(1, 1))),
        Op2::Ugte | Op2::Ulte | Op2::Sgte | Op2::Slte => Some(Rule::Word(word_or(1, 1))),
        Op2::Neq | Op2::Ugt | Op2::Ult => Some(Rule::Word(word_or(1, 0))),
        Op2::Sgt | Op2::Slt => Some(Rule::Word(word_or(1, 0))),
        _ => None,
    }
}

/// The first rule for a word that is zero, the second for one that is all ones.
fn at_ends(c: Word, zero: Option<Rule>, ones: Option<Rule>) -> Option<Rule>
    ensures { result ≡ at_ends c zero ones }
{
    if c.value() == 0 {
        zero
    } else if op1(Op1::Not, c).value() == 0 {
        ones
    } else {
        None
    }
}

/// The rules at the ends of a word's range, where its width is 1.
fn at_bit(c: Word, zero: Option<Rule>, one: Option<Rule>) -> Option<Rule>
    ensures { result ≡ at_bit c zero one }
{
    if c.width() == 1 {
        at_ends(c, zero, one)
    } else {
        None
    }
}

/// The first rule for a word that is 1, and else the other.
fn at_one(c: Word, one: Rule, other: Option<Rule>) -> Option<Rule>
    ensures { result ≡ at_one c one other }
{
    if c.value() == 1 { Some(one) } else { other }
}

/// The rule for the least word of its width, read with a sign.
fn at_least(c: Word, rule: Rule) -> Option<Rule>
    ensures { result ≡ at_least c rule }
{
    if c.value() == 1u128 << (c.width() - 1) {
        Some(rule)
    } else {
        None
    }
}

/// The rule for the greatest word of its width, read with a sign.
fn at_greatest(c: Word, rule: Rule) -> Option<Rule>
    ensures { result ≡ at_greatest c rule }
{
    at_least(op1(Op1::Not, c), rule)
}

/// What an operator makes of a word and a term of the same width.
pub(crate) fn first_rule(o: Op2, c: Word) -> Option<Rule>
    ensures { result ≡ first_rule o c }
{
    let not_c = Rule::Word(op1(Op1::Not, c));
    match o {
        Op2::And => at_ends(c, Some(Rule::Word(c)), Some(Rule::Itself)),
        Op2::Or => at_ends(c, Some(Rule::Itself), Some(Rule::Word(c))),
        Op2::Xor => at_ends(c, Some(Rule::Itself), Some(Rule::Turned)),
        Op2::Nand => at_ends(c, Some(not_c), Some(Rule::Turned)),
        Op2::Nor => at_ends(c, Some(Rule::Turned), Some(not_c)),
        Op2::Xnor => at_ends(c, Some(Rule::Turned), Some(Rule::Itself)),
        Op2::Add => at_ends(c, Some(Rule::Itself), None),
        Op2::Mul => at_one(c, Rule::Itself, at_ends(c, Some(Rule::Word(c)), None)),
        Op2::Sll | Op2::Srl => at_ends(c, Some(Rule::Word(c)), None),
        Op2::Implies => at_ends(c, Some(Rule::Word(word_or(1, 1))), Some(Rule::Itself)),
        Op2::Ult => at_ends(c, None, Some(Rule::Word(word_or(1, 0)))),
        Op2::Ulte => at_ends(c, Some(Rule::Word(word_or(1, 1))), None),
        Op2::Ugt => at_ends(c, Some(Rule::Word(word_or(1, 0))), None),
        Op2::Ugte => at_ends(c, None, Some(Rule::Word(word_or(1, 1)))),
        Op2::Slt => at_greatest(c, Rule::Word(word_or(1, 0))),
        Op2::Slte => at_least(c, Rule::Word(word_or(1, 1))),
        Op2::Sgt => at_least(c, Rule::Word(word_or(1, 0))),
        Op2::Sgte => at_greatest(c, Rule::Word(word_or(1, 1))),
        Op2::Iff => at_ends(c, Some(Rule::Turned), Some(Rule::Itself)),
        Op2::Eq => at_bit(c, Some(Rule::Turned), Some(Rule::Itself)),
        Op2::Neq => at_bit(c, Some(Rule::Itself), Some(Rule::Turned)),
        _ => None,
    }
}

/// What an operator makes of a term and a word of the same width.
pub(crate) fn second_rule(o: Op2, c: Word) -> Option<Rule>
    ensures { result ≡ second_rule o c }
{
    match o {
        Op2::Sub | Op2::Sll | Op2::Srl => at_ends(c, Some(Rule::Itself), None),
        Op2::Implies => at_ends(c, Some(Rule::Turned), Some(Rule::Word(c))),
        Op2::Ult => at_ends(c, Some(Rule::Word(word_or(1, 0))), None),
        Op2::Ulte => at_ends(c, None, Some(Rule::Word(word_or(1, 1)))),
        Op2::Ugt => at_ends(c, None, Some(Rule::Word(word_or(1, 0)))),
        Op2::Ugte => at_ends(c, Some(Rule::Word(word_or(1, 1))), None),
        Op2::Slt => at_least(c, Rule::Word(word_or(1, 0))),
        Op2::Slte => at_greatest(c, Rule::Word(word_or(1, 1))),
        Op2::Sgt => at_greatest(c, Rule::Word(word_or(1, 0))),
        Op2::Sgte => at_least(c, Rule::Word(word_or(1, 1))),
        Op2::Udiv => at_one(c, Rule::Itself, None),
        _ => None,
    }
}

/// Whether an operator asks whether two words are equal, or whether they differ.
pub(crate) fn is_equality(o: Op2) -> bool
    ensures { result ≡ is_equality o }
{
    match o {
        Op2::Eq | Op2::Neq => true,
        _ => false,
    }
}

/// What such an operator says of words that differ.
pub(crate) fn apart(o: Op2) -> Word
    ensures { result ≡ apart o }
{
    match o {
        Op2::Neq => word_or(1, 1),
        _ => word_or(1, 0),
    }
}

/// A word in some bits more, read with its sign or without.
fn lengthened(signed: bool, d: Word, n: u8) -> Word
    ensures { result ≡ lengthened signed d n }
{
    if signed { sext_or(d, n) } else { uext_or(d, n) }
}

/// The word that is `c` in some bits more, if there is one.
pub(crate) fn shortened(c: Word, n: u8, signed: bool) -> Option<Word>
    requires { n < c.width }
    ensures { result ≡ shortened c n signed }
{
    let short = slice_or(c, c.width() - n - 1, 0);
    if lengthened(signed, short, n).value() == c.value() {
        Some(short)
    } else {
        None
    }
}
