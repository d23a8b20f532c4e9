//! Sums and products in a normal form. A sum is a chain of words times products, and a product is a
//! chain of terms, both in order of making, words first. What would be longer stays as it is.
ghost use Rattle.std.specs.Prelude.{◌≡◌, ◌+◌, ◌<◌, ◌≤◌, length, IfOk, IfSome};
ghost use Rattle.knox_words.specs.Ops.{op1_value, op2_or};
ghost use Rattle.knox_words.specs.declared.op.Op1.TheVariants.{Not, Inc, Dec, Neg};
ghost use Rattle.knox_words.specs.declared.op.Op2.TheVariants.{Add, Sub, Mul, Sll};
ghost use Rattle.term_graph.specs.Value.{value, width_of};
ghost use Rattle.term_graph.specs.Kept.{Keeps, Gives};
ghost use Rattle.term_graph.specs.Chains.{operator, AreUnits, AreAlike, IsOperand, Steps};

use crate::chain::{Chain, Units, links, operator, unit};
use crate::graph::Graph;
use crate::node::{Node, Term};
use knox_words::{Op1, Op2, Word, op1, word_or};
use std::alloc::AllocError;

/// How many terms of two sums are put in order, and how many a product of two sums may have.
const SUMMANDS: u8 = 32;

/// How many terms of two products are put in order.
const FACTORS: u8 = 16;

/// A word times a term.
#[derive(Clone, Copy)]
struct Multiple {
    word: Word,
    term: Term,
}

/// A chain of two terms as that of two others, and a last term.
#[derive(Clone, Copy)]
struct Step {
    first: Term,
    second: Term,
    last: Term,
}

impl Graph {
    /// The terms that are 0 and 1 of a width.
    fn units(&mut self, width: u8) -> Result<Units, AllocError>
        requires wide { 1 ≤ width }
        requires narrow { width ≤ 128 }
        ensures kept { Keeps self.old self.new }
        ensures units { IfOk result (λ r. AreUnits self.new width r.zero r.one) }
    {
        let zero = self.word(word_or(width, 0))?;
        let one = self.word(word_or(width, 1))?;
        Ok(Units { zero, one })
    }

    /// A word times a term.
    #[tactic(auto, using(crate::proofs::FoldLemmas::keeping))]
    fn factored(&mut self, c: Word, m: Term) -> Result<Term, AllocError>
        requires within { m < length self.old }
        requires same { c.width ≡ width_of self.old m }
        ensures kept { Keeps self.old self.new }
        ensures value { IfOk result (λ t. Gives self.new t (λ v. op2_or Mul c (value v self.old m))) }
    {
        let f = self.word(c)?;
        let t = self.joined(Op2::Mul, f, m)?;
        Ok(t)
    }

    /// A word times a term, as the negative of the word's opposite times the term where that is less.
    #[tactic(auto, using(crate::proofs::FoldLemmas::keeping))]
    fn scaled(&mut self, c: Word, m: Term) -> Result<Term, AllocError>
        requires within { m < length self.old }
        requires same { c.width ≡ width_of self.old m }
        ensures kept { Keeps self.old self.new }
        ensures value { IfOk result (λ t. Gives self.new t (λ v. op2_or Mul c (value v self.old m))) }
    {
        let opposite = op1(Op1::Neg, c);
        if opposite.value() < c.value() {
            let s = self.factored(opposite, m)?;
            let t = self.plain_un(Op1::Neg, s)?;
            return Ok(t);
        }
        self.factored(c, m)
    }

    /// A chain and a term behind it. A word goes first.
    #[tactic(auto, using(crate::proofs::BecomeLemmas::turning))]
    fn appended(&mut self, k: Chain, rest: Term, s: Term) -> Result<Term, AllocError>
        requires first { rest < length self.old }
        requires last { s < length self.old }
        requires same { width_of self.old rest ≡ width_of self.old s }
        ensures kept { Keeps self.old self.new }
        ensures value { IfOk result (λ t. Gives self.new t (λ v. op2_or (operator k) (value v self.old rest) (value v self.old s))) }
    {
        if self.constant(s).is_some() {
            let t = self.joined(operator(k), s, rest)?;
            return Ok(t);
        }
        self.joined(operator(k), rest, s)
    }

    /// The word and the term whose product is the sum of two terms, where those are words times one
    /// term.
    fn alike(&self, k: Chain, s: Term, u: Term, units: &Units) -> Option<Multiple>
        requires first { s < length self.now }
        requires second { u < length self.now }
        requires same { width_of self.now s ≡ width_of self.now u }
        requires units { AreUnits self.now (width_of self.now s) units.now.zero units.now.one }
        ensures { IfSome result (λ r. AreAlike self.now k s u r.word r.term) }
    {
        if !links(k, Op2::Add) {
            return None;
        }
        let (c, m) = self.multiple(s, units);
        let (d, n) = self.multiple(u, units);
        if m.place() != n.place() {
            return None;
        }
        let word = knox_words::op2_or(Op2::Add, c, d);
        Some(Multiple { word, term: m })
    }

    /// Whether the first of two terms goes behind the second in a chain. Words times terms go by the
    /// terms.
    fn goes_behind(&self, k: Chain, s: Term, u: Term, units: &Units) -> bool
        requires first { s < length self.now }
        requires second { u < length self.now }
        requires same { width_of self.now s ≡ width_of self.now u }
        requires units { AreUnits self.now (width_of self.now s) units.now.zero units.now.one }
    {
        if !links(k, Op2::Add) {
            return self.are_turned(s, u);
        }
        let (_, m) = self.multiple(s, units);
        let (_, n) = self.multiple(u, units);
        self.are_turned(m, n)
    }

    /// Whether two terms are words, or one is a chain without terms.
    fn are_plain(&self, k: Chain, a: Term, b: Term, units: &Units) -> bool
        requires first { a < length self.now }
        requires second { b < length self.now }
    {
        let none = unit(k, units).place();
        if a.place() == none || b.place() == none {
            return true;
        }
        self.constant(a).is_some() && self.constant(b).is_some()
    }

    /// The last term of two chains in one, taken off.
    fn step(&mut self, k: Chain, a: Term, b: Term, units: &Units) -> Result<Step, AllocError>
        requires first { a < length self.old }
        requires second { b < length self.old }
        requires same { width_of self.old a ≡ width_of self.old b }
        requires units { AreUnits self.old (width_of self.old a) units.now.zero units.now.one }
        ensures kept { Keeps self.old self.new }
        ensures steps { IfOk result (λ r. Steps self.old self.new k a b r.first r.second r.last) }
    {
        let (x, s) = self.split(k, a, units);
        let (y, u) = self.split(k, b, units);
        if let Some(joint) = self.alike(k, s, u, units) {
            let last = self.scaled(joint.word, joint.term)?;
            return Ok(Step {
                first: x,
                second: y,
                last,
            });
        }
        if self.goes_behind(k, s, u, units) {
            return Ok(Step {
                first: x,
                second: b,
                last: s,
            });
        }
        Ok(Step {
            first: a,
            second: y,
            last: u,
        })
    }

    /// Two chains as one, in order. From `left` terms on they stay as they are.
    #[tactic(auto, using(crate::proofs::FoldLemmas::keeping))]
    fn merged(
        &mut self,
        k: Chain,
        a: Term,
        b: Term,
        units: &Units,
        left: u8,
    ) -> Result<Term, AllocError>
        requires first { a < length self.old }
        requires second { b < length self.old }
        requires same { width_of self.old a ≡ width_of self.old b }
        requires units { AreUnits self.old (width_of self.old a) units.now.zero units.now.one }
        ensures kept { Keeps self.old self.new }
        ensures value { IfOk result (λ t. Gives self.new t (λ v. op2_or (operator k) (value v self.old a) (value v self.old b))) }
    {
        if left == 0 || self.are_plain(k, a, b, units) {
            return self.plain_bin(operator(k), a, b);
        }
        let step = self.step(k, a, b, units)?;
        let rest = self.merged(k, step.first, step.second, units, left - 1)?;
        let t = self.appended(k, rest, step.last)?;
        Ok(t)
    }

    /// The product of two words times products.
    #[tactic(auto, using(crate::proofs::FoldLemmas::keeping))]
    fn multiples(&mut self, a: Term, b: Term, units: &Units) -> Result<Term, AllocError>
        requires first { a < length self.old }
        requires second { b < length self.old }
        requires same { width_of self.old a ≡ width_of self.old b }
        requires units { AreUnits self.old (width_of self.old a) units.now.zero units.now.one }
        ensures kept { Keeps self.old self.new }
        ensures value { IfOk result (λ t. Gives self.new t (λ v. op2_or Mul (value v self.old a) (value v self.old b))) }
    {
        let (c, m) = self.multiple(a, units);
        let (d, n) = self.multiple(b, units);
        let p = self.merged(Chain::Product, m, n, units, FACTORS)?;
        let t = self.scaled(knox_words::op2_or(Op2::Mul, c, d), p)?;
        Ok(t)
    }

    /// A sum times a word times a product.
    #[tactic(auto, using(crate::proofs::FoldLemmas::keeping))]
    fn times(&mut self, a: Term, s: Term, units: &Units, left: u8) -> Result<Term, AllocError>
        requires first { a < length self.old }
        requires second { s < length self.old }
        requires same { width_of self.old a ≡ width_of self.old s }
        requires units { AreUnits self.old (width_of self.old a) units.now.zero units.now.one }
        ensures kept { Keeps self.old self.new }
        ensures value { IfOk result (λ t. Gives self.new t (λ v. op2_or Mul (value v self.old a) (value v self.old s))) }
    {
        let (x, u) = self.split(Chain::Sum, a, units);
        if left == 0 || x.place() == unit(Chain::Sum, units).place() {
            return self.multiples(a, s, units);
        }
        let p = self.times(x, s, units, left - 1)?;
        let q = self.multiples(u, s, units)?;
        let t = self.merged(Chain::Sum, p, q, units, SUMMANDS)?;
        Ok(t)
    }

    /// The product of two sums.
    #[tactic(auto, using(crate::proofs::FoldLemmas::keeping))]
    fn product(&mut self, a: Term, b: Term, units: &Units, left: u8) -> Result<Term, AllocError>
        requires first { a < length self.old }
        requires second { b < length self.old }
        requires same { width_of self.old a ≡ width_of self.old b }
        requires units { AreUnits self.old (width_of self.old a) units.now.zero units.now.one }
        ensures kept { Keeps self.old self.new }
        ensures value { IfOk result (λ t. Gives self.new t (λ v. op2_or Mul (value v self.old a) (value v self.old b))) }
    {
        let (y, u) = self.split(Chain::Sum, b, units);
        if left == 0 || y.place() == unit(Chain::Sum, units).place() {
            return self.times(a, b, units, SUMMANDS);
        }
        let p = self.product(a, y, units, left - 1)?;
        let q = self.times(a, u, units, SUMMANDS)?;
        let t = self.merged(Chain::Sum, p, q, units, SUMMANDS)?;
        Ok(t)
    }

    /// What stands before the last term of a sum.
    fn before_last(&self, a: Term) -> Option<Term>
        requires { a < length self.now }
        ensures { IfSome result (λ x. x < length self.now) }
    {
        match self.node(a) {
            Node::Bin(o, x, _) if links(Chain::Sum, o) => Some(x),
            _ => None,
        }
    }

    /// How many terms a sum has, and a number that is too many where there are more.
    fn summands(&self, a: Term) -> u16
        requires { a < length self.now }
        ensures { result ≤ 33 }
    {
        let mut rest = a;
        for found in 1..33 {
            match self.before_last(rest) {
                Some(x) => rest = x,
                None => return found,
            }
        }
        33
    }

    /// The sum of two terms.
    #[tactic(auto, using(crate::proofs::WidthLemmas::worded, crate::proofs::FoldLemmas::keeping))]
    pub(crate) fn sum(&mut self, a: Term, b: Term) -> Result<Term, AllocError>
        requires first { a < length self.old }
        requires second { b < length self.old }
        requires same { width_of self.old a ≡ width_of self.old b }
        ensures kept { Keeps self.old self.new }
        ensures value { IfOk result (λ t. Gives self.new t (λ v. op2_or Add (value v self.old a) (value v self.old b))) }
    {
        let units = self.units(self.width(a))?;
        let t = self.merged(Chain::Sum, a, b, &units, SUMMANDS)?;
        Ok(t)
    }

    /// A word and a term's sum.
    #[tactic(auto, using(crate::proofs::FoldLemmas::keeping))]
    fn raised(&mut self, c: Word, a: Term) -> Result<Term, AllocError>
        requires within { a < length self.old }
        requires same { c.width ≡ width_of self.old a }
        ensures kept { Keeps self.old self.new }
        ensures value { IfOk result (λ t. Gives self.new t (λ v. op2_or Add c (value v self.old a))) }
    {
        let f = self.word(c)?;
        let t = self.sum(f, a)?;
        Ok(t)
    }

    /// One more than a term.
    pub(crate) fn successor(&mut self, a: Term) -> Result<Term, AllocError>
        requires { a < length self.old }
        ensures kept { Keeps self.old self.new }
        ensures value { IfOk result (λ t. Gives self.new t (λ v. op1_value Inc (value v self.old a))) }
    {
        let one = word_or(self.width(a), 1);
        let t = self.raised(one, a)?;
        Ok(t)
    }

    /// One less than a term.
    pub(crate) fn predecessor(&mut self, a: Term) -> Result<Term, AllocError>
        requires { a < length self.old }
        ensures kept { Keeps self.old self.new }
        ensures value { IfOk result (λ t. Gives self.new t (λ v. op1_value Dec (value v self.old a))) }
    {
        let ones = op1(Op1::Not, word_or(self.width(a), 0));
        let t = self.raised(ones, a)?;
        Ok(t)
    }

    /// The product of two terms, which is a sum where that has few terms.
    #[tactic(auto, using(crate::proofs::WidthLemmas::worded, crate::proofs::FoldLemmas::keeping))]
    pub(crate) fn multiplied(&mut self, a: Term, b: Term) -> Result<Term, AllocError>
        requires first { a < length self.old }
        requires second { b < length self.old }
        requires same { width_of self.old a ≡ width_of self.old b }
        ensures kept { Keeps self.old self.new }
        ensures value { IfOk result (λ t. Gives self.new t (λ v. op2_or Mul (value v self.old a) (value v self.old b))) }
    {
        let units = self.units(self.width(a))?;
        if self.summands(a) * self.summands(b) <= u16::from(SUMMANDS) {
            let t = self.product(a, b, &units, SUMMANDS)?;
            return Ok(t);
        }
        let t = self.multiples(a, b, &units)?;
        Ok(t)
    }

    /// The negative of a term.
    #[tactic(auto, using(crate::proofs::FoldLemmas::keeping))]
    pub(crate) fn negated(&mut self, a: Term) -> Result<Term, AllocError>
        requires { a < length self.old }
        ensures kept { Keeps self.old self.new }
        ensures value { IfOk result (λ t. Gives self.new t (λ v. op1_value Neg (value v self.old a))) }
    {
        let width = self.width(a);
        let ones = self.word(op1(Op1::Not, word_or(width, 0)))?;
        let t = self.multiplied(ones, a)?;
        Ok(t)
    }

    /// The difference of two terms.
    #[tactic(auto, using(crate::proofs::FoldLemmas::keeping))]
    pub(crate) fn difference(&mut self, a: Term, b: Term) -> Result<Term, AllocError>
        requires first { a < length self.old }
        requires second { b < length self.old }
        requires same { width_of self.old a ≡ width_of self.old b }
        ensures kept { Keeps self.old self.new }
        ensures value { IfOk result (λ t. Gives self.new t (λ v. op2_or Sub (value v self.old a) (value v self.old b))) }
    {
        let n = self.negated(b)?;
        let t = self.sum(a, n)?;
        Ok(t)
    }

    /// The complement of a term, as its negative less 1.
    pub(crate) fn complemented(&mut self, y: Term) -> Result<Term, AllocError>
        requires { y < length self.old }
        ensures kept { Keeps self.old self.new }
        ensures value { IfOk result (λ t. Gives self.new t (λ v. op1_value Not (value v self.old y))) }
    {
        let n = self.negated(y)?;
        let t = self.predecessor(n)?;
        Ok(t)
    }

    /// A term, as a sum where it is a complement.
    pub(crate) fn opened(&mut self, a: Term) -> Result<Term, AllocError>
        requires { a < length self.old }
        ensures kept { Keeps self.old self.new }
        ensures value { IfOk result (λ t. Gives self.new t (λ v. value v self.old a)) }
    {
        if let Some(y) = self.operand(Op1::Not, a) {
            let t = self.complemented(y)?;
            return Ok(t);
        }
        Ok(a)
    }

    /// The term of which a sum is the complement, where it is a negative less 1.
    fn complement_in(&self, t: Term) -> Option<Term>
        requires { t < length self.now }
        ensures { IfSome result (IsOperand self.now Not t) }
    {
        match self.node(t) {
            Node::Bin(o, c, n) if links(Chain::Sum, o) => {
                let w = self.constant(c)?;
                if op1(Op1::Not, w).value() != 0 {
                    return None;
                }
                let y = self.operand(Op1::Neg, n)?;
                Some(y)
            }
            _ => None,
        }
    }

    /// A term, as a complement where it is a negative less 1.
    pub(crate) fn closed(&mut self, t: Term) -> Result<Term, AllocError>
        requires { t < length self.old }
        ensures kept { Keeps self.old self.new }
        ensures value { IfOk result (λ s. Gives self.new s (λ v. value v self.old t)) }
    {
        if let Some(y) = self.complement_in(t) {
            let s = self.plain_un(Op1::Not, y)?;
            return Ok(s);
        }
        Ok(t)
    }

    /// A term shifted to the left by a word.
    #[tactic(auto, using(crate::proofs::FoldLemmas::keeping))]
    pub(crate) fn shifted(&mut self, a: Term, c: Word) -> Result<Term, AllocError>
        requires within { a < length self.old }
        requires same { width_of self.old a ≡ c.width }
        ensures kept { Keeps self.old self.new }
        ensures value { IfOk result (λ t. Gives self.new t (λ v. op2_or Sll (value v self.old a) c)) }
    {
        let power = knox_words::op2_or(Op2::Sll, word_or(c.width(), 1), c);
        let f = self.word(power)?;
        let t = self.multiplied(f, a)?;
        Ok(t)
    }
}
