//! The constructors of terms, which simplify. Each keeps the value of every older term under every
//! valuation, also where memory runs out, and makes no variable.
ghost use Rattle.std.specs.Prelude.{◌≡◌, ◌+◌, ◌<◌, ◌≤◌, length, IfOk, IsTrue, IfSome, true, []};
ghost use Rattle.std.specs.Option.{ForSome};
ghost use Rattle.knox_words.specs.Ops.{op1_value, op2_or, fits2_of, sext_or, uext_or, slice_or};
ghost use Rattle.knox_words.specs.declared.op.Op2.TheVariants.{Sll};
ghost use Rattle.term_graph.specs.Value.{value, width_of, ite_or};
ghost use Rattle.term_graph.specs.Kept.{Keeps, Gives, IsAlways};
ghost use Rattle.term_graph.specs.Rules.{ruled, Becomes, Chooses, IsChoice, Narrows, narrow_value};

use crate::chain::{Chain, links, same_sign};
use crate::graph::Graph;
use crate::node::{Node, Term};
use crate::rules::{
    Rule, apart, first_rule, is_commutative, is_equality, same_rule, second_rule, shortened, undoes,
};
use knox_words::{Op1, Op2, Word};
use std::alloc::AllocError;

/// The children of a choice.
#[derive(Clone, Copy)]
struct Arms {
    condition: Term,
    first: Term,
    second: Term,
}

impl Graph {
    /// The term that is a word. `Err` is want of memory.
    #[tactic(auto, using(crate::proofs::BuiltLemmas::wording, crate::proofs::FoldLemmas::folding))]
    pub fn word(&mut self, w: Word) -> Result<Term, AllocError>
        ensures kept { Keeps self.old self.new }
        ensures value { IfOk result (λ t. Gives self.new t (λ _. w)) }
    {
        let width = w.width();
        self.place_of(Node::Word(w), width)
    }

    /// The word that a term is under each valuation, where its node is one.
    #[tactic(auto, using(crate::proofs::BuiltLemmas::wording))]
    pub(crate) fn constant(&self, t: Term) -> Option<Word>
        requires { t < length self.now }
        ensures { IfSome result (IsAlways self.now t) }
    {
        match self.node(t) {
            Node::Word(w) => {
                let _width = w.width();
                Some(w)
            }
            _ => None,
        }
    }

    /// The term that an operator gives back, where it undoes that of a term.
    fn undone(&self, o: Op1, a: Term) -> Option<Term>
        requires { a < length self.now }
        ensures { IfSome result (λ t. Gives self.now t (λ v. op1_value o (value v self.now a))) }
    {
        match self.node(a) {
            Node::Un(inner, x) if undoes(o, inner) => Some(x),
            _ => None,
        }
    }

    /// An operator on a term, where it isn't arithmetic.
    #[tactic(auto, using(crate::proofs::FoldLemmas::folding))]
    pub(crate) fn plain_un(&mut self, o: Op1, a: Term) -> Result<Term, AllocError>
        requires { a < length self.old }
        ensures kept { Keeps self.old self.new }
        ensures value { IfOk result (λ t. Gives self.new t (λ v. op1_value o (value v self.old a))) }
    {
        if let Some(x) = self.constant(a) {
            return self.word(knox_words::op1(o, x));
        }
        if let Some(t) = self.undone(o, a) {
            return Ok(t);
        }
        let width = knox_words::op1_width(o, self.width(a));
        self.place_of(Node::Un(o, a), width)
    }

    /// A term by a rule.
    #[tactic(auto, using(crate::proofs::FoldLemmas::folding))]
    fn apply(&mut self, t: Term, rule: Rule) -> Result<Term, AllocError>
        requires { t < length self.old }
        ensures kept { Keeps self.old self.new }
        ensures value { IfOk result (λ s. Gives self.new s (λ v. ruled rule (value v self.old t))) }
    {
        match rule {
            Rule::Itself => Ok(t),
            Rule::Turned => self.plain_un(Op1::Not, t),
            Rule::Word(w) => self.word(w),
        }
    }

    /// The rule for an operator on two terms that are one.
    fn rule_for_same(&self, o: Op2, a: Term, b: Term) -> Option<Rule>
        requires first { a < length self.now }
        requires second { b < length self.now }
        requires fits { IsTrue (fits2_of o (width_of self.now a) (width_of self.now b)) }
        ensures { IfSome result (λ r. Becomes self.now a r (λ v. op2_or o (value v self.now a) (value v self.now b))) }
    {
        if a.place() != b.place() {
            return None;
        }
        same_rule(o, self.width(a))
    }

    /// The rule for an operator on a word and a term.
    fn rule_for_first(&self, o: Op2, a: Term, b: Term) -> Option<Rule>
        requires first { a < length self.now }
        requires second { b < length self.now }
        requires fits { IsTrue (fits2_of o (width_of self.now a) (width_of self.now b)) }
        ensures { IfSome result (λ r. Becomes self.now b r (λ v. op2_or o (value v self.now a) (value v self.now b))) }
    {
        let c = self.constant(a)?;
        if c.width() != self.width(b) {
            return None;
        }
        first_rule(o, c)
    }

    /// The rule for an operator on a term and a word.
    fn rule_for_second(&self, o: Op2, a: Term, b: Term) -> Option<Rule>
        requires first { a < length self.now }
        requires second { b < length self.now }
        requires fits { IsTrue (fits2_of o (width_of self.now a) (width_of self.now b)) }
        ensures { IfSome result (λ r. Becomes self.now a r (λ v. op2_or o (value v self.now a) (value v self.now b))) }
    {
        let c = self.constant(b)?;
        if c.width() != self.width(a) {
            return None;
        }
        second_rule(o, c)
    }

    /// An operator on two terms in this order.
    #[tactic(auto, using(crate::proofs::FoldLemmas::folding, crate::proofs::BecomeLemmas::becoming))]
    pub(crate) fn joined(&mut self, o: Op2, a: Term, b: Term) -> Result<Term, AllocError>
        requires first { a < length self.old }
        requires second { b < length self.old }
        requires fits { IsTrue (fits2_of o (width_of self.old a) (width_of self.old b)) }
        ensures kept { Keeps self.old self.new }
        ensures value { IfOk result (λ t. Gives self.new t (λ v. op2_or o (value v self.old a) (value v self.old b))) }
    {
        if let (Some(x), Some(y)) = (self.constant(a), self.constant(b)) {
            return self.word(knox_words::op2_or(o, x, y));
        }
        if let Some(rule) = self.rule_for_same(o, a, b) {
            return self.apply(a, rule);
        }
        if let Some(rule) = self.rule_for_first(o, a, b) {
            return self.apply(b, rule);
        }
        if let Some(rule) = self.rule_for_second(o, a, b) {
            return self.apply(a, rule);
        }
        let width = knox_words::op2_width(o, self.width(a), self.width(b));
        self.place_of(Node::Bin(o, a, b), width)
    }

    /// Where an operator asks for the equality of a word and an extension: the word of which the
    /// first is the extension, if there is one, and the term that is extended.
    fn narrowed(&self, o: Op2, a: Term, b: Term) -> Option<(Option<Word>, Term)>
        requires first { a < length self.now }
        requires second { b < length self.now }
        ensures { IfSome result (λ r. Narrows self.now o a b r.0 r.1) }
    {
        let c = self.constant(a)?;
        if !is_equality(o) || c.width() != self.width(b) {
            return None;
        }
        match self.node(b) {
            Node::Uext(x, n) if n < c.width() => Some((shortened(c, n, false), x)),
            Node::Sext(x, n) if n < c.width() => Some((shortened(c, n, true), x)),
            _ => None,
        }
    }

    /// An operator that asks for equality, on a word, if there is one, and a term.
    #[tactic(auto, using(crate::proofs::FoldLemmas::keeping))]
    fn compared(&mut self, o: Op2, d: Option<Word>, x: Term) -> Result<Term, AllocError>
        requires within { x < length self.old }
        requires fits { ForSome d (λ y. fits2_of o y.width (width_of self.old x) ≡ true) }
        ensures kept { Keeps self.old self.new }
        ensures value { IfOk result (λ t. Gives self.new t (λ v. narrow_value o d (value v self.old x))) }
    {
        match d {
            Some(y) => {
                let y = self.word(y)?;
                let t = self.joined(o, y, x)?;
                Ok(t)
            }
            None => self.word(apart(o)),
        }
    }

    /// An operator on two terms in this order, where a word is not compared with an extension.
    #[tactic(auto, using(crate::proofs::ExtendLemmas::narrowing))]
    fn ordered(&mut self, o: Op2, a: Term, b: Term) -> Result<Term, AllocError>
        requires first { a < length self.old }
        requires second { b < length self.old }
        requires fits { IsTrue (fits2_of o (width_of self.old a) (width_of self.old b)) }
        ensures kept { Keeps self.old self.new }
        ensures value { IfOk result (λ t. Gives self.new t (λ v. op2_or o (value v self.old a) (value v self.old b))) }
    {
        if let Some((d, x)) = self.narrowed(o, a, b) {
            return self.compared(o, d, x);
        }
        self.joined(o, a, b)
    }

    /// Whether two operands of a commutative operator are to be turned: a word goes first, and else
    /// the older term.
    pub(crate) fn are_turned(&self, a: Term, b: Term) -> bool
        requires first { a < length self.now }
        requires second { b < length self.now }
    {
        match (self.constant(a), self.constant(b)) {
            (Some(_), None) => false,
            (None, Some(_)) => true,
            _ => b.place() < a.place(),
        }
    }

    /// An operator on two terms, where it isn't arithmetic.
    #[tactic(auto, using(crate::proofs::BecomeLemmas::turning))]
    pub(crate) fn plain_bin(&mut self, o: Op2, a: Term, b: Term) -> Result<Term, AllocError>
        requires first { a < length self.old }
        requires second { b < length self.old }
        requires fits { IsTrue (fits2_of o (width_of self.old a) (width_of self.old b)) }
        ensures kept { Keeps self.old self.new }
        ensures value { IfOk result (λ t. Gives self.new t (λ v. op2_or o (value v self.old a) (value v self.old b))) }
    {
        if is_commutative(o) && self.are_turned(a, b) {
            let t = self.ordered(o, b, a)?;
            return Ok(t);
        }
        self.ordered(o, a, b)
    }

    /// Whether a term of more than one bit is a sum, a product or a negative.
    fn is_number(&self, a: Term) -> bool
        requires { a < length self.now }
    {
        if self.width(a) == 1 {
            return false;
        }
        match self.node(a) {
            Node::Bin(o, _, _) => links(Chain::Sum, o) || links(Chain::Product, o),
            Node::Un(o, _) => same_sign(Op1::Neg, o),
            _ => false,
        }
    }

    /// An operator on a term, where it is arithmetic.
    fn signed(&mut self, o: Op1, a: Term) -> Result<Term, AllocError>
        requires { a < length self.old }
        ensures kept { Keeps self.old self.new }
        ensures value { IfOk result (λ t. Gives self.new t (λ v. op1_value o (value v self.old a))) }
    {
        match o {
            Op1::Neg => self.negated(a),
            Op1::Inc => self.successor(a),
            Op1::Dec => self.predecessor(a),
            Op1::Not => self.complemented(a),
            _ => self.plain_un(o, a),
        }
    }

    /// The same, where the term may be a complement.
    #[tactic(auto, using(crate::proofs::FoldLemmas::keeping))]
    fn signed_open(&mut self, o: Op1, a: Term) -> Result<Term, AllocError>
        requires { a < length self.old }
        ensures kept { Keeps self.old self.new }
        ensures value { IfOk result (λ t. Gives self.new t (λ v. op1_value o (value v self.old a))) }
    {
        let x = self.opened(a)?;
        let t = self.signed(o, x)?;
        Ok(t)
    }

    /// An operator on a term. `Err` is want of memory.
    #[tactic(auto, using(crate::proofs::FoldLemmas::keeping))]
    pub fn un(&mut self, o: Op1, a: Term) -> Result<Term, AllocError>
        requires { a < length self.old }
        ensures kept { Keeps self.old self.new }
        ensures value { IfOk result (λ t. Gives self.new t (λ v. op1_value o (value v self.old a))) }
    {
        let arithmetic = match o {
            Op1::Neg | Op1::Inc | Op1::Dec => true,
            Op1::Not => self.is_number(a),
            _ => false,
        };
        if !arithmetic {
            return self.plain_un(o, a);
        }
        let t = self.signed_open(o, a)?;
        let s = self.closed(t)?;
        Ok(s)
    }

    /// A term shifted to the left by another.
    fn left_shift(&mut self, a: Term, b: Term) -> Result<Term, AllocError>
        requires first { a < length self.old }
        requires second { b < length self.old }
        requires same { width_of self.old a ≡ width_of self.old b }
        ensures kept { Keeps self.old self.new }
        ensures value { IfOk result (λ t. Gives self.new t (λ v. op2_or Sll (value v self.old a) (value v self.old b))) }
    {
        if let Some(c) = self.constant(b) {
            let t = self.shifted(a, c)?;
            return Ok(t);
        }
        self.plain_bin(Op2::Sll, a, b)
    }

    /// An operator on two terms, where it is arithmetic.
    fn calculated(&mut self, o: Op2, a: Term, b: Term) -> Result<Term, AllocError>
        requires first { a < length self.old }
        requires second { b < length self.old }
        requires fits { IsTrue (fits2_of o (width_of self.old a) (width_of self.old b)) }
        ensures kept { Keeps self.old self.new }
        ensures value { IfOk result (λ t. Gives self.new t (λ v. op2_or o (value v self.old a) (value v self.old b))) }
    {
        match o {
            Op2::Add => self.sum(a, b),
            Op2::Sub => self.difference(a, b),
            Op2::Mul => self.multiplied(a, b),
            Op2::Sll => self.left_shift(a, b),
            _ => self.plain_bin(o, a, b),
        }
    }

    /// Whether an operator on a term and another is arithmetic.
    fn is_arithmetic(&self, o: Op2, b: Term) -> bool
        requires { b < length self.now }
    {
        match o {
            Op2::Add | Op2::Sub | Op2::Mul => true,
            Op2::Sll => self.constant(b).is_some(),
            _ => false,
        }
    }

    /// The same, where the terms may be complements.
    #[tactic(auto, using(crate::proofs::FoldLemmas::keeping))]
    fn calculated_open(&mut self, o: Op2, a: Term, b: Term) -> Result<Term, AllocError>
        requires first { a < length self.old }
        requires second { b < length self.old }
        requires fits { IsTrue (fits2_of o (width_of self.old a) (width_of self.old b)) }
        ensures kept { Keeps self.old self.new }
        ensures value { IfOk result (λ t. Gives self.new t (λ v. op2_or o (value v self.old a) (value v self.old b))) }
    {
        let x = self.opened(a)?;
        let y = self.opened(b)?;
        let t = self.calculated(o, x, y)?;
        Ok(t)
    }

    /// An operator on two terms of widths that it takes. `Err` is want of memory.
    #[tactic(auto, using(crate::proofs::FoldLemmas::keeping))]
    pub fn bin(&mut self, o: Op2, a: Term, b: Term) -> Result<Term, AllocError>
        requires first { a < length self.old }
        requires second { b < length self.old }
        requires fits { IsTrue (fits2_of o (width_of self.old a) (width_of self.old b)) }
        ensures kept { Keeps self.old self.new }
        ensures value { IfOk result (λ t. Gives self.new t (λ v. op2_or o (value v self.old a) (value v self.old b))) }
    {
        if !self.is_arithmetic(o, b) {
            return self.plain_bin(o, a, b);
        }
        let t = self.calculated_open(o, a, b)?;
        let s = self.closed(t)?;
        Ok(s)
    }

    /// A term's number, read with a sign, in `n` bits more. `Err` is want of memory.
    #[tactic(auto, using(crate::proofs::FoldLemmas::folding))]
    pub fn sext(&mut self, a: Term, n: u8) -> Result<Term, AllocError>
        requires within { a < length self.old }
        requires narrow { width_of self.old a + n ≤ 128 }
        ensures kept { Keeps self.old self.new }
        ensures value { IfOk result (λ t. Gives self.new t (λ v. sext_or (value v self.old a) n)) }
    {
        if n == 0 {
            return Ok(a);
        }
        if let Some(x) = self.constant(a) {
            return self.word(knox_words::sext_or(x, n));
        }
        let width = self.width(a) + n;
        self.place_of(Node::Sext(a, n), width)
    }

    /// A term's number in `n` bits more. `Err` is want of memory.
    #[tactic(auto, using(crate::proofs::FoldLemmas::folding))]
    pub fn uext(&mut self, a: Term, n: u8) -> Result<Term, AllocError>
        requires within { a < length self.old }
        requires narrow { width_of self.old a + n ≤ 128 }
        ensures kept { Keeps self.old self.new }
        ensures value { IfOk result (λ t. Gives self.new t (λ v. uext_or (value v self.old a) n)) }
    {
        if n == 0 {
            return Ok(a);
        }
        if let Some(x) = self.constant(a) {
            return self.word(knox_words::uext_or(x, n));
        }
        let width = self.width(a) + n;
        self.place_of(Node::Uext(a, n), width)
    }

    /// The bits of a term from `high` down to `low`, where bit 0 is the lowest. `Err` is want of
    /// memory.
    #[tactic(auto, using(crate::proofs::FoldLemmas::folding))]
    pub fn slice(&mut self, a: Term, high: u8, low: u8) -> Result<Term, AllocError>
        requires within { a < length self.old }
        requires order { low ≤ high }
        requires narrow { high < width_of self.old a }
        ensures kept { Keeps self.old self.new }
        ensures value { IfOk result (λ t. Gives self.new t (λ v. slice_or (value v self.old a) high low)) }
    {
        let whole = self.width(a);
        if low == 0 && high + 1 == whole {
            return Ok(a);
        }
        if let Some(x) = self.constant(a) {
            return self.word(knox_words::slice_or(x, high, low));
        }
        self.place_of(Node::Slice(a, high, low), high - low + 1)
    }

    /// The operator for a choice between two terms of width 1 of which one is a word, with what the
    /// condition becomes and the other term.
    fn bit_choice(&self, c: Term, a: Term, b: Term) -> Option<(Op2, Rule, Term)>
        requires condition { c < length self.now }
        requires first { a < length self.now }
        requires second { b < length self.now }
        requires bit { width_of self.now c ≡ 1 }
        requires same { width_of self.now a ≡ width_of self.now b }
        ensures { IfSome result (λ r. Chooses self.now c a b r.0 r.1 r.2) }
    {
        if self.width(a) != 1 {
            return None;
        }
        if let Some(y) = self.constant(b) {
            if y.value() == 0 {
                return Some((Op2::And, Rule::Itself, a));
            }
            return Some((Op2::Or, Rule::Turned, a));
        }
        if let Some(x) = self.constant(a) {
            if x.value() == 0 {
                return Some((Op2::And, Rule::Turned, b));
            }
            return Some((Op2::Or, Rule::Itself, b));
        }
        None
    }

    /// An operator on what a rule makes of a term, and another term.
    fn ruled_bin(&mut self, o: Op2, c: Term, rule: Rule, x: Term) -> Result<Term, AllocError>
        requires condition { c < length self.old }
        requires other { x < length self.old }
        requires fits { fits2_of o (ruled rule (value [] self.old c)).width (width_of self.old x) ≡ true }
        ensures kept { Keeps self.old self.new }
        ensures value { IfOk result (λ t. Gives self.new t (λ v. op2_or o (ruled rule (value v self.old c)) (value v self.old x))) }
    {
        let d = self.apply(c, rule)?;
        let t = self.bin(o, d, x)?;
        Ok(t)
    }

    /// `a` where `c` is 1, and else `b`, where the condition is not turned.
    #[tactic(auto, using(crate::proofs::FoldLemmas::folding, crate::proofs::FoldLemmas::choosing, crate::proofs::ChoiceLemmas::choosing_bits))]
    fn choice(&mut self, c: Term, a: Term, b: Term) -> Result<Term, AllocError>
        requires condition { c < length self.old }
        requires first { a < length self.old }
        requires second { b < length self.old }
        requires bit { width_of self.old c ≡ 1 }
        requires same { width_of self.old a ≡ width_of self.old b }
        ensures kept { Keeps self.old self.new }
        ensures value { IfOk result (λ t. Gives self.new t (λ v. ite_or (value v self.old c) (value v self.old a) (value v self.old b))) }
    {
        if a.place() == b.place() {
            return Ok(a);
        }
        if let Some(x) = self.constant(c) {
            if x.value() == 1 {
                return Ok(a);
            }
            return Ok(b);
        }
        if let Some((o, rule, x)) = self.bit_choice(c, a, b) {
            let t = self.ruled_bin(o, c, rule, x)?;
            return Ok(t);
        }
        let width = self.width(a);
        self.place_of(Node::Ite(c, a, b), width)
    }

    /// The children of a term that is a choice.
    fn arms(&self, t: Term) -> Option<Arms>
        requires { t < length self.now }
        ensures { IfSome result (λ r. IsChoice self.now t r.condition r.first r.second) }
    {
        match self.node(t) {
            Node::Ite(condition, first, second) => Some(Arms {
                condition,
                first,
                second,
            }),
            _ => None,
        }
    }

    /// A choice by what an operator makes of two conditions.
    fn joint(&mut self, o: Op2, c: Term, d: Term, a: Term, b: Term) -> Result<Term, AllocError>
        requires outer { c < length self.old }
        requires inner { d < length self.old }
        requires first { a < length self.old }
        requires second { b < length self.old }
        requires fits { IsTrue (fits2_of o (width_of self.old c) (width_of self.old d)) }
        requires bit { (op2_or o (value [] self.old c) (value [] self.old d)).width ≡ 1 }
        requires same { width_of self.old a ≡ width_of self.old b }
        ensures kept { Keeps self.old self.new }
        ensures value { IfOk result (λ t. Gives self.new t (λ v. ite_or (op2_or o (value v self.old c) (value v self.old d)) (value v self.old a) (value v self.old b))) }
    {
        let e = self.bin(o, c, d)?;
        let t = self.choice(e, a, b)?;
        Ok(t)
    }

    /// `a` where `c` is 1, and else `b`, where one of the two may be a choice that has the other.
    fn nested(&mut self, c: Term, a: Term, b: Term) -> Result<Term, AllocError>
        requires condition { c < length self.old }
        requires first { a < length self.old }
        requires second { b < length self.old }
        requires bit { width_of self.old c ≡ 1 }
        requires same { width_of self.old a ≡ width_of self.old b }
        ensures kept { Keeps self.old self.new }
        ensures value { IfOk result (λ t. Gives self.new t (λ v. ite_or (value v self.old c) (value v self.old a) (value v self.old b))) }
    {
        if let Some(inner) = self.arms(a) {
            if inner.second.place() == b.place() {
                let t = self.joint(Op2::And, c, inner.condition, inner.first, inner.second)?;
                return Ok(t);
            }
        }
        if let Some(inner) = self.arms(b) {
            if inner.first.place() == a.place() {
                let t = self.joint(Op2::Or, c, inner.condition, inner.first, inner.second)?;
                return Ok(t);
            }
        }
        self.choice(c, a, b)
    }

    /// `a` where `c`, of width 1, is 1, and else `b`, of the same width. `Err` is want of memory.
    #[tactic(auto, using(crate::proofs::FoldLemmas::turning_choice))]
    pub fn ite(&mut self, c: Term, a: Term, b: Term) -> Result<Term, AllocError>
        requires condition { c < length self.old }
        requires first { a < length self.old }
        requires second { b < length self.old }
        requires bit { width_of self.old c ≡ 1 }
        requires same { width_of self.old a ≡ width_of self.old b }
        ensures kept { Keeps self.old self.new }
        ensures value { IfOk result (λ t. Gives self.new t (λ v. ite_or (value v self.old c) (value v self.old a) (value v self.old b))) }
    {
        if let Some(d) = self.undone(Op1::Not, c) {
            let t = self.nested(d, b, a)?;
            return Ok(t);
        }
        self.nested(c, a, b)
    }
}
