//! Sums and products as chains: a sum is `((first + second) + ..) + last`, each of its summands is a
//! word times a product, and a product is a chain of factors.
ghost use Rattle.std.specs.Prelude.{◌≡◌, ◌<◌, length, IfSome};
ghost use Rattle.term_graph.specs.Value.{value, width_of};
ghost use Rattle.term_graph.specs.Chains.{operator, links, unit_of, same_sign, AreUnits, Splits, IsMultiple, IsOperand};

use crate::graph::Graph;
use crate::node::{Node, Term};
use knox_words::{Op1, Op2, Word, op1, word_or};

/// What a chain is.
#[derive(Clone, Copy)]
pub(crate) enum Chain {
    /// A sum.
    Sum,
    /// A product.
    Product,
}

/// The terms that are the words 0 and 1 of a width.
#[derive(Drop)]
pub(crate) struct Units {
    pub(crate) zero: Term,
    pub(crate) one: Term,
}

/// The operator of a chain.
pub(crate) fn operator(k: Chain) -> Op2
    ensures { result ≡ operator k }
{
    match k {
        Chain::Sum => Op2::Add,
        Chain::Product => Op2::Mul,
    }
}

/// Whether an operator is that of a chain.
pub(crate) fn links(k: Chain, o: Op2) -> bool
    ensures { result ≡ links k o }
{
    match (k, o) {
        (Chain::Sum, Op2::Add) | (Chain::Product, Op2::Mul) => true,
        _ => false,
    }
}

/// The term that a chain without terms is.
pub(crate) fn unit(k: Chain, units: &Units) -> Term
    ensures { result ≡ unit_of k units.now.zero units.now.one }
{
    match k {
        Chain::Sum => units.zero,
        Chain::Product => units.one,
    }
}

/// Whether two operators are both the complement or both the negative.
pub(crate) fn same_sign(o: Op1, p: Op1) -> bool
    ensures { result ≡ same_sign o p }
{
    match (o, p) {
        (Op1::Not, Op1::Not) | (Op1::Neg, Op1::Neg) => true,
        _ => false,
    }
}

impl Graph {
    /// A chain without its last term, and that term.
    pub(crate) fn split(&self, k: Chain, a: Term, units: &Units) -> (Term, Term)
        requires within { a < length self.now }
        requires units { AreUnits self.now (width_of self.now a) units.now.zero units.now.one }
        ensures { Splits self.now k a result.0 result.1 }
    {
        match self.node(a) {
            Node::Bin(o, x, s) if links(k, o) => (x, s),
            _ => (unit(k, units), a),
        }
    }

    /// The word and the term of which a term is the product, where its node has them.
    fn factors(&self, t: Term) -> Option<(Word, Term)>
        requires { t < length self.now }
        ensures { IfSome result (λ r. IsMultiple self.now t r.0 r.1) }
    {
        match self.node(t) {
            Node::Bin(o, c, m) if links(Chain::Product, o) => {
                let c = self.constant(c)?;
                Some((c, m))
            }
            _ => None,
        }
    }

    /// The word and the term of which a term is the product, where its node is not a negative.
    fn unsigned(&self, t: Term) -> (Word, Term)
        requires { t < length self.now }
        ensures { IsMultiple self.now t result.0 result.1 }
    {
        match self.factors(t) {
            Some(parts) => parts,
            None => (word_or(self.width(t), 1), t),
        }
    }

    /// The operand of the complement or the negative, where a term is one.
    pub(crate) fn operand(&self, o: Op1, t: Term) -> Option<Term>
        requires { t < length self.now }
        ensures { IfSome result (IsOperand self.now o t) }
    {
        match self.node(t) {
            Node::Un(p, m) if same_sign(o, p) => Some(m),
            _ => None,
        }
    }

    /// The word and the term of which a term is the product. A word is itself times 1.
    pub(crate) fn multiple(&self, t: Term, units: &Units) -> (Word, Term)
        requires within { t < length self.now }
        requires units { AreUnits self.now (width_of self.now t) units.now.zero units.now.one }
        ensures { IsMultiple self.now t result.0 result.1 }
    {
        if let Some(c) = self.constant(t) {
            return (c, units.one);
        }
        if let Some(m) = self.operand(Op1::Neg, t) {
            let (c, n) = self.unsigned(m);
            let _width = c.width();
            return (op1(Op1::Neg, c), n);
        }
        self.unsigned(t)
    }
}
