//! Graphs of terms: a list of nodes, children before parents and no two equal.
ghost use Rattle.std.specs.Prelude.{◌≡◌, ◌+◌, ◌<◌, ◌≤◌, [], ◌∷◌, ◌++◌, List, length, OnOk, OnErr, IfOk, slice_get, Some, IsTrue, false, IfSome, if◌then◌else◌};
ghost use Rattle.knox_words.specs.Bits.{Bits, IsWord, word_at};
ghost use Rattle.knox_words.specs.Ops.{op1_value, op2_or, fits2_of, sext_or, uext_or, slice_or};
ghost use Rattle.term_graph.specs.Value.{value, level, width_of, vars_of, is_var, ite_or, of_width};
ghost use Rattle.term_graph.specs.Kept.{Keeps, Gives, Adds, IsAlways, Makes};
ghost use Rattle.term_graph.specs.Built.{IsNext, IsBuilt, IsGraph};

use crate::node::{Node, Term};
use indexmap::IndexSet;
use knox_words::{Op1, Op2, Word};
use std::alloc::{AllocError, Global};
use std::marker::Model;

/// A graph of terms. Contracts see it as the list of its nodes.
#[derive(Drop)]
pub struct Graph {
    nodes: IndexSet<Node>,
    widths: Vec<u8>,
    vars: Vec<Term>,
}

impl Model for Graph {
    ghost use Rattle.std.specs.Prelude.{List};
    ghost use Rattle.term_graph.specs.declared.node.Node.{Node};
    ghost use Rattle.term_graph.specs.Built.{IsKept};

    ghost Value = { List Node };

    ghost view = { λ g. g.nodes.keys };

    ghost invariant = { λ g. IsKept g.nodes.keys g.widths.items g.vars.items };
}

/// The place of a node, and whether it is new: it is added where there is none that is equal.
fn insert(nodes: &mut IndexSet<Node>, node: Node) -> Result<(usize, bool), AllocError>
    ensures at { IfOk result (λ r. slice_get nodes.new.keys r.0 ≡ Some node) }
    ensures inserts { IfOk result (λ r. nodes.new.keys ≡ (if r.1 then nodes.old.keys ++ node ∷ [] else nodes.old.keys)) }
    ensures err { OnErr result (nodes.new.keys ≡ nodes.old.keys) }
{
    let inserted = nodes.insert_full(node)?;
    Ok(inserted)
}

/// The place of a node, which is added with its width where there is none that is equal.
fn add(
    nodes: &mut IndexSet<Node>,
    widths: &mut Vec<u8>,
    node: Node,
    width: u8,
) -> Result<usize, AllocError>
    ensures at { IfOk result (λ t. slice_get nodes.new.keys t ≡ Some node) }
    ensures adds { OnOk result (Adds nodes.old.keys widths.old.items node width nodes.new.keys widths.new.items) }
    ensures err { OnErr result (nodes.new.keys ≡ nodes.old.keys) }
    ensures same { OnErr result (widths.new.items ≡ widths.old.items) }
{
    widths.push(width)?;
    match insert(nodes, node) {
        Ok((place, true)) => Ok(place),
        Ok((place, false)) => {
            widths.pop();
            Ok(place)
        }
        Err(failed) => {
            widths.pop();
            Err(failed)
        }
    }
}

impl Graph {
    /// A graph without terms.
    pub fn new(alloc: Global) -> Graph
        ensures { result ≡ [] }
    {
        Graph {
            nodes: IndexSet::new(alloc),
            widths: Vec::new(alloc),
            vars: Vec::new(alloc),
        }
    }

    /// The number of terms.
    pub fn len(&self) -> usize
        ensures { result ≡ length self.now }
    {
        self.nodes.len()
    }

    /// The node at a term. Children stand before parents, and no two nodes are equal.
    pub fn node(&self, t: Term) -> Node
        requires { t < length self.now }
        ensures node { slice_get self.now t ≡ Some result }
        ensures graph { IsGraph self.now }
    {
        let nodes = self.nodes.as_slice();
        nodes[t.place()]
    }

    /// The width of a term, which its value has under every valuation.
    #[tactic(auto, using(crate::proofs::WidthLemmas::worded))]
    pub fn width(&self, t: Term) -> u8
        requires { t < length self.now }
        ensures width { result ≡ width_of self.now t }
        ensures each { (v : List Bits) → (value v self.now t).width ≡ result }
        ensures word { (v : List Bits) → IsWord (value v self.now t) }
    {
        self.widths[t.place()]
    }

    /// The variables in order of making.
    pub fn vars(&self) -> &[Term]
        ensures { result.now ≡ vars_of self.now }
    {
        self.vars.as_slice()
    }

    /// A new variable, with the next number. `Err` is want of memory.
    pub fn var(&mut self, width: u8) -> Result<Term, AllocError>
        requires wide { 1 ≤ width }
        requires narrow { width ≤ 128 }
        ensures made { IfOk result (Makes self.old width self.new) }
        ensures err { OnErr result (self.new ≡ self.old) }
    {
        let number = self.vars.len();
        self.vars.push(Term::at(self.nodes.len()))?;
        match add(
            &mut self.nodes,
            &mut self.widths,
            Node::Var(width, number),
            width,
        ) {
            Ok(place) => Ok(Term::at(place)),
            Err(failed) => {
                self.vars.pop();
                Err(failed)
            }
        }
    }

    /// The place of a node, which is added where the graph has none that is equal.
    pub(crate) fn place_of(&mut self, node: Node, width: u8) -> Result<Term, AllocError>
        requires next { IsNext self.old node }
        requires not_var { is_var node ≡ false }
        requires wide { width ≡ (level [] (value [] self.old) node).width }
        ensures kept { Keeps self.old self.new }
        ensures value { IfOk result (λ t. Gives self.new t (λ v. level v (value v self.old) node)) }
        ensures err { OnErr result (self.new ≡ self.old) }
    {
        let place = add(&mut self.nodes, &mut self.widths, node, width)?;
        Ok(Term::at(place))
    }
}
