//! Chains of writes: walks from a node down to the base, and what they gave at the nodes where walks
//! began, so that a later walk ends there.
ghost use Rattle.std.specs.Prelude.{◌≡◌, ◌<◌, ◌==◌, ℕ, List, Some, None, length, slice_get, MatchOption, OnOk, if◌then◌else◌};
ghost use Rattle.std.specs.BTreeMap.{get};
ghost use Rattle.std.specs.Ordering.{nat_cmp};
ghost use Rattle.circuit_nodes.specs.declared.node.Node.{Node};
ghost use Rattle.knox_circuit.specs.Rom.{node_word, constant, put_under, chain_at, laid};
ghost use Rattle.knox_circuit.specs.Links.{Links};
ghost use Rattle.knox_circuit.specs.Chains.{lay, over, AreFound};

use circuit_nodes::{Arg, Node};
use knox_words::Word;
use std::alloc::{AllocError, Global};
use std::collections::BTreeMap;

/// What a node is in a chain: a bare state, a write of a constant word at a constant index over the
/// array at a place, or neither.
pub(crate) enum Link {
    Base,
    Write(u128, Word, u32),
    Broken,
}

/// The word of an operand that is a constant before a place.
pub(crate) fn constant(nodes: &[Node], bound: usize, arg: Arg) -> Option<Word>
    ensures { result ≡ constant bound nodes.now arg }
{
    if arg.complement {
        return None;
    }
    let at = arg.node as usize;
    if at >= bound || at >= nodes.len() {
        return None;
    }
    match &nodes[at] {
        Node::Const(word) => Some(*word),
        _ => None,
    }
}

/// What the node at a place is in a chain.
#[tactic(auto, using(crate::proofs::ChainsLemmas::link_steps))]
fn link_of(cells: u32, nodes: &[Node], at: usize) -> Link
    requires { at < length nodes.now }
    ensures { Links cells nodes.now at result }
{
    match &nodes[at] {
        Node::Array { first, .. } => {
            if cells <= *first {
                Link::Base
            } else {
                Link::Broken
            }
        }
        Node::Write(array, index, word) => {
            let Some(index) = constant(nodes, at, *index) else {
                return Link::Broken;
            };
            let Some(word) = constant(nodes, at, *word) else {
                return Link::Broken;
            };
            Link::Write(index.value(), word, *array)
        }
        _ => Link::Broken,
    }
}

/// Sets the word at an index, where there is one and none is known yet.
fn put_under(known: &mut [Option<Word>], index: u128, word: Word)
    ensures { known.new ≡ put_under known.old index word }
{
    if index >= known.len() as u128 {
        return;
    }
    let at = index as usize;
    if known[at].is_none() {
        known[at] = Some(word);
    }
}

/// Sets the word at an index, where there is one to set and none is known yet.
fn lay(known: &mut [Option<Word>], index: u128, word: Option<Word>)
    ensures { known.new ≡ lay known.old index word }
{
    if let Some(word) = word {
        put_under(known, index, word);
    }
}

/// Sets words where none is known yet.
fn lay_all(known: &mut [Option<Word>], words: &[Option<Word>])
    ensures { known.new ≡ over known.old words.now }
{
    let mut at = 0usize;
    let mut left = words;
    while let Some((word, others)) = left.split_first() {
        lay(known, at as u128, *word);
        at += 1;
        left = others;
    }
}

/// Passes the nodes of a chain from a node down, up to one that was passed before: the node where the two
/// chains meet.
pub(crate) fn meeting(nodes: &[Node], passed: &mut [bool], node: u32) -> Option<u32> {
    let mut at = node;
    let mut before = nodes.len().min(passed.len());
    while (at as usize) < before {
        if passed[at as usize] {
            return Some(at);
        }
        passed[at as usize] = true;
        let Node::Write(array, _, _) = &nodes[at as usize] else {
            return None;
        };
        before = at as usize;
        at = *array;
    }
    None
}

/// What a walk gave: whether there is such a chain, and its words where there is.
#[derive(Drop)]
pub(crate) struct Found {
    pub sound: bool,
    pub words: Vec<Option<Word>>,
}

/// What the walks so far gave, by the nodes where they began.
#[derive(Drop)]
pub(crate) struct Chains {
    pub found: BTreeMap<u32, Found>,
}

impl Chains {
    /// No walks.
    pub(crate) fn new(alloc: Global) -> Chains
        ensures { (cells : ℕ) (ns : List Node) → AreFound cells ns result }
    {
        Chains {
            found: BTreeMap::new(alloc),
        }
    }

    /// Puts what is remembered of a node under the words that are known, and says whether there is such
    /// a chain; none where no walk for so many words began there.
    fn lay(&self, node: u32, known: &mut [Option<Word>]) -> Option<bool>
        ensures { (cells : ℕ) (ns : List Node) → AreFound cells ns self.now → MatchOption result (known.new ≡ known.old) (λ sound. laid known.old (chain_at cells ns (length ns) node) ≡ (if sound then Some known.new else None)) }
    {
        let found = self.found.get(&node)?;
        if found.words.len() != known.len() {
            return None;
        }
        lay_all(known, found.words.as_slice());
        Some(found.sound)
    }

    /// Walks from a node to the base of its chain, or to where an earlier walk began, and puts the words
    /// of the writes on the way under those that are known. Whether there is such a chain; else what is
    /// known is of no use.
    #[tactic(auto, using(crate::proofs::ChainsLemmas::walk_steps))]
    pub(crate) fn walk(
        &self,
        cells: u32,
        nodes: &[Node],
        node: u32,
        known: &mut [Option<Word>],
    ) -> bool
        requires { AreFound cells nodes.now self.now }
        ensures { laid known.old (chain_at cells nodes.now (length nodes.now) node) ≡ (if result then Some known.new else None) }
    {
        let mut at = node;
        let mut before = nodes.len();
        while (at as usize) < before {
            if let Some(sound) = self.lay(at, known) {
                return sound;
            }
            match link_of(cells, nodes, at as usize) {
                Link::Base => return true,
                Link::Broken => return false,
                Link::Write(index, word, array) => {
                    put_under(known, index, word);
                    before = at as usize;
                    at = array;
                }
            }
        }
        false
    }

    fn put(&mut self, node: u32, found: Found) -> Result<(), AllocError>
        ensures { OnOk result ((q : ℕ) → get nat_cmp self.new.found q ≡ (if node == q then Some found else get nat_cmp self.old.found q)) }
    {
        if self.found.insert(node, found).is_err() {
            return Err(AllocError);
        }
        Ok(())
    }

    /// Walks from a node for so many words, and remembers what that gives.
    pub(crate) fn remember(
        &mut self,
        alloc: Global,
        cells: u32,
        nodes: &[Node],
        node: u32,
        count: u32,
    ) -> Result<(), AllocError>
        requires { AreFound cells nodes.now self.old }
        ensures { OnOk result (AreFound cells nodes.now self.new) }
    {
        let mut words = vec![in alloc; None; count as usize]?;
        let sound = self.walk(cells, nodes, node, &mut words);
        self.put(node, Found { sound, words })
    }
}
