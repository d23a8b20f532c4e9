//! States that are built one after another, each over those before it.
ghost use Rattle.std.specs.Prelude.{◌≡◌, ◌≤◌, ◌<◌, ◌+◌, ℕ, List, length, slice_get, take, drop, Some, [], if◌then◌else◌};
ghost use Rattle.knox_words.specs.Bits.{Bits};
ghost use Rattle.circuit_nodes.specs.declared.node.State.{State};
ghost use Rattle.circuit_nodes.specs.Values.{given, IsFilled};
ghost use Rattle.circuit_nodes.specs.Starts.{values, first_keep, by_init, fresh_of, words_by, taken_by, placed, with_state, keep_after, built, wanted, AreWithin, AreApart};

use crate::chain::{put_base, put_state, put_writes, source};
use crate::eval::{fill_more, node_at, room_arg};
use crate::node::{Arg, Next, Node, State};
use knox_words::{Op1, Word};

/// How a state gets its words: it keeps old ones, it takes noise words, each is the same word or
/// that of an operand, or they are the first words of an array node.
#[derive(Clone, Copy, Debug, PartialEq, Eq)]
pub enum Fresh {
    Kept,
    Noise,
    Same(Word),
    Word(Arg),
    Array(u32),
}

fn state_at(states: &[State], at: usize) -> &State
    requires { at < length states.now }
    ensures { slice_get states.now at ≡ Some result.now }
{
    &states[at]
}

fn first_keep(keep: &[bool]) -> bool
    ensures { result ≡ first_keep keep.now }
{
    match keep.first() {
        Some(first) => *first,
        None => false,
    }
}

/// What is said of the cells behind a state.
fn keep_after<'a>(state: &State, keep: &'a [bool]) -> &'a [bool]
    ensures { result.now ≡ keep_after state.now keep.now }
{
    if state.next.is_none() {
        return keep;
    }
    match keep.split_first() {
        Some((_, others)) => others,
        None => keep,
    }
}

fn by_init(init: Option<Next>) -> Fresh
    ensures { result ≡ by_init init }
{
    match init {
        None => Fresh::Noise,
        Some(Next::Word(arg)) => Fresh::Word(arg),
        Some(Next::Array { node, .. }) => Fresh::Array(node),
    }
}

fn fresh_of(state: &State, keep: &[bool]) -> Fresh
    ensures { result ≡ fresh_of state.now keep.now }
{
    if state.next.is_some() && first_keep(keep) {
        Fresh::Kept
    } else {
        by_init(state.init)
    }
}

/// The same way, where a constant stands for an operand: no node has to be evaluated for it.
#[tactic(auto, using(crate::proofs::StartsLemmas::constant_steps))]
fn constant_or(nodes: &[Node], fresh: Fresh) -> Fresh
    ensures words { (s : State) (state old noise : List Bits) → words_by (values nodes.now state) s old noise result ≡ words_by (values nodes.now state) s old noise fresh }
    ensures taken { (n : ℕ) → taken_by n result ≡ taken_by n fresh }
{
    let Fresh::Word(arg) = fresh else {
        return fresh;
    };
    let at = arg.node as usize;
    if at >= nodes.len() {
        return fresh;
    }
    match node_at(nodes, at) {
        Node::Const(word) => {
            if arg.complement {
                Fresh::Same(knox_words::op1(Op1::Not, *word))
            } else {
                Fresh::Same(*word)
            }
        }
        _ => fresh,
    }
}

/// How many noise words are taken.
fn taken_by(words: u32, fresh: &Fresh) -> usize
    ensures { result ≡ taken_by words fresh.now }
{
    match fresh {
        Fresh::Noise => words as usize,
        _ => 0,
    }
}

/// How many nodes have to be evaluated, of so many.
fn wanted(nodes: usize, fresh: &Fresh) -> usize
    ensures { result ≡ wanted nodes fresh.now }
{
    match fresh {
        Fresh::Word(arg) => nodes.min(arg.node as usize + 1),
        Fresh::Array(node) => nodes.min(*node as usize + 1),
        _ => 0,
    }
}

/// Stages the words that a state gets, over the states before it.
#[tactic(auto, using(crate::proofs::StartsLemmas::stage_steps))]
fn stage_fresh(
    nodes: &[Node],
    which: &State,
    fresh: &Fresh,
    old: &[Word],
    noise: &[Word],
    state: &[Word],
    room: &[Word],
    staged: &mut [Word],
    chain: &mut [u32],
)
    requires filled { IsFilled (given [] state.now) nodes.now room.now (length nodes.now) }
    requires staged { length staged.old ≡ which.now.words }
    requires chain { length chain.old ≡ length nodes.now }
    ensures { staged.new ≡ words_by (values nodes.now state.now) which.now old.now noise.now fresh.now }
{
    match fresh {
        Fresh::Kept => put_state(old, which.first, which.words, which.width, staged),
        Fresh::Noise => put_state(noise, 0, which.words, which.width, staged),
        Fresh::Same(word) => staged.fill(*word),
        Fresh::Word(arg) => staged.fill(room_arg(room, nodes.len(), *arg)),
        Fresh::Array(node) => {
            let found = source(nodes, room, *node, chain);
            put_base(state, found.base, staged);
            put_writes(nodes, room, &chain[..found.writes], staged);
        }
    }
}

/// Puts the words that a state gets, over the states before it.
#[tactic(auto, using(crate::proofs::StartsLemmas::put_steps))]
fn build_state(
    nodes: &[Node],
    which: &State,
    fresh: &Fresh,
    old: &[Word],
    noise: &[Word],
    state: &mut [Word],
    room: &[Word],
    stage: &mut [Word],
    chain: &mut [u32],
)
    requires within { which.now.first + which.now.words ≤ length state.old }
    requires filled { IsFilled (given [] state.old) nodes.now room.now (length nodes.now) }
    requires stage { length stage.old ≡ length state.old }
    requires chain { length chain.old ≡ length nodes.now }
    ensures { state.new ≡ with_state nodes.now which.now fresh.now old.now noise.now state.old }
{
    let words = which.words as usize;
    let first = which.first as usize;
    let staged = &mut stage[..words];
    stage_fresh(nodes, which, fresh, old, noise, state, room, staged, chain);
    state[first..first + words].copy_from_slice(staged);
}

/// What is left of a list behind so many of its words.
fn rest_after(words: &[Word], count: usize) -> &[Word]
    ensures { result.now ≡ drop count words.now }
{
    if count < words.len() {
        &words[count..]
    } else {
        &[]
    }
}

/// Fills at least so many places, and tells how many are filled.
#[tactic(auto, using(crate::proofs::ValuesLemmas::fewer))]
fn fill_up(nodes: &[Node], state: &[Word], room: &mut [Word], filled: usize, upto: usize) -> usize
    requires room { length room.old ≡ length nodes.now }
    requires upto { upto ≤ length nodes.now }
    requires within { filled ≤ length nodes.now }
    requires filled { IsFilled (given [] state.now) nodes.now room.old filled }
    ensures filled { IsFilled (given [] state.now) nodes.now room.new result }
    ensures upto { upto ≤ result }
    ensures within { result ≤ length nodes.now }
{
    if upto <= filled {
        return filled;
    }
    fill_more(nodes, &[], state, room, filled, upto);
    upto
}

/// Builds the states of a power-cycle one after another, from the first to the last. `stage` has a
/// word for each word of the state, `room` a word and `chain` a place for each node; what these three
/// hold doesn't matter. Nodes are evaluated as far as an `init` looks, and again behind the node of a
/// state that got its words since.
#[tactic(auto, using(crate::proofs::StartsLemmas::build_steps))]
pub fn build_states(
    nodes: &[Node],
    states: &[State],
    keep: &[bool],
    old: &[Word],
    noise: &[Word],
    state: &mut [Word],
    room: &mut [Word],
    stage: &mut [Word],
    chain: &mut [u32],
)
    requires within { AreWithin states.now (length state.old) }
    requires apart { AreApart nodes.now states.now }
    requires room { length room.old ≡ length nodes.now }
    requires stage { length stage.old ≡ length state.old }
    requires chain { length chain.old ≡ length nodes.now }
    ensures { state.new ≡ built nodes.now states.now keep.now old.now noise.now state.old }
{
    let mut filled = 0;
    let mut rest = noise;
    let mut kept = keep;
    for k in 0..states.len() {
        let which = state_at(states, k);
        let fresh = constant_or(nodes, fresh_of(which, kept));
        let upto = wanted(nodes.len(), &fresh);
        let reached = fill_up(nodes, state, room, filled, upto);
        let front = &nodes[..upto];
        build_state(
            front,
            which,
            &fresh,
            old,
            rest,
            state,
            room,
            stage,
            &mut chain[..upto],
        );
        rest = rest_after(rest, taken_by(which.words, &fresh));
        kept = keep_after(which, kept);
        filled = reached.min(which.node as usize);
    }
}
