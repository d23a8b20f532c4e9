//! ROM words: those that the chain of writes of an `init` gives a cell that keeps itself.
ghost use Rattle.std.specs.Prelude.{◌≡◌, ◌++◌, [], is_some, Some, None, replicate, length, IfOk, OnOk, if◌then◌else◌};
ghost use Rattle.knox_circuit.specs.Rom.{constant, chain_at, laid, known_or, init_known, is_itself, rom_of, roms_among, is_known, agree, free_mask};
ghost use Rattle.knox_circuit.specs.Chains.{AreFound};

use crate::chains::{Chains, constant, meeting};
use circuit_nodes::{Arg, Next, Node, State};
use knox_words::Word;
use std::alloc::{AllocError, Global};

/// What is known of so many words by an `init`.
fn init_known(
    alloc: Global,
    cells: u32,
    nodes: &[Node],
    chains: &Chains,
    words: u32,
    init: Option<Next>,
) -> Result<Vec<Option<Word>>, AllocError>
    requires { AreFound cells nodes.now chains.now }
    ensures { IfOk result (λ known. known.items ≡ init_known cells nodes.now words init) }
{
    let count = words as usize;
    match init {
        None => Ok(vec![in alloc; None; count]?),
        Some(Next::Word(arg)) => Ok(vec![in alloc; constant(nodes, nodes.len(), arg); count]?),
        Some(Next::Array { node, .. }) => {
            let mut known = vec![in alloc; None; count]?;
            if chains.walk(cells, nodes, node, &mut known) {
                return Ok(known);
            }
            Ok(vec![in alloc; None; count]?)
        }
    }
}

/// Whether the `next` of a state is the state itself.
fn is_itself(node: u32, next: Option<Arg>) -> bool
    ensures { result ≡ is_itself node next }
{
    match next {
        None => false,
        Some(arg) => arg.node == node && !arg.complement,
    }
}

/// The values of a cell's words that are ROM words.
fn rom_of(
    alloc: Global,
    cells: u32,
    nodes: &[Node],
    chains: &Chains,
    state: &State,
) -> Result<Vec<Option<Word>>, AllocError>
    requires { AreFound cells nodes.now chains.now }
    ensures { IfOk result (λ known. known.items ≡ rom_of cells nodes.now state.now) }
{
    if is_itself(state.node, state.next) {
        init_known(alloc, cells, nodes, chains, state.words, state.init)
    } else {
        Ok(vec![in alloc; None; state.words as usize]?)
    }
}

/// Adds the ROM words of a state, where it is a cell.
fn push_roms(
    alloc: Global,
    roms: &mut Vec<Option<Word>>,
    cells: u32,
    nodes: &[Node],
    chains: &Chains,
    state: &State,
) -> Result<(), AllocError>
    requires { AreFound cells nodes.now chains.now }
    ensures { OnOk result (roms.new.items ≡ roms.old.items ++ (if is_some state.now.next then rom_of cells nodes.now state.now else [])) }
{
    if state.next.is_some() {
        let known = rom_of(alloc, cells, nodes, chains, state)?;
        roms.extend_from_slice(known.as_slice())?;
    }
    Ok(())
}

/// The node and the count of words of an `init` by an array, where a cell keeps itself.
fn wanted(state: &State) -> Option<(u32, u32)> {
    if !is_itself(state.node, state.next) {
        return None;
    }
    match state.init {
        Some(Next::Array { node, .. }) => Some((node, state.words)),
        _ => None,
    }
}

/// The nodes from which chains are wanted and those where such chains meet, each with its count of words,
/// the lowest node first.
fn all_wanted(
    alloc: Global,
    nodes: &[Node],
    states: &[State],
) -> Result<Vec<(u32, u32)>, AllocError> {
    let mut passed = vec![in alloc; false; nodes.len()]?;
    let mut all = Vec::new(alloc);
    for state in states {
        if let Some((node, words)) = wanted(state) {
            all.push((node, words))?;
            if let Some(shared) = meeting(nodes, &mut passed, node) {
                all.push((shared, words))?;
            }
        }
    }
    all.sort_unstable();
    Ok(all)
}

/// What the chains of cells give. An operand stands before its node, so that from the lowest node to
/// the highest each walk ends where an earlier one began, and no two go along the same writes.
fn chains_of(
    alloc: Global,
    cells: u32,
    nodes: &[Node],
    states: &[State],
) -> Result<Chains, AllocError>
    ensures { IfOk result (λ chains. AreFound cells nodes.now chains) }
{
    let all = all_wanted(alloc, nodes, states)?;
    let mut chains = Chains::new(alloc);
    for (node, words) in all.as_slice() {
        chains.remember(alloc, cells, nodes, *node, *words)?;
    }
    Ok(chains)
}

/// The ROM words of the cells among some states.
pub(crate) fn roms_among(
    alloc: Global,
    cells: u32,
    nodes: &[Node],
    states: &[State],
) -> Result<Vec<Option<Word>>, AllocError>
    ensures { IfOk result (λ roms. roms.items ≡ roms_among cells nodes.now states.now) }
{
    let chains = chains_of(alloc, cells, nodes, states)?;
    let mut roms = Vec::new(alloc);
    let mut left = states;
    while let Some((state, others)) = left.split_first() {
        push_roms(alloc, &mut roms, cells, nodes, &chains, state)?;
        left = others;
    }
    Ok(roms)
}

/// One truth value for each word: whether it isn't known.
pub(crate) fn free_mask(alloc: Global, known: &[Option<Word>]) -> Result<Vec<bool>, AllocError>
    ensures { IfOk result (λ mask. mask.items ≡ free_mask known.now) }
{
    known.iter().map(|word| word.is_none()).collect(alloc)
}

fn is_known(known: Option<Word>, word: Word) -> bool
    ensures { result ≡ is_known known word }
{
    match known {
        None => true,
        Some(value) => value == word,
    }
}

/// Whether words are those that are known.
pub(crate) fn agree(known: &[Option<Word>], words: &[Word]) -> bool
    ensures { result ≡ agree known.now words.now }
{
    let mut left = known;
    let mut others = words;
    while let Some((known, behind)) = left.split_first() {
        let Some((word, more)) = others.split_first() else {
            return false;
        };
        if !is_known(*known, *word) {
            return false;
        }
        left = behind;
        others = more;
    }
    true
}
