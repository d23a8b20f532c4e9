//! Outputs, ticks and power-cycles over what is kept of a circuit.
ghost use Rattle.std.specs.Prelude.{◌≡◌, ◌≤◌, length, map, take, IfOk};
ghost use Rattle.knox_words.specs.Lists.{zeros_or};
ghost use Rattle.circuit_nodes.specs.Values.{arg_word, values_in};
ghost use Rattle.circuit_nodes.specs.Ticks.{words_in, ticked};
ghost use Rattle.circuit_nodes.specs.Starts.{built, AreWithin, AreApart};

use crate::made::Plan;
use circuit_nodes::{Logic, Node, State};
use knox_words::{Word, Words};
use std::alloc::{AllocError, Global};

fn outputs_in(logic: &Logic, state: &[Word], inputs: &[Word], room: &mut [Word], out: &mut [Word])
    requires room { length room.old ≡ length logic.now.nodes }
    requires out { length out.old ≡ length logic.now.outputs }
    ensures { out.new ≡ map (arg_word (values_in logic.now.nodes inputs.now state.now)) logic.now.outputs }
{
    let nodes = logic.nodes.as_slice();
    circuit_nodes::fill(nodes, inputs, state, room);
    circuit_nodes::arg_words(nodes, inputs, state, room, logic.outputs.as_slice(), out);
}

/// The output words, over a scratch area with a word for each node or more.
pub(crate) fn outputs(
    logic: &Logic,
    state: &[Word],
    inputs: &[Word],
    room: &mut [Word],
    out: &mut [Word],
)
    requires room { length logic.now.nodes ≤ length room.old }
    requires out { length out.old ≡ length logic.now.outputs }
    ensures { out.new ≡ map (arg_word (values_in logic.now.nodes inputs.now state.now)) logic.now.outputs }
{
    let count = logic.nodes.len();
    outputs_in(logic, state, inputs, &mut room[..count], out);
}

fn tick_in(
    logic: &Logic,
    state: &mut [Word],
    inputs: &[Word],
    room: &mut [Word],
    stage: &mut [Word],
    chain: &mut [u32],
)
    requires room { length room.old ≡ length logic.now.nodes }
    requires state { length state.old ≡ words_in logic.now.nexts }
    requires stage { length stage.old ≡ words_in logic.now.nexts }
    requires chain { length chain.old ≡ length logic.now.nodes }
    ensures { state.new ≡ ticked (values_in logic.now.nodes inputs.now state.old) logic.now.nexts }
{
    let nodes = logic.nodes.as_slice();
    circuit_nodes::fill(nodes, inputs, state, room);
    circuit_nodes::advance(
        nodes,
        inputs,
        logic.nexts.as_slice(),
        state,
        room,
        stage,
        chain,
    );
}

/// Replaces the device words by those after a tick, over scratch areas with a word and a place for
/// each node or more.
pub(crate) fn tick(
    logic: &Logic,
    state: &mut [Word],
    inputs: &[Word],
    room: &mut [Word],
    stage: &mut [Word],
    chain: &mut [u32],
)
    requires room { length logic.now.nodes ≤ length room.old }
    requires state { length state.old ≡ words_in logic.now.nexts }
    requires stage { length stage.old ≡ words_in logic.now.nexts }
    requires chain { length logic.now.nodes ≤ length chain.old }
    ensures { state.new ≡ ticked (values_in logic.now.nodes inputs.now state.old) logic.now.nexts }
{
    let count = logic.nodes.len();
    tick_in(
        logic,
        state,
        inputs,
        &mut room[..count],
        stage,
        &mut chain[..count],
    );
}

/// Builds all states from zero words on.
#[tactic(auto, using(crate::proofs::EvaluationLemmas::length_steps))]
fn build(
    alloc: Global,
    nodes: &[Node],
    states: &[State],
    widths: &[u8],
    keep: &[bool],
    old: &[Word],
    noise: &[Word],
) -> Result<Words, AllocError>
    requires within { AreWithin states.now (length widths.now) }
    requires apart { AreApart nodes.now states.now }
    ensures words { IfOk result (λ words. words ≡ built nodes.now states.now keep.now old.now noise.now (zeros_or widths.now)) }
    ensures count { IfOk result (λ words. length words ≡ length widths.now) }
{
    let mut state = Words::zeros_or(alloc, widths)?.into_vec();
    let mut stage = vec![in alloc; knox_words::zero(); state.len()]?;
    let mut room = vec![in alloc; knox_words::zero(); nodes.len()]?;
    let mut chain = vec![in alloc; 0u32; nodes.len()]?;
    circuit_nodes::build_states(
        nodes, states, keep, old, noise, &mut state, &mut room, &mut stage, &mut chain,
    );
    Ok(Words::from_vec(state))
}

/// The device words after a power-cycle: `keep` tells for each cell whether it keeps its words of
/// `old`. Zero words stand for words that lack. `Err` is want of memory.
pub(crate) fn power(
    alloc: Global,
    plan: &Plan,
    keep: &[bool],
    old: &[Word],
    noise: &[Word],
) -> Result<Words, AllocError>
    requires within { AreWithin plan.now.states (length plan.now.widths.items) }
    requires apart { AreApart plan.now.nodes plan.now.states }
    requires front { plan.now.cells ≤ length plan.now.widths.items }
    ensures words { IfOk result (λ words. words ≡ take plan.now.cells (built plan.now.nodes plan.now.states keep.now old.now noise.now (zeros_or plan.now.widths.items))) }
    ensures count { IfOk result (λ words. length words ≡ plan.now.cells) }
{
    let mut words = build(
        alloc,
        plan.nodes.as_slice(),
        plan.states.as_slice(),
        plan.widths.as_slice(),
        keep,
        old,
        noise,
    )?;
    words.truncate(plan.cells as usize);
    Ok(words)
}
