//! The states that take noise words, one after another, without memory.
ghost use Rattle.std.specs.Prelude.{◌≡◌, ◌≤◌, ◌+◌, [], ◌∷◌, length, MatchOption};
ghost use Rattle.knox_circuit.specs.Cells.{all_words, noise_mask, marked, placed, chosen};

use crate::port::{Cell, Stored};
use crate::states::{keep_behind, place_behind, takes_noise};
use std::marker::Model;

/// A state that takes noise words, and the place of its first word among them.
#[derive(Drop)]
pub struct NoiseCell<'a> {
    pub cell: &'a Cell,
    pub first: u32,
}

/// Goes over the states that take noise words at a power-cycle, in line order. Contracts see those
/// that are left, each with the place of its first word among the noise words.
#[derive(Drop)]
pub struct NoiseCells<'a> {
    keeps: &'a [bool],
    states: &'a [Stored],
    place: u32,
}

impl<'a> Model for NoiseCells<'a> {
    ghost use Rattle.std.specs.Prelude.{List, ◌+◌, ◌≤◌};
    ghost use Rattle.knox_circuit.specs.declared.port.Cell.{Cell};
    ghost use Rattle.knox_circuit.specs.Cells.{all_words, noise_mask, marked, placed};

    ghost Value = { List Cell };

    ghost view = { λ n. placed n.place (marked (noise_mask n.states.now n.keeps.now) n.states.now) };

    ghost invariant = { λ n. n.place + all_words n.states.now ≤ 2000000 };
}

impl<'a> NoiseCells<'a> {
    /// Those of some states, where some cells are kept.
    pub(crate) fn new(keep: &'a [bool], states: &'a [Stored]) -> NoiseCells<'a>
        requires { all_words states.now ≤ 2000000 }
        ensures { result ≡ chosen (noise_mask states.now keep.now) states.now }
    {
        NoiseCells {
            keeps: keep,
            states,
            place: 0,
        }
    }

    /// The next one, or `None` behind the last.
    #[tactic(auto, using(crate::proofs::StatesLemmas::chosen_steps))]
    pub fn next(&mut self) -> Option<NoiseCell<'a>>
        ensures { MatchOption result (self.old ≡ []) (λ n. self.old ≡ record n.cell.now { first = n.first } ∷ self.new) }
    {
        while let Some((state, more)) = self.states.split_first() {
            let taken = takes_noise(state, self.keeps);
            let first = self.place;
            self.keeps = keep_behind(state, self.keeps);
            self.place = place_behind(taken, state, first);
            self.states = more;
            if taken {
                return Some(NoiseCell {
                    cell: &state.cell,
                    first,
                });
            }
        }
        None
    }
}
