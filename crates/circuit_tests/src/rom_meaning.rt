//! The definitions of circuits, computed on a ROM that is a chain of writes with a gap.
ghost use Rattle.std.specs.Prelude.{◌≡◌, ◌∷◌, ◌++◌, [], None, true, false};
ghost use Rattle.knox_circuit.specs.Circuit.{output_words, state_after_tick, factory_state, state_after_power};
ghost use Rattle.knox_circuit.specs.Rom.{rom_words};
ghost use Rattle.btor_read.specs.Meaning.{MeansLines};
ghost use Rattle.circuit_tests.specs.Rom.{rom_text, rom, words, first_noise, second_noise, with_gap, known};

/// The text means these lines.
pub fn text_as_expected()
    ensures { MeansLines rom_text rom }
{}

/// Each word that is written is a ROM word; word 7 is none.
pub fn rom_words_as_expected()
    ensures written { rom_words rom ≡ known (0 ∷ 1 ∷ 2 ∷ 3 ∷ 4 ∷ 5 ∷ 6 ∷ []) ++ (None ∷ known (8 ∷ 9 ∷ 10 ∷ 11 ∷ 12 ∷ 13 ∷ 14 ∷ 15 ∷ [])) }
{}

/// The factory state has the noise of `base` in the gap alone.
pub fn factory_as_expected()
    ensures factory { factory_state rom first_noise ≡ with_gap 8 }
{}

/// A power-cycle takes the noise where the ROM isn't kept, and not where it is.
pub fn power_as_expected()
    ensures fresh { state_after_power rom (false ∷ []) (with_gap 8) second_noise ≡ with_gap 10 }
    ensures kept { state_after_power rom (true ∷ []) (with_gap 8) second_noise ≡ with_gap 8 }
{}

/// A tick keeps each word, and the output is the word at the index that is read.
pub fn tick_as_expected()
    ensures tick { state_after_tick rom (with_gap 8) (words (7 ∷ [])) ≡ with_gap 8 }
    ensures gap { output_words rom (with_gap 8) (words (7 ∷ [])) ≡ words (8 ∷ []) }
    ensures last { output_words rom (with_gap 8) (words (15 ∷ [])) ≡ words (15 ∷ []) }
{}
