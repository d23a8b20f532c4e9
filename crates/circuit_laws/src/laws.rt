//! Laws of circuits, as functions that change nothing. They need no rule of the lines: lines that break
//! one have no rows.
ghost use Rattle.std.specs.Prelude.{◌≡◌, ℕ, List, Bool, true, [], Some, length, slice_get};
ghost use Rattle.knox_words.specs.Bits.{Bits, is_word};
ghost use Rattle.knox_words.specs.Lists.{fit, are_widths, pick, merge, zeros_or};
ghost use Rattle.knox_circuit.specs.Circuit.{output_words, state_after_tick, state_after_power, factory_state};
ghost use Rattle.knox_circuit.specs.Ports.{input_widths, output_widths};
ghost use Rattle.knox_circuit.specs.Cells.{cells_of, state_widths, words_in, noise_widths, keep_mask};
ghost use Rattle.knox_circuit.specs.Rom.{rom_words, agree};

use knox_circuit::Circuit;

/// Device words keep their widths: the factory's fit, and so do those after a tick and after a
/// power-cycle of words that fit.
pub fn circuits_keep_widths(c: &Circuit)
    ensures tick { (state inputs : List Bits) → fit (state_widths (cells_of c.now.lines)) state ≡ true → fit (input_widths c.now.lines) inputs ≡ true → fit (state_widths (cells_of c.now.lines)) (state_after_tick c.now.lines state inputs) ≡ true }
    ensures factory { (noise : List Bits) → fit (noise_widths c.now.lines []) noise ≡ true → fit (state_widths (cells_of c.now.lines)) (factory_state c.now.lines noise) ≡ true }
    ensures power { (keep : List Bool) (state noise : List Bits) → length keep ≡ length (cells_of c.now.lines) → fit (state_widths (cells_of c.now.lines)) state ≡ true → fit (noise_widths c.now.lines keep) noise ≡ true → fit (state_widths (cells_of c.now.lines)) (state_after_power c.now.lines keep state noise) ≡ true }
{
    let _circuit = c;
}

/// Output words have the widths of their lines' nodes.
pub fn outputs_have_widths(c: &Circuit)
    ensures { (state inputs : List Bits) → fit (state_widths (cells_of c.now.lines)) state ≡ true → fit (input_widths c.now.lines) inputs ≡ true → fit (output_widths c.now.lines) (output_words c.now.lines state inputs) ≡ true }
{
    let _circuit = c;
}

/// The widths of a circuit's words are widths, those of noise words too, and there are as many
/// device words as the cells have.
pub fn circuits_have_widths(c: &Circuit)
    ensures state { are_widths (state_widths (cells_of c.now.lines)) ≡ true }
    ensures inputs { are_widths (input_widths c.now.lines) ≡ true }
    ensures count { (state : List Bits) → fit (state_widths (cells_of c.now.lines)) state ≡ true → length state ≡ words_in (cells_of c.now.lines) }
    ensures noise { (keep : List Bool) → are_widths (noise_widths c.now.lines keep) ≡ true }
{
    let _circuit = c;
}

/// A power-cycle keeps the words of the cells that are kept, and looks at no other word of the state
/// before it.
pub fn power_keeps_persistent_words(c: &Circuit)
    ensures kept { (keep : List Bool) (state noise : List Bits) → length keep ≡ length (cells_of c.now.lines) → fit (state_widths (cells_of c.now.lines)) state ≡ true → fit (noise_widths c.now.lines keep) noise ≡ true → pick (keep_mask (cells_of c.now.lines) keep) (state_after_power c.now.lines keep state noise) ≡ pick (keep_mask (cells_of c.now.lines) keep) state }
    ensures alone { (keep : List Bool) (state noise : List Bits) → length keep ≡ length (cells_of c.now.lines) → fit (state_widths (cells_of c.now.lines)) state ≡ true → fit (noise_widths c.now.lines keep) noise ≡ true → state_after_power c.now.lines keep (merge (keep_mask (cells_of c.now.lines) keep) (zeros_or (state_widths (cells_of c.now.lines))) (pick (keep_mask (cells_of c.now.lines) keep) state)) noise ≡ state_after_power c.now.lines keep state noise }
{
    let _circuit = c;
}

/// The words of kept cells, of words with the widths of device words, have the widths of these
/// cells; and words of these widths are those of the kept cells among device words that are zero
/// elsewhere. The mask has one truth value for each device word.
pub fn persistent_words_are_spread(c: &Circuit)
    ensures fitting { (keep : List Bool) (state : List Bits) → fit (state_widths (cells_of c.now.lines)) state ≡ true → fit (pick (keep_mask (cells_of c.now.lines) keep) (state_widths (cells_of c.now.lines))) (pick (keep_mask (cells_of c.now.lines) keep) state) ≡ true }
    ensures spread { (keep : List Bool) (words : List Bits) → fit (pick (keep_mask (cells_of c.now.lines) keep) (state_widths (cells_of c.now.lines))) words ≡ true → fit (state_widths (cells_of c.now.lines)) (merge (keep_mask (cells_of c.now.lines) keep) (zeros_or (state_widths (cells_of c.now.lines))) words) ≡ true }
    ensures back { (keep : List Bool) (words : List Bits) → fit (pick (keep_mask (cells_of c.now.lines) keep) (state_widths (cells_of c.now.lines))) words ≡ true → pick (keep_mask (cells_of c.now.lines) keep) (merge (keep_mask (cells_of c.now.lines) keep) (zeros_or (state_widths (cells_of c.now.lines))) words) ≡ words }
    ensures count { (keep : List Bool) → length (keep_mask (cells_of c.now.lines) keep) ≡ words_in (cells_of c.now.lines) }
{
    let _circuit = c;
}

/// A ROM word has its value in every state: in the factory's, and after a tick or a power-cycle of
/// words that have the values of the ROM words.
pub fn circuits_keep_rom_words(c: &Circuit)
    ensures factory { (noise : List Bits) → agree (rom_words c.now.lines) (factory_state c.now.lines noise) ≡ true }
    ensures tick { (state inputs : List Bits) → length state ≡ words_in (cells_of c.now.lines) → agree (rom_words c.now.lines) state ≡ true → agree (rom_words c.now.lines) (state_after_tick c.now.lines state inputs) ≡ true }
    ensures power { (keep : List Bool) (state noise : List Bits) → length keep ≡ length (cells_of c.now.lines) → length state ≡ words_in (cells_of c.now.lines) → agree (rom_words c.now.lines) state ≡ true → agree (rom_words c.now.lines) (state_after_power c.now.lines keep state noise) ≡ true }
    ensures count { length (rom_words c.now.lines) ≡ words_in (cells_of c.now.lines) }
{
    let _circuit = c;
}

/// The value of a ROM word is a word of the width that its place has.
pub fn rom_words_fit(c: &Circuit)
    ensures { (j : ℕ) (w : Bits) → slice_get (rom_words c.now.lines) j ≡ Some (Some w) → (slice_get (state_widths (cells_of c.now.lines)) j ≡ Some w.width) × (is_word w ≡ true) }
{
    let _circuit = c;
}
