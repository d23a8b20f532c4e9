//! The widths of the words that the runs of a device's segments take.
ghost use Rattle.std.specs.Prelude.{◌≡◌, [], IfOk};
ghost use Rattle.knox_words.specs.Lists.{pick, zeros_or};
ghost use Rattle.knox_circuit.specs.Cells.{cells_of, state_widths, noise_widths, keep_mask};
ghost use Rattle.knox_lang.specs.WellFormed.{word_widths};
ghost use Rattle.device_design.specs.Meaning.{persistent_roms};

use emu_machine::Device;
use knox_words::{Word, Words};
use std::alloc::{AllocError, Global};

/// What a device's words are: which of its words are kept over a power-cycle, and zero words of
/// their widths; the widths of the noise words of the factory and of a power-cycle, of the
/// specification's fields, of the words that are kept and of the emulator's fields, each in order;
/// and what is known of the words that are kept.
pub(crate) struct Widths {
    pub(crate) mask: Vec<bool>,
    pub(crate) zeros: Words,
    pub(crate) factory_noise: Vec<u8>,
    pub(crate) noise: Vec<u8>,
    pub(crate) fields: Vec<u8>,
    pub(crate) persistent: Vec<u8>,
    pub(crate) persistent_roms: Vec<Option<Word>>,
    pub(crate) emu: Vec<u8>,
}

impl Drop for Widths {
    fn drop(self) {
        let Widths {
            mask: _mask,
            zeros: _zeros,
            factory_noise: _factory_noise,
            noise: _noise,
            fields: _fields,
            persistent: _persistent,
            persistent_roms: _persistent_roms,
            emu: _emu,
        } = self;
    }
}

fn of_words(alloc: Global, words: &[Word]) -> Result<Vec<u8>, AllocError>
    ensures { IfOk result (λ ws. ws.items ≡ word_widths words.now) }
{
    words.iter().map(|w| w.width()).collect(alloc)
}

/// What is known of the words that are kept over a power-cycle.
pub(crate) fn of_kept_roms(alloc: Global, dev: &Device) -> Result<Vec<Option<Word>>, AllocError>
    ensures { IfOk result (λ known. known.items ≡ persistent_roms dev.now.circuit.lines dev.now.driver.keep) }
{
    let mask = dev.circuit.keep_mask(dev.driver.keep())?;
    let known = knox_words::pick(alloc, mask.as_slice(), dev.circuit.roms())?;
    Ok(known)
}

impl Widths {
    /// The widths of a device's words.
    pub(crate) fn of(alloc: Global, dev: &Device) -> Result<Widths, AllocError>
        ensures mask { IfOk result (λ w. w.mask.items ≡ keep_mask (cells_of dev.now.circuit.lines) dev.now.driver.keep) }
        ensures zeros { IfOk result (λ w. w.zeros ≡ zeros_or (state_widths (cells_of dev.now.circuit.lines))) }
        ensures factory_noise { IfOk result (λ w. w.factory_noise.items ≡ noise_widths dev.now.circuit.lines []) }
        ensures noise { IfOk result (λ w. w.noise.items ≡ noise_widths dev.now.circuit.lines dev.now.driver.keep) }
        ensures fields { IfOk result (λ w. w.fields.items ≡ word_widths dev.now.spec.init) }
        ensures persistent { IfOk result (λ w. w.persistent.items ≡ pick (keep_mask (cells_of dev.now.circuit.lines) dev.now.driver.keep) (state_widths (cells_of dev.now.circuit.lines))) }
        ensures persistent_roms { IfOk result (λ w. w.persistent_roms.items ≡ persistent_roms dev.now.circuit.lines dev.now.driver.keep) }
        ensures emu { IfOk result (λ w. w.emu.items ≡ word_widths dev.now.emulator.init) }
    {
        let keep = dev.driver.keep();
        Ok(Widths {
            mask: dev.circuit.keep_mask(keep)?,
            zeros: Words::zeros_or(alloc, dev.circuit.state_widths())?,
            factory_noise: dev.circuit.noise_widths(&[])?,
            noise: dev.circuit.noise_widths(keep)?,
            fields: of_words(alloc, dev.spec.parts().init.as_slice())?,
            persistent: dev.circuit.persistent_widths(keep)?,
            persistent_roms: of_kept_roms(alloc, dev)?,
            emu: of_words(alloc, dev.emulator.parts().init.as_slice())?,
        })
    }
}
