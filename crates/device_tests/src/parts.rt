//! Devices and scripts of short texts, and words.
ghost use Rattle.std.specs.Prelude.{◌≡◌, length, IfOk};
ghost use Rattle.script_core.specs.Hints.{ops_of};

use emu_machine::Device;
use example_texts::Texts;
use knox_text::Place;
use knox_verify::device_of;
use knox_words::{Words, word_or};
use script_core::Script;
use script_read::read_script;
use std::alloc::{AllocError, Global};
use std::test::Fail;

/// Words of these widths and values.
pub(crate) fn words_of(alloc: Global, pairs: &[(u8, u128)]) -> Result<Words, AllocError> {
    let mut words = Words::new(alloc);
    for pair in pairs {
        words.push(word_or(pair.0, pair.1))?;
    }
    Ok(words)
}

/// The device of texts.
pub(crate) fn device(alloc: Global, texts: Texts) -> Result<Device, Fail> {
    if texts.c.len() > 1000 || texts.s.len() > 1000 {
        return Err(Fail::new("the texts are short"));
    }
    if texts.d.len() > 1000 || texts.e.len() > 1000 {
        return Err(Fail::new("the texts are short"));
    }
    match device_of(alloc, texts.c, texts.s, texts.d, texts.e) {
        Ok(dev) => Ok(dev),
        Err(_) => Err(Fail::new("the texts are of the form")),
    }
}

/// The script of hints for a device, with a section for each operation.
pub(crate) fn script(alloc: Global, dev: &Device, hints: &[u8]) -> Result<Script, Fail>
    ensures { IfOk result (λ script. length dev.now.spec.ops ≡ ops_of script) }
{
    if hints.len() > 1000 {
        return Err(Fail::new("the hints are short"));
    }
    let trees = match knox_sexpr::read(alloc, hints) {
        Ok(trees) => trees,
        Err(_) => return Err(Fail::new("the hints are trees")),
    };
    let script = match read_script(alloc, trees.as_slice(), Place { line: 1, column: 1 }, dev) {
        Ok(script) => script,
        Err(_) => return Err(Fail::new("the hints are of the form")),
    };
    let sections = script.parts().sections.len();
    if sections < 5 || sections - 5 != dev.spec.ops().len() {
        return Err(Fail::new("the script is of the device"));
    }
    Ok(script)
}
