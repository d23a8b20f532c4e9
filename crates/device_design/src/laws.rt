//! Laws of devices and of their drivers, as functions that do nothing.
ghost use Rattle.std.specs.Prelude.{◌≡◌, ℕ, List, [], Bool, true, false, length, slice_get, slice_index, slice_set, Some, None};
ghost use Rattle.knox_words.specs.Bits.{Bits};
ghost use Rattle.knox_words.specs.Lists.{Words, fit, fits, pick};
ghost use Rattle.knox_theory.specs.Device.{answered};
ghost use Rattle.knox_theory.specs.Design.{Config, Design};
ghost use Rattle.knox_theory.specs.Lawful.{FitsAsking, IsDesign, IsDriver, IsWireDesign};
ghost use Rattle.knox_circuit.specs.Circuit.{Circuit as Lines};
ghost use Rattle.knox_circuit.specs.Cells.{cells_of, state_widths, keep_mask};
ghost use Rattle.knox_circuit.specs.Ports.{input_widths, output_widths};
ghost use Rattle.knox_circuit.specs.Rom.{rom_words, fits_state};
ghost use Rattle.knox_lang.specs.declared.parts.OpHead.{OpHead};
ghost use Rattle.knox_lang.specs.declared.parts.Body.{Body};
ghost use Rattle.knox_lang.specs.declared.parts.SpecParts.{SpecParts};
ghost use Rattle.knox_lang.specs.declared.parts.DriverParts.{DriverParts};
ghost use Rattle.knox_lang.specs.declared.parts.EmuParts.{EmuParts};
ghost use Rattle.knox_lang.specs.Fitting.{fits_driver};
ghost use Rattle.knox_lang.specs.Operation.{arg_widths};
ghost use Rattle.knox_lang.specs.WellFormed.{spec_fits, emulator_fits, word_widths, local_widths};
ghost use Rattle.driver_machine.specs.Left.{Left, start, step};
ghost use Rattle.driver_machine.specs.Fits.{fits_config};
ghost use Rattle.driver_machine.specs.Lawful.{HasDriver};
ghost use Rattle.emu_machine.specs.Emulator.{emulator_after_tick, fields_after_tick};
ghost use Rattle.emu_machine.specs.Dialogue.{tick_dialogue};
ghost use Rattle.emu_machine.specs.Fits.{same_heads, fits_device};
ghost use Rattle.device_design.specs.Meaning.{persistent_roms, device_of, design_of};
ghost use Rattle.device_design.specs.Roms.{known_fit};

use emu_machine::Device;
use knox_circuit::Circuit;
use knox_lang::DriverProgram;

/// The dialogue of a tick, answered by the specification, ends with the words that the tick leaves:
/// the specification's fields and the emulator's own.
pub fn dialogue_is_the_tick()
    ensures dialogue { (c : Lines) (s : SpecParts) (d : DriverParts) (p : EmuParts) (fields emu ins : List Bits) → answered (device_of c s d p) fields (tick_dialogue p emu ins) ≡ record { fields = fields_after_tick s p fields emu ins; emu = emulator_after_tick s p fields emu ins; copy = [] } }
    ensures asked { (c : Lines) (s : SpecParts) (d : DriverParts) (p : EmuParts) (emu copy ins : List Bits) → (device_of c s d p).emu_tick emu copy ins ≡ tick_dialogue p emu ins }
{}

/// Whatever words of the results' widths are replied, a tick of an emulator without a copy of the
/// circuit asks for operations that exist, with words for their arguments, and ends with words that fit.
pub fn queries_are_of_operations()
    ensures { (c : Lines) (s : SpecParts) (d : DriverParts) (p : EmuParts) (emu ins : List Bits) → spec_fits s ≡ true → emulator_fits p ≡ true → p.copy ≡ false → same_heads p.ops s.ops ≡ true → fit (word_widths p.init) emu ≡ true → fit p.ins ins ≡ true → FitsAsking (design_of c s d p) (tick_dialogue p emu ins) }
{}

/// What is known of the device words has their widths, one for one, and so has what is known of the
/// persistent words.
pub fn rom_words_have_widths(c: &Circuit)
    ensures cells { known_fit (rom_words c.now.lines) (state_widths (cells_of c.now.lines)) ≡ true }
    ensures kept { (keep : List Bool) → known_fit (persistent_roms c.now.lines keep) (pick (keep_mask (cells_of c.now.lines) keep) (state_widths (cells_of c.now.lines))) ≡ true }
{
    circuit_laws::circuits_have_widths(c);
    circuit_laws::circuits_keep_rom_words(c);
    circuit_laws::rom_words_fit(c);
}

/// Parts that fit each other make a design that is lawful where its host is never attached.
pub fn parts_make_designs(c: &Circuit)
    ensures { (s : SpecParts) (d : DriverParts) (e : EmuParts) → spec_fits s ≡ true → emulator_fits e ≡ true → fits_device c.now s d e ≡ true → IsWireDesign (design_of c.now s d e) }
{
    circuit_laws::circuits_have_widths(c);
    circuit_laws::circuits_keep_widths(c);
    circuit_laws::circuits_keep_rom_words(c);
    rom_words_have_widths(c);
    circuit_laws::power_keeps_persistent_words(c);
    circuit_laws::persistent_words_are_spread(c);
}

/// The driver of a device is one of its circuit, and the device's design has this driver.
pub fn devices_have_drivers(dev: &Device)
    ensures driver { fits_driver (input_widths dev.now.circuit.lines) (output_widths dev.now.circuit.lines) (length (cells_of dev.now.circuit.lines)) dev.now.driver ≡ true }
    ensures design { HasDriver dev.now.circuit.lines dev.now.driver (design_of dev.now.circuit dev.now.spec dev.now.driver dev.now.emulator) }
{
    rom_words_have_widths(&dev.circuit);
}

/// A design that has the driver of a circuit obeys the laws of drivers: words keep their widths, a
/// driver at its end stays there, it comes there by the ticks that are left and one more move, and
/// then its reply and its cells are those of the whole body.
pub fn drivers_are_lawful(c: &Circuit, d: &DriverProgram)
    requires { fits_driver (input_widths c.now.lines) (output_widths c.now.lines) (length (cells_of c.now.lines)) d.now ≡ true }
    ensures { (g : Design Left) → HasDriver c.now.lines d.now g → IsDriver g }
{
    circuit_laws::circuits_have_widths(c);
    circuit_laws::circuits_keep_widths(c);
    circuit_laws::circuits_keep_rom_words(c);
    circuit_laws::outputs_have_widths(c);
    d.is_well_formed();
}

/// A place of a body stays one: the start of a body is one, a step leads to one, and so does another
/// word of the same width in place of a local or of a device word that is no ROM word.
pub fn places_are_kept(c: &Circuit, d: &DriverProgram)
    requires { fits_driver (input_widths c.now.lines) (output_widths c.now.lines) (length (cells_of c.now.lines)) d.now ≡ true }
    ensures start { (op : ℕ) (args cells : Words) (head : OpHead) → slice_get d.now.ops op ≡ Some head → fit (arg_widths head) args ≡ true → fits_state c.now.lines cells ≡ true → fits_config c.now.lines d.now op (start d.now op args cells) ≡ true }
    ensures step { (op : ℕ) (x : Config Left) → fits_config c.now.lines d.now op x ≡ true → fits_config c.now.lines d.now op (step c.now.lines d.now x) ≡ true }
    ensures word { (op : ℕ) (x : Config Left) (k : ℕ) (w : Bits) → slice_get (rom_words c.now.lines) k ≡ Some None → fits (slice_index (state_widths (cells_of c.now.lines)) k) w ≡ true → fits_config c.now.lines d.now op x ≡ true → fits_config c.now.lines d.now op (record x { cells = slice_set x.cells k w }) ≡ true }
    ensures local_word { (op : ℕ) (x : Config Left) (b : Body) (k : ℕ) (w : Bits) → slice_get d.now.bodies op ≡ Some b → fits (slice_index (local_widths b) k) w ≡ true → fits_config c.now.lines d.now op x ≡ true → fits_config c.now.lines d.now op (record x { locals = slice_set x.locals k w }) ≡ true }
{
    circuit_laws::circuits_have_widths(c);
    circuit_laws::circuits_keep_widths(c);
    circuit_laws::circuits_keep_rom_words(c);
    circuit_laws::outputs_have_widths(c);
    d.is_well_formed();
}

/// The design of a device is lawful.
pub fn devices_are_designs(dev: &Device)
    ensures { IsDesign (design_of dev.now.circuit dev.now.spec dev.now.driver dev.now.emulator) }
{
    dev.spec.is_well_formed();
    dev.emulator.is_well_formed();
    parts_make_designs(&dev.circuit);
    devices_have_drivers(dev);
    drivers_are_lawful(&dev.circuit, &dev.driver);
}
