//! From five texts to what they mean: each text is read by its language's own definition, and
//! parts that don't fit each other are in no form.
ghost use Rattle.std.specs.Prelude.{◌≡◌, ◌≤◌, ◌<◌, length, IfOk, IfErr, OnOk};
ghost use Rattle.knox_verify.specs.Words.{start_of, end_of, Bytes, limit, spec_text, driver_text, emulator_text, script_text};
ghost use Rattle.knox_verify.specs.Meanings.{five, MeansCircuit, Spells, Reads, MeansDevice};
ghost use Rattle.knox_verify.specs.Faults.{of_program, of_driver, of_script, OrMemory, TreesFault, TextFault, CircuitFault, FirstFault};

use crate::verdict::{Letter, TextWhy, VerifyFault};
use emu_machine::Device;
use knox_circuit::{Circuit, Why};
use knox_edge::LIMIT;
use knox_lang::{DriverProgram, EmuProgram, SpecProgram};
use knox_sexpr::{SexprFault, Tree};
use knox_text::end_place;
use lang_read::LangWhy;
use script_core::Script;
use script_read::ScriptWhy;
use sqlite_items::Items;
use std::alloc::Global;

/// A text that is too long is refused.
fn check_length(letter: Letter, text: &[u8]) -> Result<(), VerifyFault>
    ensures short { OnOk result (length text.now ≤ limit) }
    ensures long { IfErr result (λ f. (limit < length text.now) × (f ≡ VerifyFault.Text letter TextWhy.TooLong)) }
{
    if text.len() > LIMIT {
        return Err(VerifyFault::Text(letter, TextWhy::TooLong));
    }
    Ok(())
}

/// The trees of a text.
fn parse(alloc: Global, letter: Letter, text: &[u8]) -> Result<Items<Tree>, VerifyFault>
    ensures trees { IfOk result (λ trees. Spells text.now trees) }
    ensures fault { IfErr result (OrMemory (TreesFault letter text.now)) }
{
    check_length(letter, text)?;
    match knox_sexpr::read(alloc, text) {
        Ok(trees) => Ok(trees),
        Err(SexprFault::Memory) => Err(VerifyFault::Memory),
        Err(_) => Err(VerifyFault::NotYet),
    }
}

/// The specification that a text means.
fn spec_of(alloc: Global, s: &[u8]) -> Result<SpecProgram, VerifyFault>
    ensures meant { IfOk result (λ spec. Reads spec_text s.now spec) }
    ensures fault { IfErr result (OrMemory (TextFault Letter.S of_program spec_text s.now)) }
{
    let trees = parse(alloc, Letter::S, s)?;
    let spec = lang_read::read_spec(alloc, trees.as_slice(), end_place(s))?;
    Ok(spec)
}

/// The driver that a text means for a circuit and a specification. A call that is missing is told.
fn driver_of(
    alloc: Global,
    d: &[u8],
    circuit: &Circuit,
    spec: &SpecProgram,
) -> Result<DriverProgram, VerifyFault>
    ensures meant { IfOk result (λ driver. Reads (driver_text circuit.now spec.now) d.now driver) }
    ensures fault { IfErr result (OrMemory (TextFault Letter.D of_driver (driver_text circuit.now spec.now) d.now)) }
{
    let trees = parse(alloc, Letter::D, d)?;
    match lang_read::read_driver(alloc, trees.as_slice(), end_place(d), circuit, spec) {
        Ok(driver) => Ok(driver),
        Err(fault) if fault.why == LangWhy::Missing => {
            Err(VerifyFault::Text(Letter::D, TextWhy::Lang(fault)))
        }
        Err(fault) => Err(VerifyFault::from(fault)),
    }
}

/// The emulator that a text means for a circuit, a specification and a driver.
fn emulator_of(
    alloc: Global,
    e: &[u8],
    circuit: &Circuit,
    spec: &SpecProgram,
    driver: &DriverProgram,
) -> Result<EmuProgram, VerifyFault>
    ensures meant { IfOk result (λ emulator. Reads (emulator_text circuit.now spec.now driver.now) e.now emulator) }
    ensures fault { IfErr result (OrMemory (TextFault Letter.E of_program (emulator_text circuit.now spec.now driver.now) e.now)) }
{
    let trees = parse(alloc, Letter::E, e)?;
    let end = end_place(e);
    let emulator = lang_read::read_emulator(alloc, trees.as_slice(), end, circuit, spec, driver)?;
    Ok(emulator)
}

/// The circuit that a text means, or its first fault.
fn circuit_of(alloc: Global, c: &[u8]) -> Result<Circuit, VerifyFault>
    ensures meant { IfOk result (λ circuit. MeansCircuit c.now circuit) }
    ensures fault { IfErr result (OrMemory (CircuitFault c.now)) }
{
    check_length(Letter::C, c)?;
    match btor_read::read_circuit(alloc, c) {
        Ok(circuit) => Ok(circuit),
        Err(fault) if fault.why == Why::Memory => Err(VerifyFault::Memory),
        Err(fault) => Err(VerifyFault::Text(Letter::C, TextWhy::Circuit(fault))),
    }
}

/// The device that four texts mean. A refusal is the first fault of the four texts with any hints
/// behind them: of the first text, in their order, that is too long or has no meaning.
pub fn device_of(
    alloc: Global,
    c: &[u8],
    s: &[u8],
    d: &[u8],
    e: &[u8],
) -> Result<Device, VerifyFault>
    ensures meant { IfOk result (λ dev. MeansDevice c.now s.now d.now e.now dev.circuit dev.spec dev.driver dev.emulator) }
    ensures refused { (h : Bytes) → IfErr result (OrMemory (FirstFault (five c.now s.now d.now e.now h))) }
{
    let circuit = circuit_of(alloc, c)?;
    let spec = spec_of(alloc, s)?;
    let driver = driver_of(alloc, d, &circuit, &spec)?;
    let emulator = emulator_of(alloc, e, &circuit, &spec, &driver)?;
    match Device::new(circuit, spec, driver, emulator) {
        Some(dev) => Ok(dev),
        None => Err(VerifyFault::NotYet),
    }
}

/// The script that a text means for a device. A form that is missing is told.
pub(crate) fn script_of(alloc: Global, dev: &Device, h: &[u8]) -> Result<Script, VerifyFault>
    ensures meant { IfOk result (λ script. Reads (script_text dev.now.circuit dev.now.spec dev.now.driver dev.now.emulator) h.now script) }
    ensures fault { IfErr result (OrMemory (TextFault Letter.H of_script (script_text dev.now.circuit dev.now.spec dev.now.driver dev.now.emulator) h.now)) }
{
    let trees = parse(alloc, Letter::H, h)?;
    match script_read::read_script(alloc, trees.as_slice(), end_place(h), dev) {
        Ok(script) => Ok(script),
        Err(fault) if fault.why == ScriptWhy::Memory => Err(VerifyFault::Memory),
        Err(fault) if fault.why == ScriptWhy::Missing => {
            Err(VerifyFault::Text(Letter::H, TextWhy::Script(fault)))
        }
        Err(_) => Err(VerifyFault::NotYet),
    }
}
