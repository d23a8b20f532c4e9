//! The verifier: five texts get their meaning, and then the script is decided segment by segment.
ghost use Rattle.std.specs.Prelude.{◌≡◌, ◌⊎◌, length, Ok, Err, IfOk, IfErr};
ghost use Rattle.knox_verify.specs.Judgements.{Parts, parts_of, device, AllHold};
ghost use Rattle.knox_verify.specs.{Words.Agree, Words.ops_of, declared.verdict.VerifyFault.VerifyFault, Meanings.five, Meanings.Means, Faults.FirstFault, Faults.OrMemory, Verdicts.Decides};

use crate::meaning::{device_of, script_of};
use crate::verdict::{Verdict, VerifyFault};
use emu_machine::Device;
use script_core::{Checked, Script, SegmentNo, check};
use std::alloc::Global;

/// Decides a script, segment after segment. The first one that is falsified or too wide decides.
fn decide(alloc: Global, dev: &Device, sc: &Script) -> Result<Verdict, VerifyFault>
    requires of { length dev.now.spec.ops ≡ ops_of sc.now }
    ensures decided { IfOk result (Decides (parts_of dev.now sc.now)) }
    ensures memory { IfErr result (λ f. f ≡ VerifyFault.Memory) }
{
    for g in 0..sc.segments() {
        match check(alloc, dev, sc, SegmentNo(g))? {
            Checked::Holds => {}
            Checked::Falsified(hint, choices) => return Ok(Verdict::Undecided(hint, choices)),
            Checked::TooWide(hint, bits) => return Ok(Verdict::TooWide(hint, bits)),
        }
    }
    Ok(Verdict::Yes)
}

/// What five texts mean, decided: of a yes, that the worlds agree.
fn judge(
    alloc: Global,
    c: &[u8],
    s: &[u8],
    d: &[u8],
    e: &[u8],
    h: &[u8],
) -> Result<Verdict, VerifyFault>
    ensures judged { IfOk result (λ v. (p : Parts) × Means (five c.now s.now d.now e.now h.now) p × Decides p v) }
    ensures agree { result ≡ Ok Verdict.Yes → (p : Parts) × Means (five c.now s.now d.now e.now h.now) p × Agree (device p) }
    ensures refused { IfErr result (OrMemory (FirstFault (five c.now s.now d.now e.now h.now))) }
{
    let dev = device_of(alloc, c, s, d, e)?;
    let script = script_of(alloc, &dev, h)?;
    device_design::devices_are_designs(&dev);
    script_core::scripts_are_formed(&script);
    script_read::texts_mean_scripts();
    let verdict = decide(alloc, &dev, &script)?;
    Ok(verdict)
}

/// The verdict on a circuit, a specification, a driver, an emulator and a hint text. A refusal names
/// the first of them that is too long or has no meaning. The budget of lemmas and the number of paths
/// have no effect yet.
pub fn verify_texts(
    alloc: Global,
    c: &[u8],
    s: &[u8],
    d: &[u8],
    e: &[u8],
    h: &[u8],
    _budget: u64,
    _paths: u32,
) -> Result<Verdict, VerifyFault>
    // A yes: the texts mean parts whose two worlds agree,
    ensures agree { result ≡ Ok Verdict.Yes → (p : Parts) × Means (five c.now s.now d.now e.now h.now) p × Agree (device p) }
    // and whose script is closed.
    ensures closed { result ≡ Ok Verdict.Yes → (p : Parts) × Means (five c.now s.now d.now e.now h.now) p × AllHold p }
    // Where they mean such parts, the answer is yes, unless memory runs out.
    ensures yes { (p : Parts) → Means (five c.now s.now d.now e.now h.now) p → AllHold p → (result ≡ Ok Verdict.Yes) ⊎ (result ≡ Err VerifyFault.Memory) }
    // What each verdict says of the parts that the texts mean.
    ensures judged { IfOk result (λ v. (p : Parts) × Means (five c.now s.now d.now e.now h.now) p × Decides p v) }
    // Texts that mean something are refused for want of memory alone.
    ensures meant { (p : Parts) → Means (five c.now s.now d.now e.now h.now) p → IfErr result (λ f. f ≡ VerifyFault.Memory) }
    // They mean at most one thing.
    ensures one_meaning { (p q : Parts) → Means (five c.now s.now d.now e.now h.now) p → Means (five c.now s.now d.now e.now h.now) q → p ≡ q }
    // A refusal is their first fault,
    ensures refused { IfErr result (OrMemory (FirstFault (five c.now s.now d.now e.now h.now))) }
    // and where they have one, it is told, unless memory runs out.
    ensures first_fault { (f : VerifyFault) → FirstFault (five c.now s.now d.now e.now h.now) f → (result ≡ Err f) ⊎ (result ≡ Err VerifyFault.Memory) }
{
    knox_sexpr::one_meaning();
    judge(alloc, c, s, d, e, h)
}
