//! Scripts and their segments.
ghost use Rattle.std.specs.Prelude.{◌≡◌, ◌↔◌, ◌<◌, ◌≤◌, length, slice_get, Some, None, IsSome, IfSome, MatchOption, true};
ghost use Rattle.knox_circuit.specs.Circuit.{Circuit};
ghost use Rattle.knox_lang.specs.declared.parts.SpecParts.{SpecParts};
ghost use Rattle.knox_lang.specs.declared.parts.DriverParts.{DriverParts};
ghost use Rattle.knox_lang.specs.declared.parts.EmuParts.{EmuParts};
ghost use Rattle.knox_theory.specs.Closed.{all_hints, segment_of};
ghost use Rattle.script_core.specs.Hints.{script_fits, ops_of, behind_cut, first_cut, cut_named, wire_items, hint_of_kind, hint_count, obligations_of, item_obligations, section_obligations, obligations, roots, root_at};
ghost use Rattle.script_core.specs.Forms.{first_hint, last_item_hint, last_hint, segment_number};
ghost use Rattle.script_core.specs.Runs.{segments_of, hint_at, counted};

use crate::form;
use crate::parts::{Act, HintNo, Item, Kind, Root, ScriptParts, Section, SegmentNo};
use emu_machine::Device;
use knox_lang::Expr;
use std::marker::Model;

/// A script with a section of each kind, in any order. `wire` has a cut, a step of one tick and a
/// subsume of that cut. Its segments are that of `wire`, which the cut ends, that of the cut, and
/// one of each other section.
pub struct Script {
    parts: ScriptParts,
}

// Written out, so that letting a script go is proved here once and not by every crate above.
impl Drop for Script {
    fn drop(self) {
        let Script { parts: _parts } = self;
    }
}

impl Model for Script {
    ghost use Rattle.std.specs.Prelude.{◌≡◌, true};
    ghost use Rattle.script_core.specs.declared.parts.ScriptParts.{ScriptParts};
    ghost use Rattle.script_core.specs.Hints.{script_fits, ops_of};
    ghost use Rattle.knox_lang.specs.contracts.expr.Expr as e;
    ghost use Rattle.std.specs.Coded.{codes};

    ghost Value = { ScriptParts };

    ghost coded = { Prim.hlevel (codes, e.the_row.coded) };

    ghost view = { λ s. s.parts };

    ghost invariant = { λ s. script_fits (ops_of s.parts) s.parts ≡ true };
}

/// The items behind the first cut.
fn behind_cut(items: &[Item]) -> &[Item]
    ensures { result.now ≡ behind_cut items.now }
{
    let mut left = items;
    while let Some((item, more)) = left.split_first() {
        if form::is_cut(&item.act) {
            return more;
        }
        left = more;
    }
    left
}

/// The condition of the first cut.
fn first_cut(items: &[Item]) -> Option<&Expr>
    ensures { MatchOption result (first_cut items.now ≡ None) (λ e. first_cut items.now ≡ Some e.now) }
{
    let mut left = items;
    while let Some((item, more)) = left.split_first() {
        if let Act::Cut(condition) = &item.act {
            return Some(condition);
        }
        left = more;
    }
    None
}

/// The condition of the cut with this hint, of those before the first subsume.
fn cut_named(items: &[Item], target: HintNo) -> Option<&Expr>
    ensures { MatchOption result (cut_named target.0 items.now ≡ None) (λ e. cut_named target.0 items.now ≡ Some e.now) }
{
    let mut left = items;
    while let Some((item, more)) = left.split_first() {
        match &item.act {
            Act::Step(_) => {}
            Act::Cut(condition) => {
                if target.0 == item.hint.0 {
                    return Some(condition);
                }
            }
            Act::Subsume(_) => return None,
        }
        left = more;
    }
    None
}

/// The number of checks at which a run can fail at an item.
fn obligations_of(act: &Act) -> u64
    ensures { result ≡ obligations_of act.now }
{
    match act {
        Act::Step(count) => 2 * u64::from(*count),
        _ => 1,
    }
}

/// The number of checks at which a run can fail at some items.
#[tactic(auto, using(crate::proofs::Counting::sums))]
fn item_obligations(items: &[Item]) -> u64
    ensures { result ≡ counted (item_obligations items.now) }
{
    let mut sum = 0u64;
    let mut left = items;
    while let Some((item, more)) = left.split_first() {
        sum = sum.saturating_add(obligations_of(&item.act));
        left = more;
    }
    sum
}

/// The number of checks at which a run can fail at a section and its items.
fn section_obligations(section: &Section) -> u64
    ensures { result ≡ counted (section_obligations section.now) }
{
    if form::is_wire(section.kind) {
        item_obligations(section.items.as_slice())
    } else {
        1
    }
}

/// The last hint of a section with these items.
fn last_item_hint(own: HintNo, items: &[Item]) -> HintNo
    ensures { result.0 ≡ last_item_hint own.0 items.now }
{
    let mut last = own;
    let mut left = items;
    while let Some((item, more)) = left.split_first() {
        last = item.hint;
        left = more;
    }
    last
}

/// The hint of the first item.
fn first_hint(items: &[Item]) -> HintNo
    ensures { result.0 ≡ first_hint items.now }
{
    match items.first() {
        Some(item) => item.hint,
        None => HintNo(0),
    }
}

/// The number of the segment of a hint, by the hint of `wire`.
fn segment_number(wire: u32, hint: u32) -> u32
    requires wire { 1 ≤ wire }
    requires hint { 1 ≤ hint }
    ensures { result ≡ segment_number wire hint }
{
    if hint <= wire {
        return hint - 1;
    }
    if hint - wire <= 2 { hint - 2 } else { hint - 3 }
}

impl Script {
    /// The script of these parts for a device: `None` exactly where they aren't of the form.
    pub fn new(dev: &Device, parts: ScriptParts) -> Option<Script>
        ensures some { IsSome result ↔ (script_fits (length dev.now.spec.ops) parts ≡ true) }
        ensures parts { IfSome result (λ s. s ≡ parts) }
    {
        if form::fits_script(dev, &parts) {
            Some(Script { parts })
        } else {
            None
        }
    }

    /// The parts that it was made of.
    pub fn parts(&self) -> &ScriptParts
        ensures parts { result.now ≡ self.now }
        ensures form { script_fits (ops_of self.now) self.now ≡ true }
    {
        &self.parts
    }

    /// The number of hints: one for each section and each item.
    pub fn hints(&self) -> u32
        ensures count { result ≡ hint_count self.now.sections }
        ensures all { (c : Circuit) (s : SpecParts) (d : DriverParts) (e : EmuParts) → length s.ops ≡ ops_of self.now → length (all_hints (segments_of c s d e self.now)) ≡ result }
    {
        let parts = self.parts();
        let last = last_hint(parts.sections.as_slice());
        last.0
    }

    /// The number of checks at which a run can fail: two for each tick of a step, one for each
    /// other item, and one for each section of the host.
    #[tactic(auto, using(crate::proofs::Counting::sums))]
    pub fn obligations(&self) -> u64
        ensures { result ≡ counted (obligations self.now.sections) }
    {
        let mut sum = 0u64;
        let mut left = self.parts.sections.as_slice();
        while let Some((section, more)) = left.split_first() {
            sum = sum.saturating_add(section_obligations(section));
            left = more;
        }
        sum
    }

    /// The number of segments: one of each section, and that of the cut.
    pub fn segments(&self) -> u32
        ensures count { result ≡ length (roots self.now.sections) }
        ensures all { (c : Circuit) (s : SpecParts) (d : DriverParts) (e : EmuParts) → length s.ops ≡ ops_of self.now → length (segments_of c s d e self.now) ≡ result }
    {
        let _parts = self.parts();
        self.hints() - 2
    }

    /// The hint number of a segment's section or cut; 0 where there is no such segment.
    pub fn hint_of(&self, g: SegmentNo) -> HintNo
        ensures { (c : Circuit) (s : SpecParts) (d : DriverParts) (e : EmuParts) → length s.ops ≡ ops_of self.now → result.0 ≡ hint_at (segments_of c s d e self.now) g.0 }
    {
        let _parts = self.parts();
        match self.root_of(g) {
            Some(Root::OfKind(kind)) => self.hint_of_kind(kind),
            Some(Root::OfCut) => first_hint(self.wire()),
            None => HintNo(0),
        }
    }

    /// The segment at whose checks a run can fail at a hint. A cut is a hint of the segment that it
    /// ends.
    pub fn segment_of(&self, hint: HintNo) -> SegmentNo
        requires first { 1 ≤ hint.0 }
        requires last { hint.0 ≤ hint_count self.now.sections }
        ensures number { result.0 < length (roots self.now.sections) }
        ensures segment { (c : Circuit) (s : SpecParts) (d : DriverParts) (e : EmuParts) → length s.ops ≡ ops_of self.now → segment_of hint.0 (segments_of c s d e self.now) ≡ slice_get (segments_of c s d e self.now) result.0 }
    {
        let _parts = self.parts();
        let wire = self.hint_of_kind(Kind::Wire);
        SegmentNo(segment_number(wire.0, hint.0))
    }

    /// What a segment begins with.
    pub(crate) fn root_of(&self, g: SegmentNo) -> Option<Root>
        ensures { result ≡ root_at self.now g.0 }
    {
        root_among(self.parts.sections.as_slice(), g.0)
    }

    /// The items of `wire`.
    pub(crate) fn wire(&self) -> &[Item]
        ensures { result.now ≡ wire_items self.now }
    {
        form::items_of_kind(Kind::Wire, self.parts.sections.as_slice())
    }

    /// The condition of the cut.
    pub(crate) fn cut(&self) -> Option<&Expr>
        ensures { MatchOption result (first_cut (wire_items self.now) ≡ None) (λ e. first_cut (wire_items self.now) ≡ Some e.now) }
    {
        first_cut(self.wire())
    }

    /// The items behind the cut.
    pub(crate) fn behind_cut(&self) -> &[Item]
        ensures { result.now ≡ behind_cut (wire_items self.now) }
    {
        behind_cut(self.wire())
    }

    /// The condition of the cut with this hint.
    pub(crate) fn condition_of(&self, target: HintNo) -> Option<&Expr>
        ensures { MatchOption result (cut_named target.0 (wire_items self.now) ≡ None) (λ e. cut_named target.0 (wire_items self.now) ≡ Some e.now) }
    {
        cut_named(self.wire(), target)
    }

    /// The hint of the section of a kind.
    pub(crate) fn hint_of_kind(&self, kind: Kind) -> HintNo
        ensures { result.0 ≡ hint_of_kind kind self.now.sections }
    {
        form::hint_of_kind(kind, self.parts.sections.as_slice())
    }
}

/// The last hint of some sections.
fn last_hint(sections: &[Section]) -> HintNo
    ensures { result.0 ≡ last_hint 0 sections.now }
{
    let mut last = HintNo(0);
    let mut left = sections;
    while let Some((section, more)) = left.split_first() {
        last = last_item_hint(section.hint, section.items.as_slice());
        left = more;
    }
    last
}

/// What the segment with a number begins with, of those of some sections.
fn root_among(sections: &[Section], number: u32) -> Option<Root>
    ensures { result ≡ slice_get (roots sections.now) number }
{
    let mut wanted = number;
    let mut left = sections;
    while let Some((section, more)) = left.split_first() {
        if wanted == 0 {
            return Some(Root::OfKind(section.kind));
        }
        wanted -= 1;
        if form::is_wire(section.kind) {
            if wanted == 0 {
                return Some(Root::OfCut);
            }
            wanted -= 1;
        }
        left = more;
    }
    None
}
