//! The form of scripts: a section of each kind, in any order, with hint numbers in order.
ghost use Rattle.std.specs.Prelude.{◌≡◌, ◌+◌, ◌≤◌, length, Some, None, MatchOption, true};
ghost use Rattle.script_core.specs.Hints.{script_fits, same_kind, is_wire, hint_of_kind, items_of_kind, is_loop, is_cut, is_tick, leads_to, items_fit, are_numbered, are_of, kinds};
ghost use Rattle.script_core.specs.Forms.{is_among, stands_in, are_apart, own_hints};

use crate::parts::{Act, HintNo, Item, Kind, ScriptParts, Section};
use emu_machine::Device;

/// Whether the parts are those of a script for a device: a section of each kind, one `call` for each
/// operation, with hint numbers in order. `wire` has a cut, a step of one tick and a subsume of
/// that cut.
pub fn fits_script(dev: &Device, parts: &ScriptParts) -> bool
    ensures { result ≡ script_fits (length dev.now.spec.ops) parts.now }
{
    let ops = dev.spec.parts().ops.as_slice().len();
    let sections = parts.sections.as_slice();
    are_numbered(sections) && are_of(ops, sections)
}

/// Whether two kinds are the same.
pub(crate) fn same_kind(a: Kind, b: Kind) -> bool
    ensures { result ≡ same_kind a b }
{
    match (a, b) {
        (Kind::Factory, Kind::Factory)
        | (Kind::BootHost, Kind::BootHost)
        | (Kind::Rest, Kind::Rest)
        | (Kind::Wait, Kind::Wait)
        | (Kind::Wire, Kind::Wire) => true,
        (Kind::Call(op), Kind::Call(other)) => op == other,
        _ => false,
    }
}

pub(crate) fn is_wire(kind: Kind) -> bool
    ensures { result ≡ is_wire kind }
{
    match kind {
        Kind::Wire => true,
        _ => false,
    }
}

pub(crate) fn is_cut(act: &Act) -> bool
    ensures { result ≡ is_cut act.now }
{
    match act {
        Act::Cut(_) => true,
        _ => false,
    }
}

fn is_tick(act: &Act) -> bool
    ensures { result ≡ is_tick act.now }
{
    match act {
        Act::Step(count) => *count == 1,
        _ => false,
    }
}

/// Whether an item is a subsume of the cut with this hint.
fn leads_to(act: &Act, hint: u64) -> bool
    ensures { result ≡ leads_to hint act.now }
{
    match act {
        Act::Subsume(target) => u64::from(target.0) == hint,
        _ => false,
    }
}

/// Whether the items are those of a `wire` with this hint: a cut, a step of one tick and a subsume
/// of that cut.
fn is_loop(hint: HintNo, items: &[Item]) -> bool
    ensures { result ≡ is_loop hint.0 items.now }
{
    let own = u64::from(hint.0);
    match items {
        [cut, step, subsume] => {
            u64::from(cut.hint.0) == own + 1
                && u64::from(step.hint.0) == own + 2
                && u64::from(subsume.hint.0) == own + 3
                && is_cut(&cut.act)
                && is_tick(&step.act)
                && leads_to(&subsume.act, own + 1)
        }
        _ => false,
    }
}

/// Whether a section of a kind has the items that it needs.
fn items_fit(kind: Kind, hint: HintNo, items: &[Item]) -> bool
    ensures { result ≡ items_fit kind hint.0 items.now }
{
    if is_wire(kind) {
        is_loop(hint, items)
    } else {
        items.is_empty()
    }
}

/// The number of hints of a section of a kind.
fn own_hints(kind: Kind) -> u64
    ensures { result ≡ own_hints kind }
{
    if is_wire(kind) { 4 } else { 1 }
}

/// Whether sections and items are numbered from 1 on, and each section has the items that it needs.
fn are_numbered(sections: &[Section]) -> bool
    ensures { result ≡ are_numbered 1 sections.now }
{
    let mut next = 1u64;
    let mut left = sections;
    while let Some((section, more)) = left.split_first() {
        if u64::from(section.hint.0) != next {
            return false;
        }
        if !items_fit(section.kind, section.hint, section.items.as_slice()) {
            return false;
        }
        next = u64::from(section.hint.0) + own_hints(section.kind);
        left = more;
    }
    true
}

/// Whether a section of a kind stands among the sections.
fn stands_in(kind: Kind, sections: &[Section]) -> bool
    ensures { result ≡ stands_in kind sections.now }
{
    let mut left = sections;
    while let Some((section, more)) = left.split_first() {
        if same_kind(kind, section.kind) {
            return true;
        }
        left = more;
    }
    false
}

/// Whether a device with so many operations has a kind.
fn is_known(kind: Kind, ops: usize) -> bool
    ensures { result ≡ is_among kind (kinds ops) }
{
    match kind {
        Kind::Call(op) => u64::from(op) < ops as u64,
        _ => true,
    }
}

/// Whether each section is of a kind that a device with so many operations has, and of another kind
/// than those behind it.
fn are_apart(ops: usize, sections: &[Section]) -> bool
    ensures { result ≡ are_apart (kinds ops) sections.now }
{
    let mut left = sections;
    while let Some((section, more)) = left.split_first() {
        if !is_known(section.kind, ops) {
            return false;
        }
        if stands_in(section.kind, more) {
            return false;
        }
        left = more;
    }
    true
}

/// Whether there is one section of each kind that a device with so many operations has.
fn are_of(ops: usize, sections: &[Section]) -> bool
    ensures { result ≡ are_of sections.now (Some (kinds ops)) }
{
    let count = sections.len();
    if count < 5 {
        return false;
    }
    if count - 5 != ops {
        return false;
    }
    are_apart(ops, sections)
}

/// The hint of the first section of a kind.
pub(crate) fn hint_of_kind(kind: Kind, sections: &[Section]) -> HintNo
    ensures { result.0 ≡ hint_of_kind kind sections.now }
{
    let mut left = sections;
    while let Some((section, more)) = left.split_first() {
        if same_kind(kind, section.kind) {
            return section.hint;
        }
        left = more;
    }
    HintNo(0)
}

/// The items of the first section of a kind.
pub(crate) fn items_of_kind(kind: Kind, sections: &[Section]) -> &[Item]
    ensures { result.now ≡ items_of_kind kind sections.now }
{
    let mut left = sections;
    while let Some((section, more)) = left.split_first() {
        if same_kind(kind, section.kind) {
            return section.items.as_slice();
        }
        left = more;
    }
    &[]
}
