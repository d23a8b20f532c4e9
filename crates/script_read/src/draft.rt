//! What was read of a text so far: conditions, sections, and the kinds that are left.
ghost use Rattle.std.specs.Prelude.{◌≡◌, ◌+◌, ◌≤◌, IfOk, OnOk};
ghost use Rattle.script_core.specs.Hints.{kinds};
ghost use Rattle.expr_read.specs.Views.{Gives};
ghost use Rattle.script_read.specs.Scripts.{host_section, wire_section, is_left, less, nothing, with_section, add, needed, none_left, finished};

use expr_read::{LangFault, LangWhy, fault};
use knox_lang::Expr;
use knox_text::Place;
use script_core::{Act, HintNo, Item, Kind, ScriptParts, Section};
use sqlite_items::Items;
use std::alloc::{AllocError, Global};

/// What a tree of a text says.
#[derive(Drop)]
pub(crate) enum Said {
    /// The condition `refine`.
    Refine(Expr),
    /// The condition `idle`.
    Idle(Expr),
    /// A section of the host.
    Host(Kind),
    /// The section `wire`, whose cut has this condition.
    Wire(Expr),
}

/// What the trees of a text said so far: the two conditions, the sections in order, the kinds of
/// which there is no section yet, and the next hint number.
#[derive(Drop)]
pub(crate) struct Draft {
    pub refine: Option<Expr>,
    pub idle: Option<Expr>,
    pub sections: Items<Section>,
    pub left: Items<Kind>,
    pub next: u32,
}

/// All kinds of sections, where there are so many operations.
fn kinds(alloc: Global, ops: u32) -> Result<Items<Kind>, AllocError>
    ensures { IfOk result (λ all. all ≡ kinds ops) }
{
    let mut all = Items::new(alloc);
    all.push(Kind::Wire)?;
    all.push(Kind::Factory)?;
    all.push(Kind::BootHost)?;
    all.push(Kind::Rest)?;
    all.push(Kind::Wait)?;
    let mut left = ops;
    while left > 0 {
        left -= 1;
        all.push(Kind::Call(left))?;
    }
    Ok(all)
}

/// Is a kind among those that are left?
#[tactic(auto, using(crate::proofs::Taken::left_behind, crate::proofs::Taken::left_here))]
pub(crate) fn is_left(kind: Kind, left: &[Kind]) -> bool
    ensures { result ≡ is_left kind left.now }
{
    let mut rest = left;
    while let Some((other, more)) = rest.split_first() {
        if kind == *other {
            return true;
        }
        rest = more;
    }
    false
}

/// The kinds without this one.
#[tactic(auto, using(crate::proofs::Taken::less_behind, crate::proofs::Taken::less_here))]
fn less(alloc: Global, kind: Kind, left: &[Kind]) -> Result<Items<Kind>, AllocError>
    ensures { IfOk result (λ kept. kept ≡ less kind left.now) }
{
    let mut kept = Items::new(alloc);
    let mut rest = left;
    while let Some((other, more)) = rest.split_first() {
        if kind == *other {
            kept.append(Items::from_slice(alloc, more)?)?;
            return Ok(kept);
        }
        kept.push(*other)?;
        rest = more;
    }
    Ok(kept)
}

/// What is known before the first tree, where there are so many operations.
pub(crate) fn nothing(alloc: Global, ops: usize) -> Result<Draft, AllocError>
    ensures { IfOk result (λ d. d ≡ nothing ops) }
{
    let count = u32::try_from(ops).map_err(|_| AllocError)?;
    let left = kinds(alloc, count)?;
    Ok(Draft {
        refine: None,
        idle: None,
        sections: Items::new(alloc),
        left,
        next: 1,
    })
}

/// The section `wire` with this hint number and a cut of this condition.
fn wire_section(alloc: Global, number: u32, cut: Expr) -> Result<Section, AllocError>
    requires { number + 3 ≤ 4294967295 }
    ensures { IfOk result (λ s. s ≡ wire_section number cut) }
{
    let mut items = Items::new(alloc);
    items.push(Item {
        hint: HintNo(number + 1),
        act: Act::Cut(cut),
    })?;
    items.push(Item {
        hint: HintNo(number + 2),
        act: Act::Step(1),
    })?;
    items.push(Item {
        hint: HintNo(number + 3),
        act: Act::Subsume(HintNo(number + 1)),
    })?;
    Ok(Section {
        hint: HintNo(number),
        kind: Kind::Wire,
        items,
    })
}

/// Adds a section, behind which hints are numbered on from `next`.
fn add_section(
    alloc: Global,
    draft: &mut Draft,
    section: Section,
    next: u32,
) -> Result<(), AllocError>
    ensures { OnOk result (draft.new ≡ with_section draft.old section next) }
{
    draft.left = less(alloc, section.kind, draft.left.as_slice())?;
    draft.sections.push(section)?;
    draft.next = next;
    Ok(())
}

/// Adds a section of the host.
fn add_host(alloc: Global, draft: &mut Draft, kind: Kind) -> Result<(), AllocError>
    ensures { OnOk result (draft.new ≡ with_section draft.old (host_section draft.old.next kind) (draft.old.next + 1)) }
{
    let number = draft.next;
    let next = number.checked_add(1).ok_or(AllocError)?;
    let section = Section {
        hint: HintNo(number),
        kind,
        items: Items::new(alloc),
    };
    add_section(alloc, draft, section, next)
}

/// Adds the section `wire` with a cut of this condition.
fn add_wire(alloc: Global, draft: &mut Draft, cut: Expr) -> Result<(), AllocError>
    ensures { OnOk result (draft.new ≡ with_section draft.old (wire_section draft.old.next cut) (draft.old.next + 4)) }
{
    let number = draft.next;
    let next = number.checked_add(4).ok_or(AllocError)?;
    let section = wire_section(alloc, number, cut)?;
    add_section(alloc, draft, section, next)
}

/// Adds what a tree says.
pub(crate) fn add(alloc: Global, draft: &mut Draft, said: Said) -> Result<(), AllocError>
    ensures { OnOk result (draft.new ≡ add draft.old said) }
{
    match said {
        Said::Refine(condition) => {
            draft.refine = Some(condition);
            Ok(())
        }
        Said::Idle(condition) => {
            draft.idle = Some(condition);
            Ok(())
        }
        Said::Host(kind) => add_host(alloc, draft, kind),
        Said::Wire(cut) => add_wire(alloc, draft, cut),
    }
}

/// A condition that a text has to have, where it ends at a place.
fn needed(end: Place, condition: Option<Expr>) -> Result<Expr, LangFault>
    ensures { Gives result (needed end condition) }
{
    match condition {
        Some(condition) => Ok(condition),
        None => Err(fault(end, LangWhy::Missing)),
    }
}

/// Refuses kinds that are left where a text ends.
fn none_left(end: Place, left: &[Kind]) -> Result<(), LangFault>
    ensures { Gives result (none_left end left.now) }
{
    match left {
        [] => Ok(()),
        [..] => Err(fault(end, LangWhy::Missing)),
    }
}

/// The parts of the script, where the text ends at a place.
pub(crate) fn finished(end: Place, draft: Draft) -> Result<ScriptParts, LangFault>
    ensures { Gives result (finished end draft) }
{
    let Draft {
        refine,
        idle,
        sections,
        left,
        next: _next,
    } = draft;
    let refine = needed(end, refine)?;
    let idle = needed(end, idle)?;
    none_left(end, left.as_slice())?;
    Ok(ScriptParts {
        refine,
        idle,
        sections,
    })
}
