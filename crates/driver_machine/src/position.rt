//! Where in a body a driver is.
ghost use Rattle.std.specs.Prelude.{◌≡◌, ◌≤◌, ◌<◌, ◌+◌, ◌-◌, ◌++◌, ◌^◌, nat_lt, [], ◌∷◌, length, slice_get, Some, IfOk, OnOk, OnErr, List, if◌then◌else◌};
ghost use Rattle.knox_lang.specs.declared.expr.Stmt.{Stmt};
ghost use Rattle.driver_machine.specs.Place.{top, bumped, entered, inner_of};

use knox_lang::Stmt;
use knox_words::Words;
use sqlite_items::Items;
use std::alloc::{AllocError, Global};

/// How a list of statements stands in the statement round it.
#[derive(Clone, Copy, Debug, PartialEq, Eq)]
pub enum Way {
    Then,
    Else,
    /// The turn that is being done, from 0.
    Turn(u32),
    /// How many turns may follow this one.
    While(u32),
}

/// How many statements of an outer list are begun, and the way into the last of them.
#[derive(Clone, Copy, Debug, PartialEq, Eq)]
pub struct Frame {
    pub way: Way,
    pub place: usize,
}

/// How many statements of the list that is being done are begun, and the lists round it from the
/// body on.
#[derive(Drop)]
pub struct Position {
    pub place: usize,
    pub frames: Items<Frame>,
}

/// The list in a statement, with its bound variables.
fn list_in<'a>(way: Way, s: &'a Stmt, bound: &mut Words) -> Result<&'a [Stmt], AllocError>
    ensures list { IfOk result (λ r. r.now ≡ (inner_of way (Some s.now) bound.old).list) }
    ensures bound { OnOk result (bound.new ≡ (inner_of way (Some s.now) bound.old).bound) }
{
    match (way, s) {
        (Way::Then, Stmt::If(_, list, _)) => Ok(list.as_slice()),
        (Way::Else, Stmt::If(_, _, list)) => Ok(list.as_slice()),
        (Way::Turn(k), Stmt::For(width, n, body)) => {
            bound.push(knox_words::word_or(*width, u128::from(k)))?;
            if k < *n { Ok(body.as_slice()) } else { Ok(&[]) }
        }
        (Way::While(_), Stmt::While(_, _, body)) => Ok(body.as_slice()),
        _ => Ok(&[]),
    }
}

/// The list that a frame leads to.
fn list_below<'a>(f: Frame, ss: &'a [Stmt], bound: &mut Words) -> Result<&'a [Stmt], AllocError>
    ensures list { IfOk result (λ r. r.now ≡ (inner_of f.way (slice_get ss.now (f.place - 1)) bound.old).list) }
    ensures bound { OnOk result (bound.new ≡ (inner_of f.way (slice_get ss.now (f.place - 1)) bound.old).bound) }
{
    match sqlite_items::at(ss, f.place.saturating_sub(1)) {
        Some(s) => list_in(f.way, s, bound),
        None => Ok(&[]),
    }
}

/// The list that is being done, with its bound variables.
pub fn current<'a>(
    ss: &'a [Stmt],
    frames: &[Frame],
    bound: &mut Words,
) -> Result<&'a [Stmt], AllocError>
    ensures list { IfOk result (λ r. r.now ≡ (top ss.now bound.old frames.now).list) }
    ensures bound { OnOk result (bound.new ≡ (top ss.now bound.old frames.now).bound) }
{
    let mut list = ss;
    for f in frames {
        list = list_below(*f, list, bound)?;
    }
    Ok(list)
}

impl Position {
    /// The start of a body.
    pub fn start(alloc: Global) -> Position
        ensures { result ≡ record { place = 0; frames = [] } }
    {
        Position {
            place: 0,
            frames: Items::new(alloc),
        }
    }

    /// The same position.
    pub fn copy(&self, alloc: Global) -> Result<Position, AllocError>
        ensures { IfOk result (λ p. p ≡ self.now) }
    {
        let frames = Items::from_slice(alloc, self.frames.as_slice())?;
        Ok(Position {
            place: self.place,
            frames,
        })
    }

    /// Begins the next statement.
    pub fn bump(&mut self)
        requires { self.old.place < 2 ^ 63 }
        ensures { self.new ≡ bumped self.old }
    {
        self.place += 1;
    }

    /// Begins a list in the statement that was begun last.
    pub fn enter(&mut self, way: Way) -> Result<(), AllocError>
        ensures ok { OnOk result (self.new ≡ entered self.old way) }
        ensures err { OnErr result (self.new ≡ self.old) }
    {
        let place = self.place;
        self.frames.push(Frame { way, place })?;
        self.place = 0;
        Ok(())
    }
}
