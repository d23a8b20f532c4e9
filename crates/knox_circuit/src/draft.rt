//! A circuit in the making.
ghost use Rattle.std.specs.Prelude.{◌≡◌, ◌≢◌, ◌<◌, ◌++◌, [], ◌∷◌, length, slice_get, Some, None, Ok, Err, IfOk, IfErr, OnOk, OnErr};
ghost use Rattle.std.specs.Option.{option_map};
ghost use Rattle.circuit_table.specs.Rows.{rows_of, added, AreRuled};
ghost use Rattle.knox_circuit.specs.Circuit.{Circuit, unfed};

use crate::circuit::Circuit;
use circuit_table::{BtorFault, Line, Table, Why};
use sqlite_items::Items;
use std::alloc::Global;
use std::marker::Model;

/// The lines of a circuit so far, each resolved. Each breaks no rule after those before it.
pub struct Draft {
    alloc: Global,
    lines: Items<Line>,
    table: Table,
}

impl Drop for Draft {
    fn drop(self) {
        let Draft {
            alloc: _alloc,
            lines: _lines,
            table: _table,
        } = self;
    }
}

impl Model for Draft {
    ghost use Rattle.std.specs.Prelude.{◌≡◌, [], Ok};
    ghost use Rattle.circuit_table.specs.Rows.{rows_after};
    ghost use Rattle.knox_circuit.specs.Circuit.{Circuit};

    ghost Value = { Circuit };

    ghost view = { λ d. record { lines = d.lines } };

    ghost invariant = { λ d. rows_after [] d.lines ≡ Ok d.table };
}

impl Draft {
    /// A draft without lines.
    pub fn new(alloc: Global) -> Draft
        ensures { result.lines ≡ [] }
    {
        Draft {
            alloc,
            lines: Items::new(alloc),
            table: Table::new(alloc),
        }
    }

    /// Adds a line that breaks no rule after the lines so far. A refused line leaves the draft as it
    /// was; the first rule that it breaks is told.
    #[tactic(auto, using(crate::proofs::RowsLemmas::draft_steps))]
    pub fn add(&mut self, line: Line) -> Result<(), Why>
        ensures ok { OnOk result (self.new.lines ≡ self.old.lines ++ line ∷ []) }
        ensures accepted { OnOk result (added (rows_of self.old.lines) line ≡ Ok (rows_of self.new.lines)) }
        ensures err { OnErr result (self.new ≡ self.old) }
        ensures refused { IfErr result (λ why. why ≢ Why.Memory → added (rows_of self.old.lines) line ≡ Err why) }
    {
        let at = self.lines.len();
        self.lines.push(line)?;
        match self.table.add(&self.lines.as_slice()[at]) {
            Ok(()) => Ok(()),
            Err(why) => {
                self.lines.pop();
                Err(why)
            }
        }
    }

    /// The circuit of the lines. Refused with `Next` at the first line that breaks the rule of a
    /// whole circuit: a state with an `init` and without a `next`, or an `output`, `next` or `bad`
    /// line that hangs on a state without a `next`.
    #[tactic(auto, using(crate::proofs::RowsLemmas::fed_steps))]
    pub fn finish(self) -> Result<Circuit, BtorFault>
        ensures ok { IfOk result (λ c. c.lines ≡ self.lines) }
        ensures fed { IfOk result (λ c. unfed self.lines ≡ None) }
        ensures refused { IfErr result (λ fault. fault.why ≢ Why.Memory → (fault.why ≡ Why.Next) × (option_map (λ l. l.at) (unfed self.lines) ≡ Some fault.line)) }
    {
        let Draft {
            alloc,
            lines,
            table,
        } = self;
        match circuit_table::unfed(alloc, table.as_slice())? {
            None => Ok(Circuit::of(alloc, lines, &table)?),
            Some(at) => Err(BtorFault {
                line: text_line(lines.as_slice(), at),
                why: Why::Next,
            }),
        }
    }
}

/// The text line of the line at a place.
fn text_line(lines: &[Line], at: usize) -> u32
    requires { at < length lines.now }
    ensures { option_map (λ l. l.at) (slice_get lines.now at) ≡ Some result }
{
    lines[at].at
}

/// The lines of a draft break no rule, each after those before it.
#[tactic(auto, using(crate::proofs::RowsLemmas::draft_steps))]
pub fn drafts_obey_the_rules(d: &Draft)
    ensures { AreRuled d.now.lines }
{
    let _table = &d.table;
}
