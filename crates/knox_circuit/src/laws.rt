//! A law of circuits, as a function that changes nothing.
ghost use Rattle.std.specs.Prelude.{◌≡◌, None};
ghost use Rattle.circuit_table.specs.Rows.{AreRuled};
ghost use Rattle.knox_circuit.specs.Circuit.{unfed};

use crate::circuit;
use crate::circuit::Circuit;

/// The lines of a circuit break no rule, each after those before it, and together they obey the rule
/// of a whole circuit.
pub fn circuits_obey_the_rules(c: &Circuit)
    ensures ruled { AreRuled c.now.lines }
    ensures fed { unfed c.now.lines ≡ None }
{
    circuit::ruled(c);
    circuit::fed(c);
}
