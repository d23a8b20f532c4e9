//! What holds of the definition of circuits.
ghost use Rattle.std.specs.Prelude.{◌≡◌, ◌⊎◌, ℕ, List};
ghost use Rattle.circuit_table.specs.declared.fault.BtorFault.{BtorFault};
ghost use Rattle.knox_circuit.specs.Circuit.{Circuit};
ghost use Rattle.btor_read.specs.Meaning.{IsCircuit, FaultsAt};

/// A text means one circuit or has one first fault, and never both.
pub fn circuits_have_one_meaning()
    ensures some { (text : List ℕ) → ((c : Circuit) × IsCircuit text c) ⊎ ((f : BtorFault) × FaultsAt text f) }
    ensures one { (text : List ℕ) (a b : Circuit) → IsCircuit text a → IsCircuit text b → a ≡ b }
    ensures first { (text : List ℕ) (f g : BtorFault) → FaultsAt text f → FaultsAt text g → f ≡ g }
    ensures never_both { (text : List ℕ) (c : Circuit) (f : BtorFault) → IsCircuit text c → FaultsAt text f → ⊥ }
{}
