//! Laws of the meaning.
ghost use Rattle.std.specs.Prelude.{◌≡◌, ◌≤◌, ℕ, List, ◌++◌, length};
ghost use Rattle.knox_words.specs.Bits.{Bits};
ghost use Rattle.circuit_nodes.specs.declared.node.Node.{Node};
ghost use Rattle.circuit_nodes.specs.Values.{given, value_at};

use crate::node::Node;

/// The values of nodes hang on the nodes before them alone: whatever stands behind them, they are
/// the same.
#[tactic(auto, using(crate::proofs::ValuesLemmas::append_steps))]
pub fn values_hang_on_earlier_places(nodes: &[Node])
    ensures { (inputs state : List Bits) (more : List Node) (i k : ℕ) → i ≤ length nodes.now → value_at (given inputs state) (nodes.now ++ more) i k ≡ value_at (given inputs state) nodes.now i k }
{
    let _nodes = nodes;
}
