// The nodes of a counted list.
ghost use Rattle.std.specs.Prelude.{◌≡◌, ◌≤◌};
ghost use Rattle.sizing.specs.NodeSizes.{node_sizes};

use crate::Size;
use crate::sums::nothing;

// So many nodes, with so many inputs in all.
pub fn nodes_size(nodes: u64, inputs: u64) -> Size
    requires { (nodes ≤ 32768) × (inputs ≤ 65536) }
    ensures { result ≡ node_sizes nodes inputs }
{
    Size {
        variables: nodes,
        clauses: inputs + nodes,
        words: 3 * inputs + nodes,
        ..nothing()
    }
}
