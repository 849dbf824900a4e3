// The row of node structs that a caller lends, gathered into values and scattered back.
#![tactic(auto)]

ghost use Rattle.std.specs.Prelude.{◌≡◌};
ghost use Rattle.row.specs.Gathered.{nothing_of, gathered, node_of, each};

use cluster_states::States;
use state::Node;

// What a row holds, if each entry is the node of its place.
pub fn gather(n: u8, row: &[Node]) -> Option<States>
    ensures { result ≡ gathered n nothing_of 0 row.now }
{
    row::gather(n, row.len(), |q| row[q])
}

// The row of the states; what stands past the last place stays.
pub fn scatter(n: u8, states: &States, row: &mut [Node])
    ensures { row.new ≡ each (node_of n states.now) 0 row.old }
{
    for q in 0..row.len().min(64) {
        row[q] = row::node_of(n, states, q);
    }
}
