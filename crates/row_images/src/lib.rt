// The row as C lends it: N images of 24 bytes, one after the other, read to values and written from them. And what it has in common with one of node structs.
#![tactic(auto)]

ghost use Rattle.std.specs.Prelude.{◌≡◌, ◌*◌, ◌+◌, ◌<◌, ◌≤◌, List, length};
ghost use Rattle.state.specs.declared.Node.{Node};
ghost use Rattle.cluster_states.specs.States.{row_of};
ghost use Rattle.row.specs.Row.{nodes_of};
ghost use Rattle.row.specs.Gathered.{nothing_of, gathered};
ghost use Rattle.row_images.specs.Images.{node_in, entries_in, nodes_in, images_of};

use cluster_states::States;
use state::Node;

// The node of image q, in one mode or the other; that of no place where the image is not well formed.
fn node_in(images: &[u8], q: usize) -> Node
    requires { 24 * q + 24 ≤ length images.now }
    ensures { result ≡ node_in images.now q }
{
    let at = 24 * q;
    let end = at + 24;
    state_decoding::decode(true, &images[at..end]).unwrap_or(row::NOBODY)
}

// How many images there are; none where the bytes are no whole number of them.
pub fn entries(images: &[u8]) -> usize
    ensures { result ≡ entries_in images.now }
{
    if images.len() % 24 == 0 {
        images.len() / 24
    } else {
        0
    }
}

// The row as values, if each image is that of the node of its place.
pub fn gather(n: u8, images: &[u8]) -> Option<States>
    ensures { result ≡ gathered n nothing_of 0 (nodes_in images.now) }
{
    row::gather(n, entries(images), |q| node_in(images, q))
}

// The values as a row of n images.
pub fn scatter(n: u8, states: &States, images: &mut [u8])
    requires { (n ≤ 64) × (length images.old ≡ 24 * n) }
    ensures { images.new ≡ images_of (nodes_of n (row_of n states.now)) }
{
    // by place: after `chunks_exact_mut` a proof knows nothing of the bytes
    for q in 0..usize::from(n) {
        let x = row::node_of(n, states, q);
        parts::put(images, 24 * q, &state_encoding::encode(x));
    }
}

// What a row is lent as: a slice of node structs, or of the bytes of their images. `nodes` are the entries of a row, and `lent` is the row of some entries.
pub trait Lent: Copy {
    ghost nodes: { List Self → List Node };

    ghost lent: { List Node → List Self };

    // How many entries there are.
    fn entries(row: &[Self]) -> usize
        ensures { result ≡ length (nodes row.now) };

    // The states of the entries, if each is the node of its place.
    fn gather(n: u8, row: &[Self]) -> Option<States>
        ensures { result ≡ gathered n nothing_of 0 (nodes row.now) };

    // The states put in as a row of n entries.
    fn scatter(n: u8, states: &States, row: &mut [Self])
        requires { (0 < n) × (n ≤ 64) × (length (nodes row.old) ≡ n) }
        ensures { row.new ≡ lent (nodes_of n (row_of n states.now)) };
}

impl Lent for Node {
    ghost nodes = { λ row. row };

    ghost lent = { λ row. row };

    fn entries(row: &[Node]) -> usize {
        row.len()
    }

    fn gather(n: u8, row: &[Node]) -> Option<States> {
        row_nodes::gather(n, row)
    }

    fn scatter(n: u8, states: &States, row: &mut [Node]) {
        row_nodes::scatter(n, states, row);
    }
}

impl Lent for u8 {
    ghost nodes = { nodes_in };

    ghost lent = { images_of };

    fn entries(row: &[u8]) -> usize {
        entries(row)
    }

    fn gather(n: u8, row: &[u8]) -> Option<States> {
        gather(n, row)
    }

    fn scatter(n: u8, states: &States, row: &mut [u8]) {
        scatter(n, states, row);
    }
}
