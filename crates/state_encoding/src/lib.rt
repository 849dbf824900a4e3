// A node's 24-byte image, written.
#![tactic(auto)]

ghost use Rattle.std.specs.Prelude.{◌≡◌};
ghost use Rattle.state.specs.Image.{kind_code, reason_byte, group_bytes, layout, image_of};

use state::{Group, Node, State};

fn image(kind: u8, reason: u8, id: u8, n: u8, g: Group) -> [u8; 24]
    ensures { result ≡ layout kind reason id n g }
{
    let g4 = bigendian::write::<4>(u64::from(g.number));
    let m8 = bigendian::write::<8>(g.set);
    let b8 = bigendian::write::<8>(g.base);
    [
        kind, reason, id, n, g4[0], g4[1], g4[2], g4[3], m8[0], m8[1], m8[2], m8[3], m8[4], m8[5],
        m8[6], m8[7], b8[0], b8[1], b8[2], b8[3], b8[4], b8[5], b8[6], b8[7],
    ]
}

// What an image says of a state: kind, reason and group. Each is one number or struct, so that the bytes are written once, by one way.
pub fn kind_code(s: State) -> u8
    ensures { result ≡ kind_code s }
{
    match s {
        State::Out(_) => 0,
        State::Joining => 1,
        State::Member(_, _) => 2,
    }
}

// Of a member, whether it requests.
pub fn reason_byte(s: State) -> u8
    ensures { result ≡ reason_byte s }
{
    match s {
        State::Out(reason) => u8::from(reason),
        State::Joining => 0,
        State::Member(_, asks) => u8::from(asks),
    }
}

// Zeros where none is held.
pub fn group_held(s: State) -> Group
    ensures { result ≡ group_bytes s }
{
    match s {
        State::Out(_) | State::Joining => Group::default(),
        State::Member(group, _) => group,
    }
}

// The image of a node.
pub fn encode(n: Node) -> [u8; 24]
    ensures { result ≡ image_of n }
{
    let s = n.state;
    image(kind_code(s), reason_byte(s), n.id, n.nodes, group_held(s))
}
