// The entry that puts a node at the beginning.
#![tactic(auto)]

ghost use Rattle.std.specs.Prelude.{◌≡◌, ◌<◌};
ghost use Rattle.refusal.specs.Codes.{status_of};
ghost use Rattle.state.specs.State.{initial as the_initial};
ghost use Rattle.entry_begin.specs.Begin.{begin_status, begin_left};

use entry_lent::{check_count, check_length};
use refusal::Refusal;
use state::{Group, Node, Reason, State};

// The numbers and the buffer, in the order of the refusals. A table's founding set is looked at in `table_first`, by the same two tests: what they share is one line.
#[tactic(auto, unfolding(crate::specs::Begin::begin_status, refusal::specs::Refusal::first, entry_lent::specs::Refusals::wrong_founding))]
fn check(n: u32, node: u32, founding: u64, state: &[u8]) -> Result<(), Refusal>
    ensures { status_of result ≡ begin_status n node founding state.now }
{
    check_count(n)?;
    if n <= node {
        return Err(Refusal::Number);
    }
    check_length(state.len(), 24)?;
    if founding == 0 || sets::below(n as usize, founding) != founding {
        return Err(Refusal::Limit);
    }
    Ok(())
}

// What a node is at the beginning.
fn initial(founding: u64, node: usize) -> State
    requires { node < 64 }
    ensures { result ≡ the_initial 0 founding node }
{
    if sets::contains(founding, node) {
        let group = Group {
            number: 0,
            set: founding,
            base: founding,
        };
        State::Member(group, false)
    } else {
        State::Out(Reason::Stopped)
    }
}

// Puts a node at the beginning.
pub fn begin(n: u32, node: u32, founding: u64, state: &mut [u8]) -> Result<(), Refusal>
    ensures value { status_of result ≡ begin_status n node founding state.old }
    ensures state_after { state.new ≡ begin_left n node founding state.old }
{
    check(n, node, founding, state)?;
    let image = state_encoding::encode(Node {
        state: initial(founding, node as usize),
        id: node as u8,
        nodes: n as u8,
    });
    parts::copy(&image, state);
    Ok(())
}
