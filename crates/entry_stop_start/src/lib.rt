// Rule 1 on a state: stop and start.
#![tactic(auto)]

ghost use Rattle.std.specs.Prelude.{◌≡◌};
ghost use Rattle.refusal.specs.Codes.{status_of};
ghost use Rattle.entry_lent.specs.Found.{lent_state, image_status};
ghost use Rattle.entry_stop_start.specs.StopStart.{rule_one_of, stop_left, start_left};

use refusal::Refusal;
use state::Node;

// Rule 1 on the node whose image is lent.
#[tactic(auto, unfolding(entry_lent::specs::Found::image_status))]
fn rule_one(mode: u32, stop: bool, start: bool, state: &mut [u8]) -> Result<(), Refusal>
    ensures value { status_of result ≡ image_status mode state.old }
    ensures state_after { state.new ≡ rule_one_of stop start (lent_state mode state.old) state.old }
{
    let n = entry_lent::lent_state(mode, state)?;
    let image = state_encoding::encode(Node {
        state: rule_steps::stop_and_start(stop, start, n.state),
        ..n
    });
    parts::copy(&image, state);
    Ok(())
}

// Rule 1, stop.
#[tactic(auto, unfolding(crate::specs::StopStart::stop_left))]
pub fn stop(mode: u32, state: &mut [u8]) -> Result<(), Refusal>
    ensures value { status_of result ≡ image_status mode state.old }
    ensures state_after { state.new ≡ stop_left mode state.old }
{
    rule_one(mode, true, false, state)
}

// Rule 1, start.
#[tactic(auto, unfolding(crate::specs::StopStart::start_left))]
pub fn start(mode: u32, state: &mut [u8]) -> Result<(), Refusal>
    ensures value { status_of result ≡ image_status mode state.old }
    ensures state_after { state.new ≡ start_left mode state.old }
{
    rule_one(mode, false, true, state)
}
