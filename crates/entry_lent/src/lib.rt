// The numbers, buffers and states that a C host passes: how they are refused, as definitions, tests of the numbers, and the node of a lent state.
#![tactic(auto)]

ghost use Rattle.std.specs.Prelude.{◌≡◌, cond, ◌||◌, eqb};
ghost use Rattle.refusal.specs.Codes.{status_of};
ghost use Rattle.entry_lent.specs.Refusals.{wrong_count, wrong_node, wrong_cycle, wrong_channel, wrong_indicators};
ghost use Rattle.entry_lent.specs.Found.{lent_node, lent_state};

use refusal::Refusal;
use state::Node;

// Refusal 1.
#[tactic(auto, unfolding(crate::specs::Refusals::wrong_count))]
pub fn check_count(n: u32) -> Result<(), Refusal>
    ensures { status_of result ≡ cond (wrong_count n) 1 0 }
{
    match n {
        2..=64 => Ok(()),
        _ => Err(Refusal::NodeCount),
    }
}

// Refusal 2, of a cycle count and a channel.
pub fn check_cycle(cycle: u32, channel: u32) -> Result<(), Refusal>
    ensures { status_of result ≡ cond (wrong_cycle cycle || wrong_channel channel) 2 0 }
{
    if 63 < cycle || 1 < channel {
        return Err(Refusal::Number);
    }
    Ok(())
}

// Refusal 2, of a node, a cycle count and a channel.
pub fn check_slot(n: u32, node: u32, cycle: u32, channel: u32) -> Result<(), Refusal>
    ensures { status_of result ≡ cond (wrong_node n node || wrong_cycle cycle || wrong_channel channel) 2 0 }
{
    if n <= node {
        return Err(Refusal::Number);
    }
    check_cycle(cycle, channel)
}

// Refusal 2, of indicators to be written.
#[tactic(auto, unfolding(crate::specs::Refusals::wrong_indicators))]
pub fn check_indicators(sync: u32, startup: u32) -> Result<(), Refusal>
    ensures { status_of result ≡ cond (wrong_indicators sync startup) 2 0 }
{
    if 1 < sync || 1 < startup || sync < startup {
        return Err(Refusal::Number);
    }
    Ok(())
}

// Refusal 3, of a buffer of `given` bytes where `due` are.
pub fn check_length(given: usize, due: usize) -> Result<(), Refusal>
    ensures { status_of result ≡ cond (eqb given due) 0 3 }
{
    if given != due {
        return Err(Refusal::Length);
    }
    Ok(())
}

// The node of a call that is lent a state alone.
#[tactic(auto, unfolding(crate::specs::Found::lent_state))]
pub fn lent_state(mode: u32, state: &[u8]) -> Result<Node, Refusal>
    ensures { result ≡ lent_state mode state.now }
{
    state_decoding::decode(rule_steps::check_mode(mode)?, state)
}

// The node of a call in a quiet press or not, whose numbers are `wrong` or not, and that is lent `given` bytes where `due` are.
#[tactic(auto, unfolding(crate::specs::Found::lent_node))]
pub fn lent_node(
    quiet: bool,
    wrong: bool,
    state: &[u8],
    given: usize,
    due: usize,
) -> Result<Node, Refusal>
    ensures { result ≡ lent_node quiet wrong state.now given due }
{
    if wrong {
        return Err(Refusal::Number);
    }
    check_length(given, due)?;
    state_decoding::decode(quiet, state)
}
