// A state taken apart into its numbers.
#![tactic(auto)]

ghost use Rattle.std.specs.Prelude.{◌≡◌};
ghost use Rattle.refusal.specs.Codes.{status_of};
ghost use Rattle.entry_lent.specs.Found.{image_status};
ghost use Rattle.entry_state.specs.Apart.{kind_left, reason_left, node_left, count_left, number_left, set_left, base_left};

use refusal::Refusal;

// The numbers of a state: those of its image. Each has a reference of its own, as the C interface has it.
#[tactic(auto, unfolding(entry_lent::specs::Found::image_status, crate::specs::Apart::kind_left, crate::specs::Apart::reason_left, crate::specs::Apart::node_left, crate::specs::Apart::count_left, crate::specs::Apart::number_left, crate::specs::Apart::set_left, crate::specs::Apart::base_left))]
pub fn read(
    mode: u32,
    state: &[u8],
    kind: &mut u32,
    reason: &mut u32,
    node: &mut u32,
    n: &mut u32,
    number: &mut u32,
    set: &mut u64,
    base: &mut u64,
) -> Result<(), Refusal>
    ensures value { status_of result ≡ image_status mode state.now }
    ensures kind_after { kind.new ≡ kind_left mode state.now kind.old }
    ensures reason_after { reason.new ≡ reason_left mode state.now reason.old }
    ensures node_after { node.new ≡ node_left mode state.now node.old }
    ensures n_after { n.new ≡ count_left mode state.now n.old }
    ensures number_after { number.new ≡ number_left mode state.now number.old }
    ensures set_after { set.new ≡ set_left mode state.now set.old }
    ensures base_after { base.new ≡ base_left mode state.now base.old }
{
    let found = entry_lent::lent_state(mode, state)?;
    let held = found.state;
    let group = state_encoding::group_held(held);
    *kind = u32::from(state_encoding::kind_code(held));
    *reason = u32::from(state_encoding::reason_byte(held));
    *node = u32::from(found.id);
    *n = u32::from(found.nodes);
    *number = group.number;
    *set = group.set;
    *base = group.base;
    Ok(())
}
