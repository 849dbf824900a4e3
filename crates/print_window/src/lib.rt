// What a program has read of its input and not yet used, and what a stream of records gives of it, in chunks of any size.
#![tactic(auto)]

ghost use Rattle.std.specs.Prelude.{◌≡◌, ◌+◌, ◌-◌, ◌≤◌, length, take, drop};
ghost use Rattle.parts.specs.Parts.{with_part};

// Moves the bytes of the window that are not used, those from `at` to `have`, to its front, and answers how many they are.
pub fn keep(window: &mut [u8], at: usize, have: usize) -> usize
    requires { (at ≤ have) × (have ≤ length window.old) }
    ensures value { result ≡ have - at }
    ensures window_after { window.new ≡ with_part 0 (take result (drop at window.old)) window.old }
{
    window.copy_within(at..have, 0);
    have - at
}
