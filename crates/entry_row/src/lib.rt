// Calls on the row as C lends it.
#![tactic(auto)]

ghost use Rattle.std.specs.Prelude.{◌≡◌, length};
ghost use Rattle.refusal.specs.Codes.{status_of};
ghost use Rattle.entry_row.specs.OnImages.{lent_status, lent_left, lent_frames, images_status, images_left};

use refusal::Refusal;
use row_calls::Task;

// A call on a row of images that is lent a buffer for frames. One that is refused leaves both as they are.
pub fn call_with(
    task: Task,
    n: u32,
    mode: u32,
    images: &mut [u8],
    bytes: &[u8],
    frames: &mut [u8],
) -> Result<(), Refusal>
    ensures value { status_of result ≡ lent_status task n mode images.old (length frames.old) bytes.now }
    ensures images_after { images.new ≡ lent_left task n mode images.old (length frames.old) bytes.now }
    ensures frames_after { frames.new ≡ lent_frames task mode images.old bytes.now frames.old }
{
    row_press::call_with(task, n, mode, images, bytes, frames)
}

// One that is lent none.
pub fn call(task: Task, n: u32, mode: u32, images: &mut [u8], bytes: &[u8]) -> Result<(), Refusal>
    ensures value { status_of result ≡ images_status task n mode images.old bytes.now }
    ensures images_after { images.new ≡ images_left task n mode images.old bytes.now }
{
    call_with(task, n, mode, images, bytes, &mut [])
}
