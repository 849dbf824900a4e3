// Calls on a row that a caller lends, as node structs or as the bytes of their images.
#![tactic(auto)]

ghost use Rattle.std.specs.Prelude.{◌≡◌, length};
ghost use Rattle.refusal.specs.Refusal.{unless};
ghost use Rattle.refusal.specs.Codes.{status_of};
ghost use Rattle.bus_units.specs.Run.{frames_length};
ghost use Rattle.row_calls.specs.Calls.{call_status, call_left, call_frames};

use refusal::Refusal;
use row_calls::Task;
use row_images::Lent;
use run_answer::FRAMES;
use state::Node;

// A call on a row that is lent a buffer for frames. One that is refused leaves both as they are.
pub fn call_with<L: Lent>(
    task: Task,
    n: u32,
    mode: u32,
    row: &mut [L],
    bytes: &[u8],
    frames: &mut [u8],
) -> Result<(), Refusal>
    ensures value { status_of result ≡ call_status task n mode (L.nodes row.old) (length frames.old) bytes.now }
    ensures row_after { row.new ≡ unless (call_status task n mode (L.nodes row.old) (length frames.old) bytes.now) (L.lent (call_left task n mode (L.nodes row.old) (length frames.old) bytes.now)) row.old }
    ensures frames_after { frames.new ≡ call_frames task mode (length (L.nodes row.old)) bytes.now frames.old }
{
    let count = L::entries(row);
    let gathered = L::gather(run_answer::count_byte(n), row);
    let left = run_answer::answer(task, n, mode, count, gathered, bytes, frames)?;
    L::scatter(left.nodes, &left.states, row);
    Ok(())
}

// A call on a row of node structs: a refusal with the row as it was, or not. The frames of a run through frames are kept by nobody.
#[tactic(auto, using(crate::proofs::Meaning::left_is))]
pub fn call(task: Task, n: u32, mode: u32, row: &mut [Node], bytes: &[u8]) -> Result<(), Refusal>
    ensures value { status_of result ≡ call_status task n mode row.old frames_length bytes.now }
    ensures row_after { row.new ≡ call_left task n mode row.old frames_length bytes.now }
{
    call_with(task, n, mode, row, bytes, &mut [0u8; FRAMES])
}
