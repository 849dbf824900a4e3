// The lines that the program prints, each appended to a buffer. The public functions take the buffer and the cursor one by one: `Gives` of print_pieces and `Took` of
// print_window, on which the theorems of what is printed stand, name both, and what they say of the buffer is to stay.
#![tactic(auto)]

ghost use Rattle.std.specs.Prelude.{◌+◌, ◌≤◌, length};
ghost use Rattle.print_text.specs.Text.{Appended};
ghost use Rattle.print_text.specs.Cursor.{HasRoom, Puts};
ghost use Rattle.cluster_watched.specs.Watched.{reference_of};
ghost use Rattle.print_run.specs.Printed.{header_line, promise_text, group_text, masks_text, fields, refused_line};

use cluster_watched::Watch;
use print_text::Text;

fn put_promise(text: &mut Text, kept: bool)
    requires { HasRoom text.old 8 }
    ensures { Puts text.old (promise_text kept) text.new }
{
    if kept {
        text.put(b" kept ");
    } else {
        text.put(b" broken ");
    }
}

// The number and the set of the reference group.
fn put_group(text: &mut Text, w: Watch)
    requires { HasRoom text.old 37 }
    ensures { Puts text.old (group_text (reference_of w)) text.new }
{
    match w.group {
        Some(group) => {
            text.put_decimal(u64::from(group.number));
            text.put_byte(b' ');
            text.put_hex(group.set);
        }
        None => text.put(b"- -"),
    }
}

// The last two fields of a line.
fn put_masks(text: &mut Text, halted: u64, entered: u64)
    requires { HasRoom text.old 35 }
    ensures { Puts text.old (masks_text halted entered) text.new }
{
    text.put_byte(b' ');
    text.put_hex(halted);
    text.put_byte(b' ');
    text.put_hex(entered);
    text.put_byte(b'\n');
}

// The line of a cycle.
pub fn put_line(
    out: &mut [u8],
    at: usize,
    cycle: u64,
    kept: bool,
    w: Watch,
    halted: u64,
    entered: u64,
) -> usize
    requires { at + 100 ≤ length out.old }
    ensures { Appended out.old at (fields cycle kept (reference_of w) halted entered) out.new result }
{
    let mut text = Text { out, at };
    text.put_decimal(cycle);
    put_promise(&mut text, kept);
    put_group(&mut text, w);
    put_masks(&mut text, halted, entered);
    text.at
}

// The line of a refusal, and nothing where there is none. A number, since `Refusal` would ask more of callers, and has no value for none.
pub fn put_refusal(out: &mut [u8], at: usize, refusal: u32) -> usize
    requires { at + 29 ≤ length out.old }
    ensures { Appended out.old at (refused_line refusal) out.new result }
{
    if refusal == 0 {
        return at;
    }
    let mut text = Text { out, at };
    text.put(b"refused ");
    text.put_decimal(u64::from(refusal));
    text.put_byte(b'\n');
    text.at
}

pub fn put_header(out: &mut [u8], at: usize) -> usize
    requires { at + 39 ≤ length out.old }
    ensures { Appended out.old at header_line out.new result }
{
    let mut text = Text { out, at };
    text.put(b"cycle promise group set halted entered\n");
    text.at
}
