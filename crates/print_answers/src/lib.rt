// The text that answers each of what a program's arguments ask for, and what it tells of a failure.
#![tactic(auto)]

ghost use Rattle.std.specs.Prelude.{◌++◌, ◌+◌, ◌≤◌, length};
ghost use Rattle.print_text.specs.Text.{Appended};
ghost use Rattle.print_text.specs.Cursor.{HasRoom, Puts};
ghost use Rattle.print_answers.specs.Answers.{name_of, usage_line, hint_line, mode_text, about_text, options_text, refusals_text, help_text, answer_text, failure_line};

use print_options::{Asked, Program};
use print_text::Text;

// What failed: a read, or a write.
#[derive(Clone, Copy)]
pub enum Failed {
    Read,
    Write,
}

fn put_name(text: &mut Text, p: Program)
    requires { HasRoom text.old 8 }
    ensures { Puts text.old (name_of p) text.new }
{
    match p {
        Program::Group => text.put(b"grouprun"),
        Program::Quiet => text.put(b"quietrun"),
    }
}

// The name, with words before it and after it.
fn put_named(text: &mut Text, before: &[u8], p: Program, after: &[u8])
    requires { HasRoom text.old (length before.now + (8 + length after.now)) }
    ensures { Puts text.old (before.now ++ (name_of p ++ after.now)) text.new }
{
    text.put(before);
    put_name(text, p);
    text.put(after);
}

fn put_usage(text: &mut Text, p: Program)
    requires { HasRoom text.old 76 }
    ensures { Puts text.old (usage_line p) text.new }
{
    put_named(
        text,
        b"usage: ",
        p,
        b" [--help | --version] <press.tab (a table on standard input)\n",
    )
}

fn put_hint(text: &mut Text, p: Program)
    requires { HasRoom text.old 90 }
    ensures { Puts text.old (hint_line p) text.new }
{
    put_name(text, p);
    put_named(
        text,
        b": a table is expected on standard input, which is a terminal; see ",
        p,
        b" --help\n",
    )
}

fn put_mode(text: &mut Text, p: Program)
    requires { HasRoom text.old 140 }
    ensures { Puts text.old (mode_text p) text.new }
{
    match p {
        Program::Group => {}
        Program::Quiet => text.put(
            b"The press is in mode 1: votes rest while nothing happens. In mode 0, of which\n\
            grouprun(1) prints the run, each member votes in every cycle.\n",
        ),
    }
}

fn put_about(text: &mut Text, p: Program)
    requires { HasRoom text.old 294 }
    ensures { Puts text.old (about_text p) text.new }
{
    text.put(
        b"\n\
        Reads a fault table from standard input and prints its run: for each cycle\n\
        whether the promise is kept, the group of record, who halted and who entered.\n",
    );
    put_mode(text, p);
}

fn put_options(text: &mut Text, p: Program)
    requires { HasRoom text.old 226 }
    ensures { Puts text.old (options_text p) text.new }
{
    put_named(
        text,
        b"\n\
        \t--help     print this text, and read no table\n\
        \t--version  print the version, and read no table\n\
        \n\
        A table is bytes; tabletext makes one from a text:\n\
        \ttabletext table <press.txt >press.tab && ",
        p,
        b" <press.tab\n",
    )
}

fn put_refusals(text: &mut Text, p: Program)
    requires { HasRoom text.old 320 }
    ensures { Puts text.old (refusals_text p) text.new }
{
    put_named(
        text,
        b"Input that is no table ends in a line 'refused' with a number. The byte where\n\
        the refused record begins, and what is wrong with it, are told by\n\
        \ttabletext text <press.tab\n\
        The exit status does not tell: look for 'refused', and at standard error.\n\
        The manual page is ",
        p,
        b"(1); see also tabletext(1).\n",
    )
}

fn put_help(text: &mut Text, p: Program)
    requires { HasRoom text.old 1024 }
    ensures { Puts text.old (help_text p) text.new }
{
    put_usage(text, p);
    put_about(text, p);
    put_options(text, p);
    put_refusals(text, p);
}

// The text that answers what is asked for.
fn put_asked(text: &mut Text, p: Program, a: Asked)
    requires { HasRoom text.old 1024 }
    ensures { Puts text.old (answer_text p a) text.new }
{
    match a {
        Asked::Run => put_hint(text, p),
        Asked::Help => put_help(text, p),
        Asked::Version => put_named(text, b"", p, b" 0.4.0\n"),
        Asked::Wrong => put_usage(text, p),
    }
}

// The buffer and the cursor one by one, as in print_lines.
pub fn put_answer(out: &mut [u8], at: usize, p: Program, a: Asked) -> usize
    requires { at + 1024 ≤ length out.old }
    ensures { Appended out.old at (answer_text p a) out.new result }
{
    let mut text = Text { out, at };
    put_asked(&mut text, p, a);
    text.at
}

// The line that tells of a failure.
fn put_failed(text: &mut Text, p: Program, f: Failed)
    requires { HasRoom text.old 43 }
    ensures { Puts text.old (failure_line p f) text.new }
{
    match f {
        Failed::Read => put_named(text, b"", p, b": the input could not be read\n"),
        Failed::Write => put_named(text, b"", p, b": the output could not be written\n"),
    }
}

// The buffer and the cursor one by one, as in print_lines.
pub fn put_failure(out: &mut [u8], at: usize, p: Program, f: Failed) -> usize
    requires { at + 43 ≤ length out.old }
    ensures { Appended out.old at (failure_line p f) out.new result }
{
    let mut text = Text { out, at };
    put_failed(&mut text, p, f);
    text.at
}
