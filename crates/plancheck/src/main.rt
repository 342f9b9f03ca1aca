// Reads a plan on standard input and prints one line: `ok 425 4` (N_I, and how many subcarriers are scattered at phase 0), or
// `refused 14 835` (number, place). Where a read of the first 65,536 bytes fails, or the line cannot be written, standard error is told.
// A longer input than any plan is read on, up to 64 MiB, so that its writer can finish.
#![tactic(auto)]

ghost use Rattle.std.specs.Prelude.{◌≡◌, take, IsTrue, IfSome};
ghost use Rattle.std.specs.Io.KnownBytes.{Appends};
ghost use Rattle.report.specs.PlanLine.{plan_line};

use console::Streams;
use std::io::{Read, Write};

// Prints the line of a plan; false where it was not written.
fn print_plan<I, O: Write, E: Write>(streams: &mut Streams<I, O, E>, plan: &[u8]) -> bool
    ensures { IsTrue result → Appends (O.contents streams.old.output) (O.contents streams.new.output) (plan_line plan.now) }
{
    let line = report::plan_line(plan);
    let text = line.text;
    let len = line.len;
    console::print(streams, b"plancheck", &text[..len])
}

// Reads on after so many bytes, if they were all that is taken.
fn read_rest<I: Read, O, E>(streams: &mut Streams<I, O, E>, n: usize, space: &mut [u8])
    ensures { streams.new.output ≡ streams.old.output }
{
    if n == 65536 {
        console::read_on(streams, space);
    }
}

// Reads a plan and prints its line; false where it was not read or not written. The line is that of the first 65,536 bytes of the input.
fn check_input<I: Read, O: Write, E: Write>(streams: &mut Streams<I, O, E>) -> bool
    ensures { IsTrue result → IfSome (I.remaining streams.old.input)
        (λ xs. Appends (O.contents streams.old.output) (O.contents streams.new.output) (plan_line (take 65536 xs))) }
{
    let mut buf = io::large_buffer();
    let Some(n) = console::read(streams, &mut buf) else {
        console::tell_unread(streams, b"plancheck");
        return false;
    };
    let printed = print_plan(streams, &buf[..n]);
    read_rest(streams, n, &mut buf);
    printed
}

fn main(rt: HostRuntime) {
    check_input(&mut console::standard(&rt));
}
