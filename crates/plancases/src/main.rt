// Judges the plans of the executed cases and prints a line for each, as plancheck does. Standard input holds, for each case, its
// length as four bytes, high byte first, and then the plan. tests/cases.py makes stdin and stdout from the second model.
#![tactic(auto)]

use console::Standard;

// Reads a plan of this length, judges it and prints its line; false where it could not be read whole or its line was not written.
fn judge_case(streams: &mut Standard, plan: &mut [u8]) -> bool {
    if !console::fill(streams, b"plancases", plan) {
        return false;
    }
    let line = report::plan_line(plan);
    let text = line.text;
    let size = line.len;
    console::print(streams, b"plancases", &text[..size])
}

// One case; false where the input has ended, or this case was not read or not printed.
fn one_case(streams: &mut Standard) -> bool {
    let mut head = [0u8; 4];
    if !console::fill(streams, b"plancases", &mut head) {
        return false;
    }
    let length = console::number_at(&head, 0);
    let mut buf = io::large_buffer();
    let n = console::at_most(length as usize, &buf);
    judge_case(streams, &mut buf[..n])
}

// The lines of up to 1000 cases.
fn main(rt: HostRuntime) {
    let mut streams = console::standard(&rt);
    for _ in 0..1000u32 {
        if !one_case(&mut streams) {
            return;
        }
    }
}
