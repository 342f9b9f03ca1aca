// Asks what a subcarrier is doing in the executed cases and prints a line for each, as whycheck does. Standard input holds, for each case,
// the plan's length, the subcarrier and the phase as four bytes each, high byte first, and then the plan. tests/whys.py makes stdin and
// stdout from the second model.
#![tactic(auto)]

use console::Standard;

// Reads a plan of this length and prints the line of a subcarrier at a phase; false where it could not be read whole or its line was not
// written.
fn why_case(streams: &mut Standard, plan: &mut [u8], subcarrier: u32, phase: u32) -> bool {
    if !console::fill(streams, b"whycases", plan) {
        return false;
    }
    let line = whyreport::why_line(plan, subcarrier, phase);
    let text = line.text;
    let size = line.len;
    console::print(streams, b"whycases", &text[..size])
}

// One case; false where the input has ended, or this case was not read or not printed.
fn one_case(streams: &mut Standard) -> bool {
    let mut head = [0u8; 12];
    if !console::fill(streams, b"whycases", &mut head) {
        return false;
    }
    let length = console::number_at(&head, 0);
    let mut buf = io::large_buffer();
    let n = console::at_most(length as usize, &buf);
    why_case(
        streams,
        &mut buf[..n],
        console::number_at(&head, 1),
        console::number_at(&head, 2),
    )
}

// The lines of up to 10,000 cases.
fn main(rt: HostRuntime) {
    let mut streams = console::standard(&rt);
    for _ in 0..10000u32 {
        if !one_case(&mut streams) {
            return;
        }
    }
}
