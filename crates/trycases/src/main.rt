// Tries the ranges of the executed cases and prints a line for each, as trycheck does. Standard input holds, for each case, the plan's
// length as four bytes, the first and the last number of the range as two bytes each, high byte first, and then the plan. tests/tries.py
// makes stdin and stdout from the second model.
#![tactic(auto)]

use console::Standard;

// Reads a plan of this length, tries the range and prints its line; false where it could not be read whole or its line was not written.
fn try_case(streams: &mut Standard, plan: &mut [u8], first: u16, last: u16) -> bool {
    if !console::fill(streams, b"trycases", plan) {
        return false;
    }
    let line = tryreport::try_line(plan, first, last);
    let text = line.text;
    let size = line.len;
    console::print(streams, b"trycases", &text[..size])
}

// One case; false where the input has ended, or this case was not read or not printed.
fn one_case(streams: &mut Standard) -> bool {
    let mut head = [0u8; 8];
    if !console::fill(streams, b"trycases", &mut head) {
        return false;
    }
    let length = console::number_at(&head, 0);
    let mut buf = io::large_buffer();
    let n = console::at_most(length as usize, &buf);
    try_case(
        streams,
        &mut buf[..n],
        u16::from_be_bytes([head[4], head[5]]),
        u16::from_be_bytes([head[6], head[7]]),
    )
}

// The lines of up to 10,000 cases.
fn main(rt: HostRuntime) {
    let mut streams = console::standard(&rt);
    for _ in 0..10000u32 {
        if !one_case(&mut streams) {
            return;
        }
    }
}
