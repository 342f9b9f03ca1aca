// Reads a plan on standard input and prints one line: what a subcarrier is doing at a phase, and why, as `continuous below 24`; a refused
// plan prints as in plancheck. The subcarrier and the phase are those set below, or two words of arguments, as in `whycheck 948 0`; where
// the words are no two numbers, standard error is told what is expected, and nothing is read or printed. Reading and writing go as in
// plancheck.
#![tactic(auto)]

use console::Standard;

// The subcarrier and the phase that are asked about where no words are given.
const SUBCARRIER: u32 = 948;

const PHASE: u32 = 0;

// The largest number that can be asked about.
const MOST: u32 = 4294967295;

// Prints the line of a subcarrier at a phase of a plan.
fn print_why(streams: &mut Standard, plan: &[u8], subcarrier: u32, phase: u32) {
    let line = whyreport::why_line(plan, subcarrier, phase);
    let text = line.text;
    let len = line.len;
    console::print(streams, b"whycheck", &text[..len]);
}

// Reads the plan and prints the line.
fn why_input(streams: &mut Standard, subcarrier: u32, phase: u32) {
    let mut buf = io::large_buffer();
    let Some(n) = console::read(streams, &mut buf) else {
        console::tell_unread(streams, b"whycheck");
        return;
    };
    print_why(streams, &buf[..n], subcarrier, phase);
    if n == 65536 {
        console::read_on(streams, &mut buf);
    }
}

// Tells which words are expected.
fn tell_expected(streams: &mut Standard) {
    console::tell(
        streams,
        b"whycheck",
        b": no words or two are expected, a subcarrier and a phase, each a number from 0 to 4294967295 in digits, as in: whycheck 948 0\n",
    );
}

// The subcarrier, at the phase that the second word spells.
fn why_second(rt: &HostRuntime, streams: &mut Standard, subcarrier: u32) {
    match arguments::number_word(rt, 2, MOST) {
        Some(phase) => why_input(streams, subcarrier, phase),
        None => tell_expected(streams),
    }
}

// The subcarrier and the phase of two words.
fn why_words(rt: &HostRuntime, streams: &mut Standard) {
    match arguments::number_word(rt, 1, MOST) {
        Some(subcarrier) => why_second(rt, streams, subcarrier),
        None => tell_expected(streams),
    }
}

fn main(rt: HostRuntime) {
    let mut streams = console::standard(&rt);
    let count = arguments::word_count(&rt);
    if count == 0 {
        why_input(&mut streams, SUBCARRIER, PHASE);
        return;
    }
    if count != 2 {
        tell_expected(&mut streams);
        return;
    }
    why_words(&rt, &mut streams);
}
