// Reads a plan on standard input, tries one more excluded range on it, and prints one line as plancheck would for the plan with it. The
// range is two words of arguments, as in `trycheck 850 853`; where they are no range, standard error is told what is expected, and nothing
// is read or printed. Reading and writing go as in plancheck.
#![tactic(auto)]

use console::Standard;

// The largest number that a record of a plan can hold.
const MOST: u32 = 65535;

// Prints the line of a plan and a range.
fn print_trial(streams: &mut Standard, plan: &[u8], first: u16, last: u16) {
    let line = tryreport::try_line(plan, first, last);
    let text = line.text;
    let len = line.len;
    console::print(streams, b"trycheck", &text[..len]);
}

// Reads the plan and prints the line of the range.
fn try_input(streams: &mut Standard, first: u16, last: u16) {
    let mut buf = io::large_buffer();
    let Some(n) = console::read(streams, &mut buf) else {
        console::tell_unread(streams, b"trycheck");
        return;
    };
    print_trial(streams, &buf[..n], first, last);
    if n == 65536 {
        console::read_on(streams, &mut buf);
    }
}

// Tells which words are expected.
fn tell_expected(streams: &mut Standard) {
    console::tell(
        streams,
        b"trycheck",
        b": two words are expected, the first and the last subcarrier of a range, each a number from 0 to 65535 in digits, as in: trycheck 850 853\n",
    );
}

// The range from `first` to the number of the second word.
fn try_second(rt: &HostRuntime, streams: &mut Standard, first: u16) {
    match arguments::number_word(rt, 2, MOST) {
        Some(last) => try_input(streams, first, last as u16),
        None => tell_expected(streams),
    }
}

fn main(rt: HostRuntime) {
    let mut streams = console::standard(&rt);
    if arguments::word_count(&rt) != 2 {
        tell_expected(&mut streams);
        return;
    }
    match arguments::number_word(&rt, 1, MOST) {
        Some(first) => try_second(&rt, &mut streams, first as u16),
        None => tell_expected(&mut streams),
    }
}
