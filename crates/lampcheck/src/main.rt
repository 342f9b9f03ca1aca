// The pilot lamp for the workshop: reads a plan from the file that its one word names, then symbols of 8,192 bytes each on standard input, and
// prints a line after each: `all lit`, or `dark` and the pilots that are dark, as in `dark 925 1003`. The lamp's record starts fresh. For
// a refused plan it prints plancheck's line and reads no symbol. Where there is another number of words, where the file or standard input
// cannot be read, where there is no symbol or the input ends within one, or where a line cannot be written, standard error is told.
#![tactic(auto)]

use console::Standard;
use pilots::PILOTS;
use rules::Refusal;

// The bytes of a symbol, two for each of 4,096 cells.
const SYMBOL: usize = 8192;

// The bytes of the longest record: one for the symbols heard, and one for each pilot.
const RECORD: usize = 129;

// No more symbols are read than this, far more than any input has.
const MOST: u64 = u64::MAX;

// Prints the line of a refused plan.
fn print_refused(streams: &mut Standard, refusal: Refusal) -> bool {
    let line = text::refused_line(refusal.number, refusal.place);
    let text = line.text;
    let len = line.len;
    console::print(streams, b"lampcheck", &text[..len])
}

// Prints the line of n pilots and their lights; false where it was not written.
fn print_lights(
    streams: &mut Standard,
    list: &[u16; PILOTS],
    lights: &[u8; PILOTS],
    n: u32,
) -> bool {
    let line = lampreport::lamp_line(list, lights, n);
    let text = line.text;
    let len = line.len;
    console::print(streams, b"lampcheck", &text[..len])
}

// The lamp hears a symbol; false where its line was not written, and where it refused.
fn hear(
    streams: &mut Standard,
    plan: &[u8],
    list: &[u16; PILOTS],
    symbol: &[u8],
    counts: &mut [u8],
) -> bool {
    let mut lights = [0u8; PILOTS];
    match bytelamp::lamp(plan, symbol, counts, &mut lights) {
        Err(refusal) => {
            print_refused(streams, refusal);
            false
        }
        Ok(n) => print_lights(streams, list, &lights, n),
    }
}

// Tells where the input ended, after so many bytes of a symbol.
fn tell_ended(streams: &mut Standard, first: bool, bytes: usize) {
    if 0 < bytes {
        console::tell(
            streams,
            b"lampcheck",
            b": the input ends within a symbol, which has 8192 bytes\n",
        );
        return;
    }
    if first {
        console::tell(
            streams,
            b"lampcheck",
            b": no symbol on standard input, 8192 bytes each\n",
        );
    }
}

// Reads a symbol and has the lamp hear it; false where there is no more to do.
fn next_symbol(
    streams: &mut Standard,
    plan: &[u8],
    list: &[u16; PILOTS],
    first: bool,
    counts: &mut [u8],
) -> bool {
    let mut symbol = [0u8; SYMBOL];
    let Some(n) = console::read(streams, &mut symbol) else {
        console::tell_unread(streams, b"lampcheck");
        return false;
    };
    if n == SYMBOL {
        return hear(streams, plan, list, &symbol, counts);
    }
    tell_ended(streams, first, n);
    false
}

// Has the lamp hear one symbol after the other.
fn hear_input(streams: &mut Standard, plan: &[u8], list: &[u16; PILOTS], counts: &mut [u8]) {
    for i in 0..MOST {
        if !next_symbol(streams, plan, list, i == 0, counts) {
            return;
        }
    }
}

// The lamp of a plan with a fresh record; the line of a refused plan.
fn check_plan(streams: &mut Standard, plan: &[u8]) {
    let found = pilots::pilots(plan);
    match found.answer {
        Err(refusal) => {
            print_refused(streams, refusal);
        }
        Ok(n) => {
            let mut counts = [0u8; RECORD];
            let size = console::at_most(n as usize + 1, &counts);
            hear_input(streams, plan, &found.list, &mut counts[..size]);
        }
    }
}

// Reads the plan from the file that the word names.
fn check_named(rt: &HostRuntime, streams: &mut Standard) {
    let mut buf = io::large_buffer();
    match arguments::read_file(rt, 1, &mut buf) {
        Some(n) => check_plan(streams, &buf[..n]),
        None => {
            console::tell(
                streams,
                b"lampcheck",
                b": the file of the plan cannot be read\n",
            );
        }
    }
}

fn main(rt: HostRuntime) {
    let mut streams = console::standard(&rt);
    if arguments::word_count(&rt) == 1 {
        check_named(&rt, &mut streams);
        return;
    }
    console::tell(
        &mut streams,
        b"lampcheck",
        b": one word is expected, the name of a file with a plan, as in: lampcheck my.plan\n",
    );
}
