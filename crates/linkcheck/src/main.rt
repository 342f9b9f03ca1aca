// Reads a plan on standard input and tries the link under it: from each of the 128 starting phases an emitter and a receiver that hears what
// is sent, with steps mixed in that have to be refused and change nothing. Every answer and every cell that comes out is compared with what
// was put in. Prints one line: `ok 128 phases ..`, or the first difference, `differs ..`; for a refused plan plancheck's line, and the same
// for a refused load profile. The profile is the file that a word of arguments names, as in `linkcheck my.loads`; without a word every load
// is 14. Where there are more words, where the file or the first 65,536 bytes of the plan cannot be read, or the line cannot be written,
// standard error is told. A longer input than any plan is read on, up to 64 MiB, so that its writer can finish.
#![tactic(auto)]

mod cell_limits;
mod link;
mod receives;
mod sends;

use console::Standard;
use link::{Link, PHASES, SENT, STORE, SYMBOL, answered, more, refused};
use receives::ReceiveKind;
use rules::{EmitterState, ReceiverState, Refusal};
use sends::SendKind;

// The load of every subcarrier where no profile is named: with it a data cell may be any number up to 16383.
const LOAD: u8 = 14;

// The link with a fresh receiver and a fresh emitter, if its next symbol is the first of a run.
fn fresh(
    streams: &mut Standard,
    link: Link,
    plan: &[u8],
    sent: &mut [u16; STORE],
    heard: &mut [u16; STORE],
) -> Link {
    if link.t != 0 {
        return link;
    }
    let mut next = link;
    let mut got = SENT;
    match trials::fresh_receiver(plan, link.start, STORE, heard) {
        Ok(state) => next.receiver = state,
        Err(refusal) => got = refused(refusal),
    }
    match trials::fresh_emitter(plan, link.start, STORE, sent) {
        Ok(state) => next.emitter = state,
        Err(refusal) => got = refused(refusal),
    }
    answered(streams, next, SENT, got)
}

// The link with a symbol counted, of which so many cells came out; a run has 2 M + 3 symbols.
fn counted(link: Link, count: usize) -> Link {
    let mut next = link;
    if samples::inputs::is_flush(link.t) {
        next.flushes = more(link.flushes);
    }
    next.t = more(link.t);
    next.symbols = more(link.symbols);
    next.cells = std::num::wrapping_add_u32(link.cells, (count % 65536) as u32);
    if next.t as u64 == 2 * (link.depth as u64) + 3 {
        next.t = 0;
        next.start = more(link.start);
        next.phases = more(link.phases);
    }
    next
}

// The link after the four steps of a symbol: a wrong send, the right one, a wrong receive, the right one.
fn one_symbol(
    streams: &mut Standard,
    link: Link,
    plan: &[u8],
    profile: &[u8],
    counts: &[u16; PHASES],
    sent: &mut [u16; STORE],
    heard: &mut [u16; STORE],
) -> Link {
    let number = std::num::wrapping_add_u32(link.start, link.t);
    let nd = link::count_of(link, link.t, counts);
    let due = receives::due_of(link, counts);
    let mut symbol = [0u16; SYMBOL];
    let mut limits = [0u16; SYMBOL];
    let phase = link::phase_of(link, link.t);
    let _ = cell_limits::put(plan, profile, phase, nd, &mut limits);
    let mut next = sends::send(
        streams,
        link,
        SendKind::wrong(number),
        nd,
        plan,
        profile,
        &limits,
        sent,
        &mut symbol,
    );
    next = sends::send(
        streams,
        next,
        SendKind::Right,
        nd,
        plan,
        profile,
        &limits,
        sent,
        &mut symbol,
    );
    let back = link::phase_of(link, due.input);
    let _ = cell_limits::put(plan, profile, back, due.count, &mut limits);
    next = receives::receive(
        streams,
        next,
        ReceiveKind::wrong(number),
        due,
        plan,
        profile,
        &limits,
        heard,
        &mut symbol,
    );
    next = receives::receive(
        streams,
        next,
        ReceiveKind::Right,
        due,
        plan,
        profile,
        &limits,
        heard,
        &mut symbol,
    );
    counted(next, due.count)
}

// The link after the runs from all starting phases, or after the symbol with the first difference.
fn runs(
    streams: &mut Standard,
    begun: Link,
    plan: &[u8],
    profile: &[u8],
    counts: &[u16; PHASES],
) -> Link {
    let mut sent = [0u16; STORE];
    let mut heard = [0u16; STORE];
    let mut link = begun;
    for _ in 0..(2 * (begun.depth as u64) + 3) * 128 {
        let fresh_link = fresh(streams, link, plan, &mut sent, &mut heard);
        let next = one_symbol(
            streams, fresh_link, plan, profile, counts, &mut sent, &mut heard,
        );
        link = next;
        if !link.right {
            return link;
        }
    }
    link
}

// Puts N_D at every phase into the counts.
fn count_all(plan: &[u8], counts: &mut [u16; PHASES]) {
    for j in 0..128u32 {
        let nd = trials::data_count(plan, j);
        samples::swap(counts, j as usize, (nd % 65536) as u16);
    }
}

// The link of an accepted plan before its first run.
fn new_link(plan: &[u8]) -> Link {
    Link {
        depth: samples::depth_of(plan),
        emitter_need: trials::emitter_need(plan),
        receiver_need: trials::receiver_need(plan),
        start: 0,
        t: 0,
        emitter: EmitterState { phase: 0 },
        receiver: ReceiverState { phase: 0, heard: 0 },
        right: true,
        phases: 0,
        symbols: 0,
        cells: 0,
        flushes: 0,
        refused: 0,
    }
}

// Tries the link under an accepted plan and profile, and prints the line where all was right.
fn check_link(streams: &mut Standard, plan: &[u8], profile: &[u8]) {
    let mut counts = [0u16; PHASES];
    count_all(plan, &mut counts);
    let link = runs(streams, new_link(plan), plan, profile, &counts);
    if link.right {
        console::print_line(
            streams,
            b"linkcheck",
            b"ok # phases # symbols # cells # flushes # refused\n",
            [
                link.phases,
                link.symbols,
                link.cells,
                link.flushes,
                link.refused,
                0,
                0,
            ],
        );
    }
}

// Prints the line of a refused plan or profile.
fn print_refused(streams: &mut Standard, refusal: Refusal) {
    let line = text::refused_line(refusal.number, refusal.place);
    let text = line.text;
    let len = line.len;
    console::print(streams, b"linkcheck", &text[..len]);
}

// Judges a profile under an accepted plan, by what filling at phase 0 answers, and tries the link under an accepted one.
fn check_profile(streams: &mut Standard, plan: &[u8], profile: &[u8]) {
    let mut limits = [0u16; SYMBOL];
    let nd = trials::data_count(plan, 0);
    match cell_limits::put(plan, profile, 0, nd, &mut limits) {
        Err(refusal) => print_refused(streams, refusal),
        Ok(_) => check_link(streams, plan, profile),
    }
}

// Judges a plan, and tries the link under an accepted one.
fn check_plan(streams: &mut Standard, plan: &[u8], profile: &[u8]) {
    match judge::judge(plan) {
        Err(refusal) => print_refused(streams, refusal),
        Ok(_) => check_profile(streams, plan, profile),
    }
}

// Reads the plan, and tries it with a profile.
fn check_input(streams: &mut Standard, profile: &[u8]) {
    let mut buf = io::large_buffer();
    let Some(n) = console::read(streams, &mut buf) else {
        console::tell_unread(streams, b"linkcheck");
        return;
    };
    check_plan(streams, &buf[..n], profile);
    if n == 65536 {
        console::read_on(streams, &mut buf);
    }
}

// Reads the profile from the file that the first word names: one byte more than a profile has, to see that a file is too long.
fn check_named(rt: &HostRuntime, streams: &mut Standard) {
    let mut profile = [0u8; 4097];
    match arguments::read_file(rt, 1, &mut profile) {
        Some(n) => check_input(streams, &profile[..n]),
        None => {
            console::tell(
                streams,
                b"linkcheck",
                b": the file of the load profile cannot be read\n",
            );
        }
    }
}

// Tells which word is expected.
fn tell_expected(streams: &mut Standard) {
    console::tell(
        streams,
        b"linkcheck",
        b": at most one word is expected, the name of a file with a load profile, as in: linkcheck my.loads\n",
    );
}

fn main(rt: HostRuntime) {
    let mut streams = console::standard(&rt);
    match arguments::word_count(&rt) {
        0 => check_input(&mut streams, &[LOAD; SYMBOL]),
        1 => check_named(&rt, &mut streams),
        _ => tell_expected(&mut streams),
    }
}
