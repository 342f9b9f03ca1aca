// Fills data symbols from bit streams with `filling::fill_symbol`, takes them back with `filling::unfill_symbol`, sends and receives them
// under profiles of any loads, and prints what tests/fills.py works out with the second model: a line for each case, how many acts were
// accepted and how many refused, how many bits were filled and taken back, and the checksum of every answer and of all that an act may have
// written.
// Standard input holds, for each case, six numbers of four bytes each, high byte first: the plan's length, the starting phase, two numbers
// for the profile, one for the stream and the number of acts; then the plan, and the acts, nine numbers each. tests/fills.py says what they
// stand for and makes stdin and stdout.
#![tactic(auto)]

mod given;

use console::Standard;
use given::{Act, Head, PROFILE, STREAM, changed};
use rules::{EmitterState, Heard, ReceiverState, Refusal, RefusedStep};
use trials::{Receiving, Sending};

// The cells of a store, and of data and symbol.
const STORE: usize = 60000;

const SYMBOL: usize = 4096;

// What stands in all cells at the start of a case, and in all bytes of the stream that is written.
const BEFORE: u16 = 43981;

const BACK: u8 = 165;

// A run: whether all its acts could be read, both states, the checksum, how many acts were accepted and refused, and the bits.
#[derive(Clone, Copy)]
struct Run {
    read: bool,
    emitter: EmitterState,
    receiver: ReceiverState,
    sum: u32,
    accepted: u32,
    refused: u32,
    bits: u32,
}

// One more.
fn more(n: u32) -> u32 {
    std::num::wrapping_add_u32(n, 1)
}

// The checksum with bytes more.
fn mixed_bytes(sum: u32, bytes: &[u8]) -> u32 {
    let mut mix = sum;
    for byte in bytes {
        mix = sums::mixed(mix, u32::from(*byte));
    }
    mix
}

// The run after filling, or the way back, with this answer.
fn counted(run: Run, answer: Result<u32, Refusal>) -> Run {
    let mut next = run;
    next.sum = sums::mixed_count(run.sum, answer);
    match answer {
        Ok(n) => {
            next.accepted = more(run.accepted);
            next.bits = std::num::wrapping_add_u32(run.bits, n);
        }
        Err(_) => next.refused = more(run.refused),
    }
    next
}

// The answer of filling the first cells from the first bytes.
fn filled(
    act: Act,
    plan: &[u8],
    profile: &[u8],
    stream: &[u8],
    data: &mut [u16],
) -> Result<u32, Refusal> {
    let loads = console::at_most(act.profile as usize, profile);
    let bytes = console::at_most(act.room as usize, stream);
    let n = trials::at_most(act.cells as usize, data);
    filling::fill_symbol(
        plan,
        &profile[..loads],
        act.phase,
        &stream[..bytes],
        act.start,
        &mut data[..n],
    )
}

// The run after act 0, filling the data; another act fills nothing.
fn fill(
    run: Run,
    act: Act,
    plan: &[u8],
    profile: &[u8; PROFILE],
    stream: &[u8; STREAM],
    data: &mut [u16; SYMBOL],
) -> Run {
    if act.kind != 0 {
        return run;
    }
    let answer = filled(act, plan, profile, stream, data);
    let mut next = counted(run, answer);
    next.sum = sums::mixed_cells(next.sum, data, SYMBOL);
    next
}

// The answer of the way back of the first cells into the first bytes.
fn unfilled(
    act: Act,
    plan: &[u8],
    profile: &[u8],
    cells: &[u16],
    back: &mut [u8],
) -> Result<u32, Refusal> {
    let loads = console::at_most(act.profile as usize, profile);
    let n = trials::at_most(act.cells as usize, cells);
    let bytes = console::at_most(act.room as usize, back);
    filling::unfill_symbol(
        plan,
        &profile[..loads],
        act.phase,
        &cells[..n],
        act.start,
        &mut back[..bytes],
    )
}

// The run after the act of this kind, the way back of the changed cells, which are then as before; another act takes nothing back.
fn take_back(
    run: Run,
    act: Act,
    kind: u32,
    plan: &[u8],
    profile: &[u8; PROFILE],
    cells: &mut [u16; SYMBOL],
    back: &mut [u8; STREAM],
) -> Run {
    if act.kind != kind {
        return run;
    }
    let old = changed(cells, act.cell);
    let answer = unfilled(act, plan, profile, cells, back);
    changed(cells, old);
    let mut next = counted(run, answer);
    next.sum = mixed_bytes(next.sum, back);
    next
}

// The run after a send with this answer; a refused one is never given the state that it hands back.
fn sent_with(run: Run, answer: Result<EmitterState, RefusedStep<EmitterState>>) -> Run {
    let mut next = run;
    next.sum = sums::mixed_send(run.sum, answer);
    match answer {
        Ok(state) => {
            next.emitter = state;
            next.accepted = more(run.accepted);
        }
        Err(_) => next.refused = more(run.refused),
    }
    next
}

// The answer of a send under the first loads of the profile.
fn sent(
    act: Act,
    plan: &[u8],
    profile: &[u8],
    step: Sending,
    store: &mut [u16; STORE],
    data: &[u16; SYMBOL],
    line: &mut [u16; SYMBOL],
) -> Result<EmitterState, RefusedStep<EmitterState>> {
    let loads = console::at_most(act.profile as usize, profile);
    trials::send(plan, &profile[..loads], step, store, data, line)
}

// The run after act 3, an emit of the changed data, which is then as before, or act 4, a flush; another act sends nothing.
fn send(
    run: Run,
    act: Act,
    plan: &[u8],
    profile: &[u8; PROFILE],
    data: &mut [u16; SYMBOL],
    store: &mut [u16; STORE],
    line: &mut [u16; SYMBOL],
) -> Run {
    if act.kind != 3 && act.kind != 4 {
        return run;
    }
    let state = run.emitter;
    let step = Sending {
        flush: act.kind == 4,
        phase: std::num::wrapping_add_u32(state.phase, act.phase),
        count: act.cells as usize,
        store: act.room as usize,
        symbol: SYMBOL,
    };
    let old = changed(data, act.cell);
    let answer = sent(act, plan, profile, step, store, data, line);
    changed(data, old);
    let mut next = sent_with(run, answer);
    next.sum = sums::mixed_cells(next.sum, line, SYMBOL);
    next
}

// The run after a receive with this answer; a refused one is never given the state that it hands back.
fn received(run: Run, answer: Result<Heard<ReceiverState>, RefusedStep<ReceiverState>>) -> Run {
    let mut next = run;
    next.sum = sums::mixed_receive(run.sum, answer);
    match answer {
        Ok(Heard::Warming(state) | Heard::Data(state, _)) => {
            next.receiver = state;
            next.accepted = more(run.accepted);
        }
        Err(_) => next.refused = more(run.refused),
    }
    next
}

// The answer of a receive under the first loads of the profile.
fn heard(
    act: Act,
    plan: &[u8],
    profile: &[u8],
    step: Receiving,
    store: &mut [u16; STORE],
    line: &[u16; SYMBOL],
    handed: &mut [u16; SYMBOL],
) -> Result<Heard<ReceiverState>, RefusedStep<ReceiverState>> {
    let loads = console::at_most(act.profile as usize, profile);
    trials::receive(plan, &profile[..loads], step, store, line, handed)
}

// The run after act 5, a receive from the changed line, which is then as before; an act below receives nothing.
fn receive(
    run: Run,
    act: Act,
    plan: &[u8],
    profile: &[u8; PROFILE],
    store: &mut [u16; STORE],
    line: &mut [u16; SYMBOL],
    handed: &mut [u16; SYMBOL],
) -> Run {
    if act.kind < 5 {
        return run;
    }
    let state = run.receiver;
    let step = Receiving {
        phase: std::num::wrapping_add_u32(state.phase, act.phase),
        heard: state.heard,
        store: act.room as usize,
        symbol: SYMBOL,
        buffer: SYMBOL,
    };
    let old = changed(line, act.cell);
    let answer = heard(act, plan, profile, step, store, line, handed);
    changed(line, old);
    let mut next = received(run, answer);
    next.sum = sums::mixed_cells(next.sum, handed, SYMBOL);
    next
}

// The run after the acts, or up to the one that could not be read. The profile is after each as before.
fn acts(
    streams: &mut Standard,
    begun: Run,
    plan: &[u8],
    head: Head,
    sending: &mut [u16; STORE],
    listening: &mut [u16; STORE],
) -> Run {
    let mut profile = [0u8; PROFILE];
    let mut stream = [255u8; STREAM];
    let mut back = [BACK; STREAM];
    let mut data = [BEFORE; SYMBOL];
    let mut handed = [BEFORE; SYMBOL];
    let mut line = [BEFORE; SYMBOL];
    given::make_profile(head, &mut profile);
    given::make_stream(head.seed, &mut stream);
    let mut run = begun;
    for _ in 0..head.acts {
        let act = given::next_act(streams);
        if !act.read {
            run.read = false;
            return run;
        }
        let old = given::changed_load(&mut profile, act.load);
        let mut next = fill(run, act, plan, &profile, &stream, &mut data);
        next = take_back(next, act, 1, plan, &profile, &mut data, &mut back);
        next = take_back(next, act, 2, plan, &profile, &mut handed, &mut back);
        next = send(next, act, plan, &profile, &mut data, sending, &mut line);
        next = receive(next, act, plan, &profile, listening, &mut line, &mut handed);
        run = next;
        given::changed_load(&mut profile, old);
    }
    run
}

// A fresh emitter; the starting phase where it is refused.
fn fresh_emitter(plan: &[u8], phase: u32, store: &mut [u16; STORE]) -> EmitterState {
    trials::fresh_emitter(plan, phase, STORE, store).unwrap_or(EmitterState { phase })
}

// A fresh receiver; the starting phase, and nothing heard, where it is refused.
fn fresh_receiver(plan: &[u8], phase: u32, store: &mut [u16; STORE]) -> ReceiverState {
    trials::fresh_receiver(plan, phase, STORE, store).unwrap_or(ReceiverState { phase, heard: 0 })
}

// The run of a case whose plan is read.
fn ran(streams: &mut Standard, plan: &[u8], head: Head) -> Run {
    let mut sending = [BEFORE; STORE];
    let mut listening = [BEFORE; STORE];
    let begun = Run {
        read: true,
        emitter: fresh_emitter(plan, head.phase, &mut sending),
        receiver: fresh_receiver(plan, head.phase, &mut listening),
        sum: 0,
        accepted: 0,
        refused: 0,
        bits: 0,
    };
    acts(streams, begun, plan, head, &mut sending, &mut listening)
}

// The line of a case; none where it could not be read whole.
fn print_run(streams: &mut Standard, run: Run) -> bool {
    if !run.read {
        return false;
    }
    console::print_line(
        streams,
        b"fillcases",
        b"# # # #\n",
        [run.accepted, run.refused, run.bits, run.sum, 0, 0, 0],
    )
}

// Reads a plan of this length and tries it; false where the case could not be read whole or its line was not written.
fn try_case(streams: &mut Standard, plan: &mut [u8], head: Head) -> bool {
    if !console::fill(streams, b"fillcases", plan) {
        return false;
    }
    let run = ran(streams, plan, head);
    print_run(streams, run)
}

// One case; false where the input has ended, or this case was not read or not printed.
fn one_case(streams: &mut Standard) -> bool {
    let mut bytes = [0u8; 24];
    if !console::fill(streams, b"fillcases", &mut bytes) {
        return false;
    }
    let length = console::number_at(&bytes, 0);
    let head = Head {
        phase: console::number_at(&bytes, 1),
        step: console::number_at(&bytes, 2),
        turn: console::number_at(&bytes, 3),
        seed: console::number_at(&bytes, 4),
        acts: console::number_at(&bytes, 5),
    };
    let mut buf = io::large_buffer();
    let n = console::at_most(length as usize, &buf);
    try_case(streams, &mut buf[..n], head)
}

// The lines of up to 1000 cases.
fn main(rt: HostRuntime) {
    let mut streams = console::standard(&rt);
    for _ in 0..1000u32 {
        if !one_case(&mut streams) {
            return;
        }
    }
}
