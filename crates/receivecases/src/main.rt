// Sends symbols and receives them with `fresh::fresh_receiver` and `receiver::receive`, and prints what tests/receives.py works out with the
// second model: a line for each case, how many receives answered warming, data and a refusal, and the checksum of every answer, of the
// data buffer after each receive and of the store at the end. Every subcarrier has load 14. A fresh start that is refused prints `refused`,
// number, place and the checksum.
// Standard input holds, for each case, four numbers of four bytes each, high byte first: the plan's length, the starting phase, how
// many cells the store needs and the number of acts; then the plan, and the acts. tests/receives.py says what the acts are and makes stdin and stdout.
#![tactic(auto)]

use console::Standard;
use rules::{EmitterState, Heard, ReceiverState, RefusedStep};
use trials::{Receiving, Sending};

// The cells of a store, of a symbol, which has as many as there are subcarriers, and of the line.
const STORE: usize = 60000;

const SYMBOL: usize = 4096;

const LINE: usize = 4097;

// What stands in all cells at the start of a case.
const BEFORE: u16 = 43981;

// The load of every subcarrier: with it a data cell may be any number up to 16383.
const LOAD: u8 = 14;

// A run: whether all its acts could be read, both states, the generator of data, the checksum, and how many receives answered warming, data
// and a refusal.
#[derive(Clone, Copy)]
struct Run {
    read: bool,
    emitter: EmitterState,
    receiver: ReceiverState,
    x: u32,
    sum: u32,
    warmed: u32,
    handed: u32,
    refused: u32,
}

// An act, false in `read` where it could not be read whole. What a receive is given: numbers added to those of the state, how many cells of
// store, line and data buffer, and two changes of the line, each a place in its upper two bytes and a cell in the lower two.
#[derive(Clone, Copy)]
struct Act {
    read: bool,
    act: u8,
    phase: u32,
    heard: u32,
    store: u32,
    symbol: u32,
    buffer: u32,
    first: u32,
    second: u32,
}

// The run after an emit of N_D generated cells, or after a flush, onto the first cells of the line; acts of the receiver send nothing.
fn send(
    run: Run,
    act: u8,
    plan: &[u8],
    profile: &[u8; SYMBOL],
    store: &mut [u16; STORE],
    line: &mut [u16; LINE],
) -> Run {
    if 2 <= act {
        return run;
    }
    let state = run.emitter;
    let mut count = 0;
    if act == 0 {
        count = trials::data_count(plan, state.phase);
    }
    let given = Sending {
        flush: act == 1,
        phase: state.phase,
        count,
        store: STORE,
        symbol: SYMBOL,
    };
    let mut cells = [0u16; SYMBOL];
    let mut next = run;
    next.x = samples::draw(run.x, count, &mut cells);
    if let Ok(after) = trials::send(plan, profile, given, store, &cells, line) {
        next.emitter = after;
    }
    next
}

// Act 3, with its seven numbers from standard input.
fn given_act(streams: &mut Standard) -> Act {
    let mut bytes = [0u8; 28];
    let read = console::fill(streams, b"receivecases", &mut bytes);
    Act {
        read,
        act: 3,
        phase: console::number_at(&bytes, 0),
        heard: console::number_at(&bytes, 1),
        store: console::number_at(&bytes, 2),
        symbol: console::number_at(&bytes, 3),
        buffer: console::number_at(&bytes, 4),
        first: console::number_at(&bytes, 5),
        second: console::number_at(&bytes, 6),
    }
}

// The next act of standard input; those other than 3 are given what is right.
fn next_act(streams: &mut Standard) -> Act {
    let mut one = [0u8; 1];
    let read = console::fill(streams, b"receivecases", &mut one);
    let act = one[0];
    if read && act == 3 {
        return given_act(streams);
    }
    Act {
        read,
        act,
        phase: 0,
        heard: 0,
        store: 60000,
        symbol: 4096,
        buffer: 4096,
        first: 4294967295,
        second: 4294967295,
    }
}

// The step that a receive is given.
fn receiving(state: ReceiverState, given: Act) -> Receiving {
    Receiving {
        phase: std::num::wrapping_add_u32(state.phase, given.phase),
        heard: std::num::wrapping_add_u32(state.heard, given.heard),
        store: given.store as usize,
        symbol: given.symbol as usize,
        buffer: given.buffer as usize,
    }
}

// Makes a change of the line, and gives the change that takes it back.
fn changed(line: &mut [u16; LINE], change: u32) -> u32 {
    let place = change / 65536;
    let old = samples::swap(line, place as usize, (change % 65536) as u16);
    place * 65536 + old as u32
}

// The run with an answer counted; a refused receive is never given the state that it hands back.
fn told(run: Run, answer: Result<Heard<ReceiverState>, RefusedStep<ReceiverState>>) -> Run {
    let mut next = run;
    next.sum = sums::mixed_receive(run.sum, answer);
    match answer {
        Ok(Heard::Warming(state)) => {
            next.receiver = state;
            next.warmed = std::num::wrapping_add_u32(run.warmed, 1);
        }
        Ok(Heard::Data(state, _)) => {
            next.receiver = state;
            next.handed = std::num::wrapping_add_u32(run.handed, 1);
        }
        Err(_) => {
            next.refused = std::num::wrapping_add_u32(run.refused, 1);
        }
    }
    next
}

// The run after a receive from the changed line, which is then as before, with the data buffer in the checksum; acts of the emitter
// receive nothing.
fn receive(
    run: Run,
    given: Act,
    plan: &[u8],
    profile: &[u8; SYMBOL],
    store: &mut [u16; STORE],
    line: &mut [u16; LINE],
    buffer: &mut [u16; SYMBOL],
) -> Run {
    if given.act < 2 {
        return run;
    }
    let first = changed(line, given.first);
    let second = changed(line, given.second);
    let step = receiving(run.receiver, given);
    let answer = trials::receive(plan, profile, step, store, line, buffer);
    changed(line, second);
    changed(line, first);
    let mut next = told(run, answer);
    next.sum = sums::mixed_cells(next.sum, buffer, SYMBOL);
    next
}

// The run after so many acts, or up to the one that could not be read.
fn acts(
    streams: &mut Standard,
    begun: Run,
    count: u32,
    plan: &[u8],
    sent: &mut [u16; STORE],
    store: &mut [u16; STORE],
) -> Run {
    let profile = [LOAD; SYMBOL];
    let mut line = [BEFORE; LINE];
    let mut buffer = [BEFORE; SYMBOL];
    let mut run = begun;
    for _ in 0..count {
        let given = next_act(streams);
        if !given.read {
            run.read = false;
            return run;
        }
        let sending = send(run, given.act, plan, &profile, sent, &mut line);
        run = receive(
            sending,
            given,
            plan,
            &profile,
            store,
            &mut line,
            &mut buffer,
        );
    }
    run
}

// The checksum of two fresh receivers: in one cell too few, none where none is needed, and in just enough. The one leaves the first cells
// of a store that needs some as they were.
fn mixed_tight(plan: &[u8], phase: u32, need: u32, store: &mut [u16; STORE]) -> u32 {
    let size = need as usize;
    let few = if size == 0 { 0 } else { size - 1 };
    let short = sums::mixed_listen(0, trials::fresh_receiver(plan, phase, few, store));
    let seen = sums::mixed_cells(short, store, 16);
    sums::mixed_listen(seen, trials::fresh_receiver(plan, phase, size, store))
}

// A fresh emitter beside the receiver.
fn fresh_emitter(plan: &[u8], phase: u32, store: &mut [u16; STORE]) -> EmitterState {
    trials::fresh_emitter(plan, phase, STORE, store).unwrap_or(EmitterState { phase })
}

// The run of a case from its fresh start on, with the store in the checksum.
fn started(
    streams: &mut Standard,
    receiver: ReceiverState,
    sum: u32,
    plan: &[u8],
    count: u32,
    store: &mut [u16; STORE],
) -> Run {
    let mut sent = [BEFORE; STORE];
    let begun = Run {
        read: true,
        emitter: fresh_emitter(plan, receiver.phase, &mut sent),
        receiver,
        x: 1,
        sum,
        warmed: 0,
        handed: 0,
        refused: 0,
    };
    let mut run = acts(streams, begun, count, plan, &mut sent, store);
    run.sum = sums::mixed_cells(run.sum, store, STORE);
    run
}

// The line of a case; none where it could not be read whole.
fn print_run(streams: &mut Standard, run: Run) -> bool {
    if !run.read {
        return false;
    }
    console::print_line(
        streams,
        b"receivecases",
        b"# # # #\n",
        [run.warmed, run.handed, run.refused, run.sum, 0, 0, 0],
    )
}

// A case whose plan is read: the fresh starts, then the acts, and its line.
fn start(
    streams: &mut Standard,
    plan: &[u8],
    phase: u32,
    need: u32,
    count: u32,
    store: &mut [u16; STORE],
) -> bool {
    let tight = mixed_tight(plan, phase, need, store);
    let answer = trials::fresh_receiver(plan, phase, STORE, store);
    let sum = sums::mixed_listen(tight, answer);
    match answer {
        Err(refusal) => console::print_refused(
            streams,
            b"receivecases",
            refusal.number,
            refusal.place,
            sums::mixed_cells(sum, store, STORE),
        ),
        Ok(state) => {
            let run = started(streams, state, sum, plan, count, store);
            print_run(streams, run)
        }
    }
}

// Reads a plan of this length and tries it; false where the case could not be read whole or its line was not written.
fn try_case(streams: &mut Standard, plan: &mut [u8], phase: u32, need: u32, count: u32) -> bool {
    if !console::fill(streams, b"receivecases", plan) {
        return false;
    }
    let mut store = [BEFORE; STORE];
    start(streams, plan, phase, need, count, &mut store)
}

// One case; false where the input has ended, or this case was not read or not printed.
fn one_case(streams: &mut Standard) -> bool {
    let mut head = [0u8; 16];
    if !console::fill(streams, b"receivecases", &mut head) {
        return false;
    }
    let length = console::number_at(&head, 0);
    let phase = console::number_at(&head, 1);
    let need = console::number_at(&head, 2);
    let count = console::number_at(&head, 3);
    let mut buf = io::large_buffer();
    let n = console::at_most(length as usize, &buf);
    try_case(streams, &mut buf[..n], phase, need, count)
}

// The lines of up to 1000 cases.
fn main(rt: HostRuntime) {
    let mut streams = console::standard(&rt);
    for _ in 0..1000u32 {
        if !one_case(&mut streams) {
            return;
        }
    }
}
