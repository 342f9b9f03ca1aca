// Sends symbols with the first emitter (`fresh::fresh_emitter`, `emitter::emit`, `emitter::flush`) or with the second, on the literal store
// (crate figureemitter), asks `cells::data_count`, and prints what tests/emits.py works out with the second models: a line for each case, how
// many steps were sent and how many refused, and the checksum of every answer, of the symbol after each step and of the store at the end.
// Every subcarrier has load 14. A fresh start that is refused prints `refused`, number, place and the checksum.
// Standard input holds, for each case, the plan's length, the starting phase, the number of steps and which emitter, four bytes each, high
// byte first; then the plan, and a byte for each step. tests/emits.py says what the bytes stand for and makes stdin and stdout.
#![tactic(auto)]

mod either;
mod kinds;

use console::Standard;
use kinds::{STORE, SYMBOL};
use rules::{EmitterState, Refusal, RefusedStep};

// A run: whether it is the second emitter's, the state for its next step, the generator of data, the checksum, and how many steps were sent
// and refused.
#[derive(Clone, Copy)]
struct Run {
    second: bool,
    state: EmitterState,
    x: u32,
    sum: u32,
    sent: u32,
    refused: u32,
}

// The cells of the room for a symbol.
const ROOM: usize = 4097;

// What stands in all cells at the start of a case.
const BEFORE: u16 = 43981;

// The load of every subcarrier: with it a data cell may be any number up to 16383.
const LOAD: u8 = 14;

// The checksum of N_D at all phases, and at two numbers that are none.
fn mixed_counts(plan: &[u8]) -> u32 {
    let mut mix: u32 = 0;
    for j in 0..129u32 {
        mix = sums::mixed_count(mix, cells::data_count(plan, j));
    }
    sums::mixed_count(mix, cells::data_count(plan, 4294967295))
}

// The run after a step with this answer; refused steps are never given the state that they hand back.
fn told(
    run: Run,
    answer: Result<EmitterState, RefusedStep<EmitterState>>,
    symbol: &[u16; ROOM],
) -> Run {
    let mut next = run;
    next.sum = sums::mixed_cells(sums::mixed_send(run.sum, answer), symbol, SYMBOL);
    match answer {
        Ok(state) => {
            next.state = state;
            next.sent = std::num::wrapping_add_u32(run.sent, 1);
        }
        Err(_) => {
            next.refused = std::num::wrapping_add_u32(run.refused, 1);
        }
    }
    next
}

// The run after one step more.
fn step(
    run: Run,
    kind: u8,
    plan: &[u8],
    profile: &[u8; SYMBOL],
    need: usize,
    store: &mut [u16; STORE],
    symbol: &mut [u16; ROOM],
) -> Run {
    let state = run.state;
    let nd = trials::data_count(plan, state.phase);
    let given = kinds::sending(kind, state, nd, need);
    let mut cells = [0u16; SYMBOL];
    let mut next = run;
    next.x = kinds::filled(run.x, kind, given.count, &mut cells);
    let answer = either::send(run.second, plan, profile, given, store, &cells, symbol);
    told(next, answer, symbol)
}

// The run after a step for each byte.
fn steps(start: Run, plan: &[u8], need: usize, bytes: &[u8], store: &mut [u16; STORE]) -> Run {
    let profile = [LOAD; SYMBOL];
    let mut symbol = [BEFORE; ROOM];
    let mut run = start;
    for byte in bytes {
        run = step(run, *byte, plan, &profile, need, store, &mut symbol);
    }
    run
}

// The checksum with two fresh starts more: in one cell too few, none where none is needed, and in just enough. The one leaves the first
// cells of a store that needs some as they were.
fn mixed_tight(
    sum: u32,
    second: bool,
    plan: &[u8],
    phase: u32,
    need: usize,
    store: &mut [u16; STORE],
) -> u32 {
    let few = need.saturating_sub(1);
    let short = sums::mixed_start(sum, either::fresh_emitter(second, plan, phase, few, store));
    let seen = sums::mixed_cells(short, store, 16);
    sums::mixed_start(
        seen,
        either::fresh_emitter(second, plan, phase, need, store),
    )
}

// The line of a case.
fn print_run(streams: &mut Standard, run: Run, sum: u32) -> bool {
    console::print_line(
        streams,
        b"emitcases",
        b"# # #\n",
        [run.sent, run.refused, sum, 0, 0, 0, 0],
    )
}

// The steps of a case from its fresh start on, and its line; the steps of a refused one are not taken.
fn started(
    streams: &mut Standard,
    answer: Result<EmitterState, Refusal>,
    sum: u32,
    second: bool,
    plan: &[u8],
    need: usize,
    bytes: &[u8],
    store: &mut [u16; STORE],
) -> bool {
    match answer {
        Err(refusal) => {
            let end = sums::mixed_cells(sum, store, STORE);
            console::print_refused(streams, b"emitcases", refusal.number, refusal.place, end)
        }
        Ok(state) => {
            let begun = Run {
                second,
                state,
                x: 1,
                sum,
                sent: 0,
                refused: 0,
            };
            let run = steps(begun, plan, need, bytes, store);
            let end = sums::mixed_cells(run.sum, store, STORE);
            print_run(streams, run, end)
        }
    }
}

// A case that is read: N_D, the fresh starts, the steps.
fn start(
    streams: &mut Standard,
    second: bool,
    plan: &[u8],
    phase: u32,
    bytes: &[u8],
    store: &mut [u16; STORE],
) -> bool {
    let need = either::need(second, plan);
    let tight = mixed_tight(mixed_counts(plan), second, plan, phase, need, store);
    let answer = either::fresh_emitter(second, plan, phase, STORE, store);
    let sum = sums::mixed_start(tight, answer);
    started(streams, answer, sum, second, plan, need, bytes, store)
}

// Reads a plan and steps of these lengths and tries them; false where they could not be read whole or the line was not written.
fn try_case(
    streams: &mut Standard,
    second: bool,
    plan: &mut [u8],
    phase: u32,
    bytes: &mut [u8],
) -> bool {
    if !console::fill(streams, b"emitcases", plan) {
        return false;
    }
    if !console::fill(streams, b"emitcases", bytes) {
        return false;
    }
    let mut store = [BEFORE; STORE];
    start(streams, second, plan, phase, bytes, &mut store)
}

// One case; false where the input has ended, or this case was not read or not printed.
fn one_case(streams: &mut Standard) -> bool {
    let mut head = [0u8; 16];
    if !console::fill(streams, b"emitcases", &mut head) {
        return false;
    }
    let length = console::number_at(&head, 0);
    let phase = console::number_at(&head, 1);
    let count = console::number_at(&head, 2);
    let second = console::number_at(&head, 3) == 2;
    let mut plan = io::large_buffer();
    let mut bytes = io::large_buffer();
    let n = console::at_most(length as usize, &plan);
    let k = console::at_most(count as usize, &bytes);
    try_case(streams, second, &mut plan[..n], phase, &mut bytes[..k])
}

// The lines of up to 1000 cases.
fn main(rt: HostRuntime) {
    let mut streams = console::standard(&rt);
    for _ in 0..1000u32 {
        if !one_case(&mut streams) {
            return;
        }
    }
}
