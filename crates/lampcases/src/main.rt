// Gives symbols to `lamp::lamp` in the executed cases and prints what tests/lamps.py works out with the second model: a line for each case,
// `lit # of # #`, how many lights are lit of how many pilots after the last symbol, and the checksum of the answer and list of `pilots::pilots`
// and of the answer, the lights and the record after each symbol; or `refused # # #` with number, place and checksum, where the last
// symbol was refused. Standard input holds, for each case, six numbers of four bytes each, high byte first: the plan's length, the
// record's, how many cells a symbol has, how many symbols there are, what fills the first, and how many changes follow; then the plan, the
// record, and for each change the number of a symbol, a subcarrier and the cell that stands there from that symbol on. tests/lamps.py
// makes stdin and stdout.
#![tactic(auto)]

ghost use Rattle.io.specs.Counts.{IsPrefixLen};

use console::Standard;
use lampgrounds::LampAnswer;
use pilots::PILOTS;
use rules::Refusal;

// The cells that a symbol may have, one more than is right.
const CELLS: usize = 4097;

// The bytes that a record may have.
const RECORD: usize = 256;

// The bytes that the changes may have: 12 for each of 2,048.
const CHANGES: usize = 24576;

// A case: how many cells a symbol has, how many symbols there are, and how many changes.
#[derive(Clone, Copy)]
struct Case {
    cells: usize,
    symbols: u32,
    changes: u32,
}

// A case as it runs: the last answer, how many lights of it are lit, and the checksum.
#[derive(Clone, Copy)]
struct Run {
    answer: Result<u32, Refusal>,
    lit: u32,
    sum: u32,
}

// The checksum with some bytes more.
fn mixed_bytes(sum: u32, bytes: &[u8]) -> u32 {
    let mut mix = sum;
    for byte in bytes {
        mix = sums::mixed(mix, u32::from(*byte));
    }
    mix
}

// How many cells to lend: n, or all where there are fewer.
fn at_most(n: usize, cells: &[u16]) -> usize
    ensures { IsPrefixLen result cells.now }
{
    if n < cells.len() {
        return n;
    }
    cells.len()
}

// How many lights are lit.
fn lit_of(lights: &[u8]) -> u32 {
    let mut lit: u32 = 0;
    for light in lights {
        lit = std::num::wrapping_add_u32(lit, u32::from(*light));
    }
    lit
}

// Makes change i, if it is one of symbol t.
fn change(changes: &[u8], i: u32, t: u32, symbol: &mut [u16]) {
    let at = (i as u64 * 3 % 4294967296) as u32;
    if console::number_at(changes, at) != t {
        return;
    }
    let k = console::number_at(changes, std::num::wrapping_add_u32(at, 1));
    let x = console::number_at(changes, std::num::wrapping_add_u32(at, 2));
    samples::swap(symbol, k as usize, (x % 65536) as u16);
}

// Makes the changes of symbol t, in their order.
fn change_all(case: Case, changes: &[u8], t: u32, symbol: &mut [u16]) {
    for i in 0..case.changes {
        change(changes, i, t, symbol);
    }
}

// The run after one symbol.
fn step(run: Run, plan: &[u8], symbol: &[u16], counts: &mut [u8]) -> Run {
    let said: LampAnswer = lamp::lamp(plan, symbol, counts);
    let answer = said.answer;
    let lights = said.lights;
    let sum = mixed_bytes(sums::mixed_count(run.sum, answer), &lights);
    Run {
        answer,
        lit: lit_of(&lights),
        sum: mixed_bytes(sum, counts),
    }
}

// The run after all symbols.
fn steps(
    begun: Run,
    case: Case,
    plan: &[u8],
    changes: &[u8],
    symbol: &mut [u16],
    counts: &mut [u8],
) -> Run {
    let mut run = begun;
    for t in 0..case.symbols {
        change_all(case, changes, t, symbol);
        run = step(run, plan, symbol, counts);
    }
    run
}

// The run before the first symbol: the pilots are asked for.
fn begin(plan: &[u8]) -> Run {
    let found = pilots::pilots(plan);
    let answer = found.answer;
    let list = found.list;
    Run {
        answer,
        lit: 0,
        sum: sums::mixed_cells(sums::mixed_count(1, answer), &list, PILOTS),
    }
}

// Prints the line of a run; false where it was not written.
fn print_run(streams: &mut Standard, run: Run) -> bool {
    match run.answer {
        Err(refusal) => console::print_refused(
            streams,
            b"lampcases",
            refusal.number,
            refusal.place,
            run.sum,
        ),
        Ok(n) => console::print_line(
            streams,
            b"lampcases",
            b"lit # of # #\n",
            [run.lit, n, run.sum, 0, 0, 0, 0],
        ),
    }
}

// Reads the plan, the record and the changes of a case, and runs it; false where they could not be read whole or its line was not written.
fn run_case(
    streams: &mut Standard,
    case: Case,
    filler: u16,
    plan: &mut [u8],
    counts: &mut [u8],
    changes: &mut [u8],
) -> bool {
    if !console::fill(streams, b"lampcases", plan) {
        return false;
    }
    if !console::fill(streams, b"lampcases", counts) {
        return false;
    }
    if !console::fill(streams, b"lampcases", changes) {
        return false;
    }
    let mut symbol = [filler; CELLS];
    let n = at_most(case.cells, &symbol);
    print_run(
        streams,
        steps(begin(plan), case, plan, changes, &mut symbol[..n], counts),
    )
}

// One case; false where the input has ended, or this case was not read or not printed.
fn one_case(streams: &mut Standard) -> bool {
    let mut head = [0u8; 24];
    if !console::fill(streams, b"lampcases", &mut head) {
        return false;
    }
    let mut buf = io::large_buffer();
    let mut counts = [0u8; RECORD];
    let mut changes = [0u8; CHANGES];
    let plan = console::at_most(console::number_at(&head, 0) as usize, &buf);
    let record = console::at_most(console::number_at(&head, 1) as usize, &counts);
    let case = Case {
        cells: console::number_at(&head, 2) as usize,
        symbols: console::number_at(&head, 3),
        changes: console::number_at(&head, 5),
    };
    let bytes = console::at_most(case.changes as usize * 12, &changes);
    run_case(
        streams,
        case,
        (console::number_at(&head, 4) % 65536) as u16,
        &mut buf[..plan],
        &mut counts[..record],
        &mut changes[..bytes],
    )
}

// The lines of up to 10,000 cases.
fn main(rt: HostRuntime) {
    let mut streams = console::standard(&rt);
    for _ in 0..10000u32 {
        if !one_case(&mut streams) {
            return;
        }
    }
}
