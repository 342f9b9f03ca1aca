// The steps of figurecheck, each given to both emitters: before each right one a wrong one, which both have to refuse.
use crate::pair::{Pair, SENT, STORE, SYMBOL, answered, compared, step_of};
use console::Standard;
use trials::Sending;

// The kinds of steps: each wrong one by what is wrong with it, and the right one.
#[derive(Clone, Copy, PartialEq, Eq)]
pub(crate) enum StepKind {
    // A cell less than N_D.
    CellTooFew,
    // The cell in the middle is too high.
    CellTooHigh,
    // The phase is 128 too high.
    PhaseTooHigh,
    // A flush at phase 128.
    FlushPastLastPhase,
    // A flush with a symbol of 4,095 cells.
    FlushShortSymbol,
    // The store is a cell too short.
    ShortStore,
    // Nothing is wrong.
    Right,
}

impl StepKind {
    // The wrong kind with a number; there are six, over and over.
    pub(crate) fn wrong(number: u32) -> StepKind {
        match number % 6 {
            0 => StepKind::CellTooFew,
            1 => StepKind::CellTooHigh,
            2 => StepKind::PhaseTooHigh,
            3 => StepKind::FlushPastLastPhase,
            4 => StepKind::FlushShortSymbol,
            _ => StepKind::ShortStore,
        }
    }
}

// The load of every subcarrier, and the highest data cell with it.
const LOAD: u8 = 14;

const HIGHEST: u16 = 16383;

// What stands in both symbols before a step; it is neither data nor a mark.
const BEFORE: u16 = 43981;

// One less, 0 of 0.
fn less(n: usize) -> usize {
    if n == 0 {
        return 0;
    }
    n - 1
}

// What a step of a kind is given; nd is N_D, and need is what the emitter's store needs.
fn sending(pair: Pair, kind: StepKind, nd: usize, need: usize) -> Sending {
    let mut given = Sending {
        flush: false,
        phase: pair.phase,
        count: nd,
        store: STORE,
        symbol: SYMBOL,
    };
    match kind {
        StepKind::CellTooFew => given.count = less(nd),
        StepKind::PhaseTooHigh => given.phase = std::num::wrapping_add_u32(pair.phase, 128),
        StepKind::FlushPastLastPhase => {
            given.flush = true;
            given.phase = 128;
        }
        StepKind::FlushShortSymbol => {
            given.flush = true;
            given.symbol = 4095;
        }
        StepKind::ShortStore => given.store = less(need),
        StepKind::Right => given.flush = samples::inputs::is_flush(pair.t),
        StepKind::CellTooHigh => {}
    }
    given
}

// The code of the first emitter's answer to a kind.
fn code_of(kind: StepKind) -> u32 {
    match kind {
        StepKind::CellTooFew => 118,
        StepKind::CellTooHigh => 119,
        StepKind::PhaseTooHigh | StepKind::FlushPastLastPhase => 116,
        StepKind::FlushShortSymbol | StepKind::ShortStore => 117,
        StepKind::Right => SENT,
    }
}

// That of the second's: a store that is too short it refuses by 27.
fn second_code_of(kind: StepKind) -> u32 {
    if kind == StepKind::ShortStore {
        return 127;
    }
    code_of(kind)
}

// Puts the data of the pair's next symbol into the first nd cells, of a kind with a cell too high the one in the middle too high.
fn fill(pair: Pair, kind: StepKind, nd: usize, cells: &mut [u16]) {
    let limits = [HIGHEST; SYMBOL];
    let seed = samples::inputs::seed(pair.start, pair.t);
    samples::inputs::draw(seed, nd, &limits, cells);
    if kind == StepKind::CellTooHigh {
        samples::swap(cells, nd / 2, 16384);
    }
}

// The pair after a step of a kind; nd is N_D. Stores that are too short are tried only where one is needed.
pub(crate) fn step(
    streams: &mut Standard,
    pair: Pair,
    kind: StepKind,
    nd: usize,
    plan: &[u8],
    first: &mut [u16; STORE],
    second: &mut [u16; STORE],
) -> Pair {
    if kind == StepKind::ShortStore && pair.first_need == 0 {
        return pair;
    }
    let profile = [LOAD; SYMBOL];
    let mut cells = [0u16; SYMBOL];
    fill(pair, kind, nd, &mut cells);
    let mut symbol = [BEFORE; SYMBOL];
    let given = sending(pair, kind, nd, pair.first_need);
    let one = trials::send(plan, &profile, given, first, &cells, &mut symbol);
    let mut second_symbol = [BEFORE; SYMBOL];
    let second_given = sending(pair, kind, nd, pair.second_need);
    let other = figuretrials::send(
        plan,
        &profile,
        second_given,
        second,
        &cells,
        &mut second_symbol,
    );
    let next = answered(
        streams,
        pair,
        code_of(kind),
        second_code_of(kind),
        step_of(one),
        step_of(other),
    );
    compared(streams, next, &symbol, &second_symbol)
}
