// The sends of linkcheck: before each right one a wrong one, which has to be refused.
use crate::link::{Link, SENT, STORE, SYMBOL, answered, less, more, refused};
use console::Standard;
use rules::{EmitterState, RefusedStep};
use trials::Sending;

// The kinds of sends: each wrong one by what is wrong with it, and the right one.
#[derive(Clone, Copy, PartialEq, Eq)]
pub(crate) enum SendKind {
    // A cell less than N_D.
    CellTooFew,
    // A cell more than N_D.
    CellTooMany,
    // The cell in the middle is one above its limit.
    CellTooHigh,
    // The phase is 128 too high.
    PhaseTooHigh,
    // A flush at phase 128.
    FlushPastLastPhase,
    // A flush with a symbol of 4,095 cells.
    FlushShortSymbol,
    // The store is a cell too short.
    ShortStore,
    // The first cell is the mark of filler.
    FillerAsData,
    // Nothing is wrong.
    Right,
}

impl SendKind {
    // The wrong kind with a number; there are eight, over and over.
    pub(crate) fn wrong(number: u32) -> SendKind {
        match number % 8 {
            0 => SendKind::CellTooFew,
            1 => SendKind::CellTooMany,
            2 => SendKind::CellTooHigh,
            3 => SendKind::PhaseTooHigh,
            4 => SendKind::FlushPastLastPhase,
            5 => SendKind::FlushShortSymbol,
            6 => SendKind::ShortStore,
            _ => SendKind::FillerAsData,
        }
    }
}

// What a send of a kind is given; nd is N_D.
fn sending(link: Link, kind: SendKind, nd: usize) -> Sending {
    let state = link.emitter;
    let mut given = Sending {
        flush: false,
        phase: state.phase,
        count: nd,
        store: STORE,
        symbol: SYMBOL,
    };
    match kind {
        SendKind::CellTooFew => given.count = less(nd),
        SendKind::CellTooMany => given.count = std::num::wrapping_add_usize(nd, 1),
        SendKind::PhaseTooHigh => given.phase = std::num::wrapping_add_u32(state.phase, 128),
        SendKind::FlushPastLastPhase => {
            given.flush = true;
            given.phase = 128;
        }
        SendKind::FlushShortSymbol => {
            given.flush = true;
            given.symbol = 4095;
        }
        SendKind::ShortStore => given.store = less(link.emitter_need),
        SendKind::Right => given.flush = samples::inputs::is_flush(link.t),
        SendKind::CellTooHigh | SendKind::FillerAsData => {}
    }
    given
}

// Which data cell a kind spoils, 4096 where none.
fn place_of(kind: SendKind, nd: usize) -> usize {
    match kind {
        SendKind::CellTooHigh => nd / 2,
        SendKind::FillerAsData => 0,
        _ => SYMBOL,
    }
}

// By what it is spoiled: the number above its limit, or the mark of filler.
fn cell_of(kind: SendKind, limit: u16) -> u16 {
    if kind == SendKind::CellTooHigh {
        return std::num::wrapping_add_u16(limit, 1);
    }
    0x8001
}

// The code of the answer to a kind.
fn code_of(kind: SendKind) -> u32 {
    match kind {
        SendKind::CellTooFew | SendKind::CellTooMany => 118,
        SendKind::CellTooHigh | SendKind::FillerAsData => 119,
        SendKind::PhaseTooHigh | SendKind::FlushPastLastPhase => 116,
        SendKind::FlushShortSymbol | SendKind::ShortStore => 117,
        SendKind::Right => SENT,
    }
}

// Whether a kind is given the link's own state: a wrong phase is another.
fn has_own_state(kind: SendKind) -> bool {
    match kind {
        SendKind::PhaseTooHigh | SendKind::FlushPastLastPhase => false,
        _ => true,
    }
}

// The link after a send with this answer. A state other than the link's own is not taken back.
fn told(
    streams: &mut Standard,
    link: Link,
    kind: SendKind,
    answer: Result<EmitterState, RefusedStep<EmitterState>>,
) -> Link {
    let mut next = link;
    let mut got = SENT;
    match answer {
        Ok(state) => next.emitter = state,
        Err(step) => {
            got = refused(step.refusal);
            next.refused = more(link.refused);
            if has_own_state(kind) {
                next.emitter = step.state;
            }
        }
    }
    answered(streams, next, code_of(kind), got)
}

// The link after a send of a kind; nd is N_D, and the limits are those of its data cells. A store that is too short is tried only where one is
// needed.
pub(crate) fn send(
    streams: &mut Standard,
    link: Link,
    kind: SendKind,
    nd: usize,
    plan: &[u8],
    profile: &[u8],
    limits: &[u16; SYMBOL],
    store: &mut [u16; STORE],
    symbol: &mut [u16; SYMBOL],
) -> Link {
    if kind == SendKind::ShortStore && link.emitter_need == 0 {
        return link;
    }
    let given = sending(link, kind, nd);
    let seed = samples::inputs::seed(link.start, link.t);
    let mut cells = [0u16; SYMBOL];
    samples::inputs::draw(seed, given.count, limits, &mut cells);
    let place = place_of(kind, nd);
    samples::swap(&mut cells, place, cell_of(kind, samples::at(limits, place)));
    let answer = trials::send(plan, profile, given, store, &cells, symbol);
    told(streams, link, kind, answer)
}
