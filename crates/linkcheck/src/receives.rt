// The receives of linkcheck: before each right one a wrong one, which has to be refused.
ghost use Rattle.std.specs.Prelude.{◌≡◌, get_or};
ghost use Rattle.samples.specs.Inputs.{first_of};
ghost use Rattle.linkcheck.specs.Spoiled.{is_spoiled};

use crate::cell_limits;
use crate::link::{Link, PHASES, STORE, SYMBOL, answered, count_of, differs, less, more, refused};
use console::Standard;
use rules::{Heard, ReceiverState, RefusedStep};
use trials::Receiving;

// The kinds of receives: each wrong one by what is wrong with it, and the right one.
#[derive(Clone, Copy, PartialEq, Eq)]
pub(crate) enum ReceiveKind {
    // The phase is 128 too high.
    PhaseTooHigh,
    // M symbols are said to be heard.
    HeardTooMany,
    // The phase is 128.
    PastLastPhase,
    // The symbol has 4,095 cells.
    ShortSymbol,
    // The store is a cell too short.
    ShortStore,
    // The data buffer is a cell too short.
    ShortBuffer,
    // A scattered placeholder of the symbol is spoiled.
    PlaceholderSpoiled,
    // A data cell of the symbol is one above the limit of its load.
    CellTooHigh,
    // Nothing is wrong.
    Right,
}

impl ReceiveKind {
    // The wrong kind with a number; there are eight, over and over.
    pub(crate) fn wrong(number: u32) -> ReceiveKind {
        match number % 8 {
            0 => ReceiveKind::PhaseTooHigh,
            1 => ReceiveKind::HeardTooMany,
            2 => ReceiveKind::PastLastPhase,
            3 => ReceiveKind::ShortSymbol,
            4 => ReceiveKind::ShortStore,
            5 => ReceiveKind::ShortBuffer,
            6 => ReceiveKind::PlaceholderSpoiled,
            _ => ReceiveKind::CellTooHigh,
        }
    }
}

// The codes of answers: warming, data with the right count, data with another.
const WARMING: u32 = 0;

const DATA: u32 = 1;

const OTHER_COUNT: u32 = 2;

// What is due at a symbol: the code of the right answer, the number of the input symbol that comes out (while warming that of the symbol
// itself), and how many data cells it has.
#[derive(Clone, Copy)]
pub(crate) struct Due {
    pub code: u32,
    pub input: u32,
    pub count: usize,
}

// What is due of the receiver at the link's next symbol.
pub(crate) fn due_of(link: Link, counts: &[u16; PHASES]) -> Due {
    let heard = more(link.t);
    if heard < link.depth {
        return Due {
            code: WARMING,
            input: link.t,
            count: 0,
        };
    }
    let input = std::num::wrapping_sub_u32(heard, link.depth);
    Due {
        code: DATA,
        input,
        count: count_of(link, input, counts),
    }
}

// What a receive of a kind is given, with the count of data cells that are due.
fn receiving(link: Link, kind: ReceiveKind, count: usize) -> Receiving {
    let state = link.receiver;
    let mut given = Receiving {
        phase: state.phase,
        heard: state.heard,
        store: STORE,
        symbol: SYMBOL,
        buffer: SYMBOL,
    };
    match kind {
        ReceiveKind::PhaseTooHigh => {
            given.phase = std::num::wrapping_add_u32(state.phase, 128);
        }
        ReceiveKind::HeardTooMany => given.heard = link.depth,
        ReceiveKind::PastLastPhase => given.phase = 128,
        ReceiveKind::ShortSymbol => given.symbol = 4095,
        ReceiveKind::ShortStore => given.store = less(link.receiver_need),
        ReceiveKind::ShortBuffer => given.buffer = less(count),
        ReceiveKind::PlaceholderSpoiled | ReceiveKind::CellTooHigh | ReceiveKind::Right => {}
    }
    given
}

// Whether a kind is tried: a store that is too short only where one is needed, a data buffer that is not while warming, a spoiled placeholder
// only where there is one, at the place.
fn tried(link: Link, kind: ReceiveKind, code: u32, place: usize) -> bool {
    match kind {
        ReceiveKind::ShortStore => link.receiver_need != 0,
        ReceiveKind::ShortBuffer => code == DATA,
        ReceiveKind::PlaceholderSpoiled => place < SYMBOL,
        _ => true,
    }
}

// Which cell of the symbol a kind spoils: the lowest such; 4096 where none.
fn place_of(kind: ReceiveKind, symbol: &[u16; SYMBOL]) -> usize
    ensures { result ≡ first_of (λ k. is_spoiled kind (get_or symbol.now k 0)) 4096 }
{
    match kind {
        ReceiveKind::PlaceholderSpoiled => samples::inputs::first_placeholder(symbol),
        ReceiveKind::CellTooHigh => samples::inputs::first_data(symbol),
        _ => SYMBOL,
    }
}

// By what it is spoiled: data by the number above the limit of its load.
fn cell_of(kind: ReceiveKind, load: u8) -> u16 {
    if kind == ReceiveKind::CellTooHigh {
        return cell_limits::above(load);
    }
    0
}

// The code of the answer to a kind.
fn code_of(kind: ReceiveKind, due: Due) -> u32 {
    match kind {
        ReceiveKind::PhaseTooHigh | ReceiveKind::HeardTooMany | ReceiveKind::PastLastPhase => 116,
        ReceiveKind::ShortSymbol | ReceiveKind::ShortStore | ReceiveKind::ShortBuffer => 117,
        ReceiveKind::PlaceholderSpoiled | ReceiveKind::CellTooHigh => 120,
        ReceiveKind::Right => due.code,
    }
}

// Whether a kind is given the link's own state: a wrong phase or count of heard symbols is another.
fn has_own_state(kind: ReceiveKind) -> bool {
    match kind {
        ReceiveKind::PhaseTooHigh | ReceiveKind::HeardTooMany | ReceiveKind::PastLastPhase => false,
        _ => true,
    }
}

// The code of data with n cells, of which `count` are due.
fn code_of_data(n: u32, count: usize) -> u32 {
    if n as usize == count {
        return DATA;
    }
    OTHER_COUNT
}

// The link after the data buffer was compared with the first `count` cells of an input symbol.
fn compared(
    streams: &mut Standard,
    link: Link,
    input: u32,
    count: usize,
    limits: &[u16; SYMBOL],
    cells: &[u16; SYMBOL],
) -> Link {
    let at = samples::inputs::first_other(link.start, input, count, limits, cells);
    if SYMBOL <= at {
        return link;
    }
    let wanted = samples::inputs::wanted(link.start, input, count, limits, at);
    let found = samples::at(cells, at);
    differs(
        streams,
        link,
        b"differs phase # symbol # cell # sent # received #\n",
        [
            link.start,
            input,
            at as u32,
            wanted as u32,
            found as u32,
            0,
            0,
        ],
    )
}

// The link after a receive with this answer: a wrong one leaves the data buffer as it was. A state other than the link's own is not taken
// back.
fn told(
    streams: &mut Standard,
    link: Link,
    kind: ReceiveKind,
    due: Due,
    answer: Result<Heard<ReceiverState>, RefusedStep<ReceiverState>>,
    limits: &[u16; SYMBOL],
    cells: &[u16; SYMBOL],
) -> Link {
    let mut next = link;
    let mut got = WARMING;
    match answer {
        Ok(Heard::Warming(state)) => next.receiver = state,
        Ok(Heard::Data(state, n)) => {
            next.receiver = state;
            got = code_of_data(n, due.count);
        }
        Err(step) => {
            next.refused = more(link.refused);
            got = refused(step.refusal);
            if has_own_state(kind) {
                next.receiver = step.state;
            }
        }
    }
    let judged = answered(streams, next, code_of(kind, due), got);
    if kind == ReceiveKind::Right {
        return compared(streams, judged, due.input, due.count, limits, cells);
    }
    compared(streams, judged, link.t, 0, limits, cells)
}

// The link after a receive of a kind, if it is tried; the symbol is spoiled for it, and is then as before. The limits are those of the data
// cells that are due.
pub(crate) fn receive(
    streams: &mut Standard,
    link: Link,
    kind: ReceiveKind,
    due: Due,
    plan: &[u8],
    profile: &[u8],
    limits: &[u16; SYMBOL],
    store: &mut [u16; STORE],
    symbol: &mut [u16; SYMBOL],
) -> Link {
    let place = place_of(kind, symbol);
    if !tried(link, kind, due.code, place) {
        return link;
    }
    let given = receiving(link, kind, due.count);
    let mut cells = [43981u16; SYMBOL];
    let load = cell_limits::load_at(profile, place);
    let old = samples::swap(symbol, place, cell_of(kind, load));
    let answer = trials::receive(plan, profile, given, store, symbol, &mut cells);
    samples::swap(symbol, place, old);
    told(streams, link, kind, due, answer, limits, &cells)
}
