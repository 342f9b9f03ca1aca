// What a step of each number is given: phase, how much of data, store and symbol, and which data cells are spoiled. The list of the
// numbers stands in tests/emits.py.
use rules::EmitterState;
use trials::Sending;

// The cells of the store, and of a symbol, which has as many as there are subcarriers.
pub(crate) const STORE: usize = 60000;

pub(crate) const SYMBOL: usize = 4096;

// What an emit of a number is given beside the right one, with N_D cells; need is how many places the store needs.
fn emitting(kind: u8, right: Sending, need: usize) -> Sending {
    let mut given = right;
    match kind {
        2 | 13 => given.count = right.count.saturating_sub(1),
        3 => given.count = std::num::wrapping_add_usize(right.count, 1),
        5 => given.phase = std::num::wrapping_add_u32(right.phase, 128),
        7 | 21 => given.store = need.saturating_sub(1),
        10 => given.store = need,
        12 => {
            given.count = 0;
            given.phase = std::num::wrapping_add_u32(right.phase, 128);
            given.symbol = 4095;
        }
        14 => {
            given.count = right.count.saturating_sub(1);
            given.store = need.saturating_sub(1);
        }
        15 => {
            given.count = right.count.saturating_sub(1);
            given.symbol = 4095;
        }
        20 => {
            given.phase = std::num::wrapping_add_u32(right.phase, 128);
            given.store = need.saturating_sub(1);
        }
        _ => {}
    }
    given
}

// What a flush of a number is given beside the right one.
fn flushing(kind: u8, right: Sending, need: usize) -> Sending {
    let mut given = right;
    given.flush = true;
    given.count = 0;
    match kind {
        6 => given.phase = 128,
        8 => given.symbol = 4095,
        9 => given.symbol = 4097,
        11 => given.phase = 4294967295,
        16 => given.store = need.saturating_sub(1),
        18 => given.store = need,
        19 => {
            given.store = need.saturating_sub(1);
            given.symbol = 4095;
        }
        _ => {}
    }
    given
}

// What a step of a number is given; nd is N_D. The numbers 18, 19 and those from 22 on are flushes.
pub(crate) fn sending(kind: u8, state: EmitterState, nd: usize, need: usize) -> Sending {
    let right = Sending {
        flush: false,
        phase: state.phase,
        count: nd,
        store: STORE,
        symbol: SYMBOL,
    };
    match kind {
        1 | 6 | 8 | 9 | 11 | 16 | 18 | 19 | 22..=255 => flushing(kind, right, need),
        _ => emitting(kind, right, need),
    }
}

// Fills the n cells that a step is given, spoils those that it names, and gives the generator's last number.
pub(crate) fn filled(x: u32, kind: u8, n: usize, cells: &mut [u16]) -> u32 {
    let last = samples::draw(x, n, cells);
    let mut place = SYMBOL;
    let mut cell: u16 = 16384;
    let mut end = SYMBOL;
    match kind {
        4 => {
            place = n / 2;
            end = n.saturating_sub(1);
        }
        13 => place = 0,
        15 | 17 | 21 => {
            place = 0;
            cell = 32768;
        }
        _ => {}
    }
    samples::swap(cells, place, cell);
    samples::swap(cells, end, 65535);
    last
}
