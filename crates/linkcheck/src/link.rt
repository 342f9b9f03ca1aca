// The link under trial, and what its steps have in common.
use console::Standard;
use rules::{EmitterState, ReceiverState, Refusal};

// The cells of a store, and of a symbol.
pub(crate) const STORE: usize = 60000;

pub(crate) const SYMBOL: usize = 4096;

// Phases are 0 to 127.
pub(crate) const PHASES: usize = 128;

// The code of a step that sent, and of a fresh start.
pub(crate) const SENT: u32 = 300;

// The link: M, and how many cells the store of each end needs; the starting phase, the number of the next symbol, both states, and whether all was right so far; then the
// numbers of the line.
#[derive(Clone, Copy)]
pub(crate) struct Link {
    pub depth: u32,
    pub emitter_need: usize,
    pub receiver_need: usize,
    pub start: u32,
    pub t: u32,
    pub emitter: EmitterState,
    pub receiver: ReceiverState,
    pub right: bool,
    pub phases: u32,
    pub symbols: u32,
    pub cells: u32,
    pub flushes: u32,
    pub refused: u32,
}

// One more.
pub(crate) fn more(n: u32) -> u32 {
    std::num::wrapping_add_u32(n, 1)
}

// One less, 0 of 0.
pub(crate) fn less(n: usize) -> usize {
    if n == 0 {
        return 0;
    }
    n - 1
}

// The code of a refusal, by the number of its ground.
pub(crate) fn refused(refusal: Refusal) -> u32 {
    std::num::wrapping_add_u32(100, refusal.number)
}

// The phase of an input symbol.
pub(crate) fn phase_of(link: Link, input: u32) -> u32 {
    std::num::wrapping_add_u32(link.start, input) % 128
}

// N_D of an input symbol, from the counts of all phases.
pub(crate) fn count_of(link: Link, input: u32, counts: &[u16; PHASES]) -> usize {
    samples::at(counts, phase_of(link, input) as usize) as usize
}

// The link after a difference; the first is printed, as a text with its numbers.
pub(crate) fn differs(streams: &mut Standard, link: Link, text: &[u8], numbers: [u32; 7]) -> Link {
    if link.right {
        console::print_line(streams, b"linkcheck", text, numbers);
    }
    let mut next = link;
    next.right = false;
    next
}

// The link after an answer of this code.
pub(crate) fn answered(streams: &mut Standard, link: Link, wanted: u32, got: u32) -> Link {
    if wanted == got {
        return link;
    }
    differs(
        streams,
        link,
        b"differs phase # symbol # answer # received #\n",
        [link.start, link.t, wanted, got, 0, 0, 0],
    )
}
