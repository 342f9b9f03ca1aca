// Both emitters under trial, and what is compared of them.
ghost use Rattle.std.specs.Prelude.{◌≡◌, not, length, ◌==◌, slice_index};
ghost use Rattle.samples.specs.Inputs.{first_of};

use console::Standard;
use rules::{EmitterState, Refusal, RefusedStep};

// The cells of a store, and of a symbol.
pub(crate) const STORE: usize = 60000;

pub(crate) const SYMBOL: usize = 4096;

// The code of a step that sent, and of a fresh start.
pub(crate) const SENT: u32 = 300;

// The code of a refusal by ground 16, which hands back a number that is no phase.
const NO_PHASE: u32 = 116;

// The pair: M, and how many cells the store of each needs; the starting phase, the number of the next symbol, the phase that both have come
// to, and whether all was the same so far; then the numbers of the line.
#[derive(Clone, Copy)]
pub(crate) struct Pair {
    pub depth: u32,
    pub first_need: usize,
    pub second_need: usize,
    pub start: u32,
    pub t: u32,
    pub phase: u32,
    pub same: bool,
    pub phases: u32,
    pub symbols: u32,
    pub refused: u32,
}

// What an emitter answered: the code, the place of a refusal, 0 of another answer, and the phase that is handed back, 0 of a refused start.
#[derive(Clone, Copy)]
pub(crate) struct Answer {
    pub code: u32,
    pub place: u32,
    pub phase: u32,
}

// One more.
pub(crate) fn more(n: u32) -> u32 {
    std::num::wrapping_add_u32(n, 1)
}

// The answer with the code of a refusal.
fn refused(refusal: Refusal, phase: u32) -> Answer {
    Answer {
        code: std::num::wrapping_add_u32(100, refusal.number),
        place: refusal.place,
        phase,
    }
}

// The answer with the code of a step that sent, and of a fresh start.
fn sent(state: EmitterState) -> Answer {
    Answer {
        code: SENT,
        place: 0,
        phase: state.phase,
    }
}

// What a fresh start answered.
pub(crate) fn start_of(answer: Result<EmitterState, Refusal>) -> Answer {
    match answer {
        Ok(state) => sent(state),
        Err(refusal) => refused(refusal, 0),
    }
}

// What a step answered.
pub(crate) fn step_of(answer: Result<EmitterState, RefusedStep<EmitterState>>) -> Answer {
    match answer {
        Ok(state) => sent(state),
        Err(step) => refused(step.refusal, step.state.phase),
    }
}

// The pair after a difference; the first is printed, as a text with its numbers.
fn differs(streams: &mut Standard, pair: Pair, text: &[u8], numbers: [u32; 7]) -> Pair {
    if pair.same {
        console::print_line(streams, b"figurecheck", text, numbers);
    }
    let mut next = pair;
    next.same = false;
    next
}

// The pair after a difference of two numbers of the answers.
fn answers_differ(streams: &mut Standard, pair: Pair, text: &[u8], one: u32, other: u32) -> Pair {
    differs(
        streams,
        pair,
        text,
        [pair.start, pair.t, one, other, 0, 0, 0],
    )
}

// The pair after answers whose codes are right: place and phase have to be the same. A phase that is none is not taken back.
fn agreed(streams: &mut Standard, pair: Pair, code: u32, first: Answer, second: Answer) -> Pair {
    if first.place != second.place {
        return answers_differ(
            streams,
            pair,
            b"differs phase # symbol # place # second #\n",
            first.place,
            second.place,
        );
    }
    if first.phase != second.phase {
        return answers_differ(
            streams,
            pair,
            b"differs phase # symbol # next # second #\n",
            first.phase,
            second.phase,
        );
    }
    let mut next = pair;
    if code != SENT {
        next.refused = more(pair.refused);
    }
    if code != NO_PHASE {
        next.phase = first.phase;
    }
    next
}

// The pair after these answers, which should have these codes.
pub(crate) fn answered(
    streams: &mut Standard,
    pair: Pair,
    code: u32,
    second_code: u32,
    first: Answer,
    second: Answer,
) -> Pair {
    if first.code != code {
        return answers_differ(
            streams,
            pair,
            b"differs phase # symbol # answer # first #\n",
            code,
            first.code,
        );
    }
    if second.code != second_code {
        return answers_differ(
            streams,
            pair,
            b"differs phase # symbol # answer # second #\n",
            second_code,
            second.code,
        );
    }
    agreed(streams, pair, code, first, second)
}

// The lowest subcarrier whose cells differ; the length where there is none.
fn first_apart(first: &[u16], second: &[u16]) -> usize
    ensures { result ≡ first_of (λ k. not (slice_index first.now k == slice_index second.now k)) (length first.now) }
{
    for (k, cell) in first.iter().enumerate() {
        if *cell != samples::at(second, k) {
            return k;
        }
    }
    first.len()
}

// The pair after the two symbols were compared.
pub(crate) fn compared(
    streams: &mut Standard,
    pair: Pair,
    first: &[u16; SYMBOL],
    second: &[u16; SYMBOL],
) -> Pair {
    let k = first_apart(first, second);
    if SYMBOL <= k {
        return pair;
    }
    let one = samples::at(first, k);
    let other = samples::at(second, k);
    differs(
        streams,
        pair,
        b"differs phase # symbol # subcarrier # first # second #\n",
        [pair.start, pair.t, k as u32, one as u32, other as u32, 0, 0],
    )
}
