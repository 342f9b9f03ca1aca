// Either emitter's entries over the first cells of what they are lent: the first's (crate trials), or the second's (crate figuretrials).
use rules::{EmitterState, Refusal, RefusedStep};
use trials::Sending;

// The places that the store needs under an accepted plan, 0 under another.
pub(crate) fn need(second: bool, plan: &[u8]) -> usize {
    if second {
        return figuretrials::literal_need(plan);
    }
    trials::emitter_need(plan)
}

// A fresh emitter in the first n cells of the store.
pub(crate) fn fresh_emitter(
    second: bool,
    plan: &[u8],
    phase: u32,
    n: usize,
    store: &mut [u16],
) -> Result<EmitterState, Refusal> {
    if second {
        return figuretrials::fresh_emitter(plan, phase, n, store);
    }
    trials::fresh_emitter(plan, phase, n, store)
}

// An emit or flush step.
pub(crate) fn send(
    second: bool,
    plan: &[u8],
    profile: &[u8],
    given: Sending,
    store: &mut [u16],
    cells: &[u16],
    symbol: &mut [u16],
) -> Result<EmitterState, RefusedStep<EmitterState>> {
    if second {
        return figuretrials::send(plan, profile, given, store, cells, symbol);
    }
    trials::send(plan, profile, given, store, cells, symbol)
}
