// Steps that are given numbers: the entries of both ends of the line over the first cells of what they are lent. With these a program tries
// stores, symbols and data buffers that are too short.
#![tactic(auto)]

ghost use Rattle.std.specs.Prelude.{◌≡◌};
ghost use Rattle.io.specs.Counts.{IsPrefixLen};
ghost use Rattle.rules.specs.Device.{khz50};
ghost use Rattle.rules.specs.Plan.{plan_of};
ghost use Rattle.rules.specs.Grounds.{verdict};
ghost use Rattle.rules.specs.Frame.{frame_of};
ghost use Rattle.rules.specs.Store.{emitter_places, receiver_places};
ghost use Rattle.rules.specs.Steps.{leaves, starts, data_count_answer};
ghost use Rattle.rules.specs.Receive.{hears, listens};
ghost use Rattle.trials.specs.Parts.{Front, counted, needed, send_part, receive_part, start_part, listen_part};

use rules::{EmitterState, Heard, ReceiverState, Refusal, RefusedStep};

// What a send is given: whether it is a flush, the state, and how many cells of data, store and symbol.
#[derive(Clone, Copy)]
pub struct Sending {
    pub flush: bool,
    pub phase: u32,
    pub count: usize,
    pub store: usize,
    pub symbol: usize,
}

// What a receive is given: the state, and how many cells of store, symbol and data buffer.
#[derive(Clone, Copy)]
pub struct Receiving {
    pub phase: u32,
    pub heard: u32,
    pub store: usize,
    pub symbol: usize,
    pub buffer: usize,
}

// How many of the cells to lend: n, or all where there are fewer.
pub fn at_most(n: usize, cells: &[u16]) -> usize
    ensures prefix_len { IsPrefixLen result cells.now }
    ensures front { Front result n cells.now }
{
    n.min(cells.len())
}

// N_D at a phase, 0 where it is refused.
pub fn data_count(plan: &[u8], phase: u32) -> usize
    ensures { result ≡ counted (data_count_answer khz50 plan.now phase) }
{
    cells::data_count(plan, phase).unwrap_or(0) as usize
}

// The places that an emitter's store needs under an accepted plan, 0 under another.
pub fn emitter_need(plan: &[u8]) -> usize
    ensures { result ≡ needed (emitter_places (frame_of khz50 (plan_of plan.now))) (verdict khz50 plan.now) }
{
    // By hand: by `map_or` the closure needs a `requires` of its own, that the plan is accepted, and is longer than this match.
    match judge::judge(plan) {
        Ok(n) => places::emitter_places(records::number_at(plan, 6), n as usize),
        Err(_) => 0,
    }
}

// The places that a receiver's store needs under an accepted plan, 0 under another.
pub fn receiver_need(plan: &[u8]) -> usize
    ensures { result ≡ needed (receiver_places (frame_of khz50 (plan_of plan.now))) (verdict khz50 plan.now) }
{
    // By hand: by `map_or` the closure needs a `requires` of its own, that the plan is accepted, and is longer than this match.
    match judge::judge(plan) {
        Ok(n) => places::receiver_places(records::number_at(plan, 6), n as usize),
        Err(_) => 0,
    }
}

// An emit or flush step; a flush takes no profile.
pub fn send(
    plan: &[u8],
    profile: &[u8],
    given: Sending,
    store: &mut [u16],
    cells: &[u16],
    symbol: &mut [u16],
) -> Result<EmitterState, RefusedStep<EmitterState>>
    ensures { leaves result store.new symbol.new ≡ send_part plan.now profile.now given store.old cells.now symbol.old }
{
    let state = EmitterState { phase: given.phase };
    let places = at_most(given.store, store);
    let width = at_most(given.symbol, symbol);
    if given.flush {
        return emitter::flush(plan, state, &mut store[..places], &mut symbol[..width]);
    }
    let n = at_most(given.count, cells);
    emitter::emit(
        plan,
        profile,
        state,
        &mut store[..places],
        &cells[..n],
        &mut symbol[..width],
    )
}

// A receive step.
pub fn receive(
    plan: &[u8],
    profile: &[u8],
    given: Receiving,
    store: &mut [u16],
    symbol: &[u16],
    buffer: &mut [u16],
) -> Result<Heard<ReceiverState>, RefusedStep<ReceiverState>>
    ensures { hears result store.new buffer.new ≡ receive_part plan.now profile.now given store.old symbol.now buffer.old }
{
    let state = ReceiverState {
        phase: given.phase,
        heard: given.heard,
    };
    let places = at_most(given.store, store);
    let width = at_most(given.symbol, symbol);
    let room = at_most(given.buffer, buffer);
    receiver::receive(
        plan,
        profile,
        state,
        &mut store[..places],
        &symbol[..width],
        &mut buffer[..room],
    )
}

// A fresh emitter in the first n cells of the store.
pub fn fresh_emitter(
    plan: &[u8],
    phase: u32,
    n: usize,
    store: &mut [u16],
) -> Result<EmitterState, Refusal>
    ensures { starts result store.new ≡ start_part plan.now phase n store.old }
{
    let places = at_most(n, store);
    fresh::fresh_emitter(plan, phase, &mut store[..places])
}

// A fresh receiver in the first n cells of the store.
pub fn fresh_receiver(
    plan: &[u8],
    phase: u32,
    n: usize,
    store: &mut [u16],
) -> Result<ReceiverState, Refusal>
    ensures { listens result store.new ≡ listen_part plan.now phase n store.old }
{
    let places = at_most(n, store);
    fresh::fresh_receiver(plan, phase, &mut store[..places])
}
