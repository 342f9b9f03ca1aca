// Steps of the second emitter that are given numbers, over the first cells of what they are lent, as crate trials has them of the first. With these a
// program tries literal stores and symbols that are too short.
#![tactic(auto)]

ghost use Rattle.std.specs.Prelude.{◌≡◌};
ghost use Rattle.rules.specs.Device.{khz50};
ghost use Rattle.rules.specs.Plan.{plan_of};
ghost use Rattle.rules.specs.Grounds.{verdict};
ghost use Rattle.rules.specs.Frame.{frame_of};
ghost use Rattle.rules.specs.Steps.{leaves, starts};
ghost use Rattle.figure.specs.Steps.{literal_places};
ghost use Rattle.trials.specs.Parts.{needed};
ghost use Rattle.figuretrials.specs.Parts.{send_part, start_part};

use rules::{EmitterState, Refusal, RefusedStep};
use trials::Sending;

// The places that a literal store needs under an accepted plan, 0 under another.
pub fn literal_need(plan: &[u8]) -> usize
    ensures { result ≡ needed (literal_places (frame_of khz50 (plan_of plan.now))) (verdict khz50 plan.now) }
{
    match judge::judge(plan) {
        Ok(n) => figure::literal_places(records::number_at(plan, 6), n as usize),
        Err(_) => 0,
    }
}

// An emit or flush step; a flush takes no profile.
pub fn send(
    plan: &[u8],
    profile: &[u8],
    given: Sending,
    store: &mut [u16],
    cells: &[u16],
    symbol: &mut [u16],
) -> Result<EmitterState, RefusedStep<EmitterState>>
    ensures { leaves result store.new symbol.new ≡ send_part plan.now profile.now given store.old cells.now symbol.old }
{
    let state = EmitterState { phase: given.phase };
    let places = trials::at_most(given.store, store);
    let width = trials::at_most(given.symbol, symbol);
    if given.flush {
        return figureemitter::flush(plan, state, &mut store[..places], &mut symbol[..width]);
    }
    let n = trials::at_most(given.count, cells);
    figureemitter::emit(
        plan,
        profile,
        state,
        &mut store[..places],
        &cells[..n],
        &mut symbol[..width],
    )
}

// A fresh second emitter in the first n cells of the store.
pub fn fresh_emitter(
    plan: &[u8],
    phase: u32,
    n: usize,
    store: &mut [u16],
) -> Result<EmitterState, Refusal>
    ensures { starts result store.new ≡ start_part plan.now phase n store.old }
{
    let places = trials::at_most(n, store);
    figureemitter::fresh_emitter(plan, phase, &mut store[..places])
}
