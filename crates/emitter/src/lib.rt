// The emitter: an emit step and a flush step. The entries `emit` and `flush` read the plan bytes anew and ask nothing of their caller; what
// they refuse, they leave as it was.
#![tactic(auto)]

ghost use Rattle.std.specs.Prelude.{◌≡◌};
ghost use Rattle.rules.specs.Device.{khz50};
ghost use Rattle.rules.specs.Steps.{leaves, emit_step, flush_step};
ghost use Rattle.sending.specs.Sent.{step_by};

use rules::{EmitterState, RefusedStep};

// An emit or flush step; a flush reads no profile and no input. Where no ground refuses it, the input symbol goes to the places of its cells, and the delayed
// cells go out on their subcarriers.
fn send(
    plan: &[u8],
    profile: &[u8],
    flushing: bool,
    state: EmitterState,
    store: &mut [u16],
    input: &[u16],
    symbol: &mut [u16],
) -> Result<EmitterState, RefusedStep<EmitterState>>
    ensures { leaves result store.new symbol.new ≡ step_by khz50 plan.now profile.now flushing state store.old input.now symbol.old }
{
    let d = rules::khz50_device();
    let mut marks = [0u16; 4096];
    let mut car = [0u16; 4096];
    let mut x = [0u16; 4096];
    match sendgrounds::admit(
        d,
        plan,
        profile,
        flushing,
        state,
        store.len(),
        symbol.len(),
        input.len(),
        input,
        &mut marks,
        &mut car,
        &mut x,
        false,
    ) {
        Err(refusal) => Err(RefusedStep { refusal, state }),
        Ok(n) => {
            let ni = n as usize;
            let m = records::number_at(plan, 6);
            delay::delay(m, store, &mut x[..ni]);
            line::place(d, plan, &marks, &car, &x[..ni], symbol);
            Ok(sending::next_state(state))
        }
    }
}

// An emit step under a load profile: the input goes to the places of its cells as an input symbol, and one symbol on the line is sent.
pub fn emit(
    plan: &[u8],
    profile: &[u8],
    state: EmitterState,
    store: &mut [u16],
    input: &[u16],
    symbol: &mut [u16],
) -> Result<EmitterState, RefusedStep<EmitterState>>
    ensures { leaves result store.new symbol.new ≡ emit_step khz50 plan.now profile.now state store.old input.now symbol.old }
{
    send(plan, profile, false, state, store, input, symbol)
}

// A flush step: the same with filler in every data cell, and without a profile.
pub fn flush(
    plan: &[u8],
    state: EmitterState,
    store: &mut [u16],
    symbol: &mut [u16],
) -> Result<EmitterState, RefusedStep<EmitterState>>
    ensures { leaves result store.new symbol.new ≡ flush_step khz50 plan.now state store.old symbol.old }
{
    let no_profile = [0u8; 1];
    let no_data = [0u16; 1];
    send(
        plan,
        &no_profile[..0],
        true,
        state,
        store,
        &no_data[..0],
        symbol,
    )
}
