// The second emitter, which takes the figure of document 003 literally (document 02, request 09): a fresh start, an emit step and a flush step on
// the literal store, whose delay lines the commutator goes round cell by cell (crate commutator). The entries read the plan bytes anew and ask
// nothing of their caller; what they refuse, they leave as it was. All else is shared with the first emitter.
#![tactic(auto)]

ghost use Rattle.std.specs.Prelude.{◌≡◌};
ghost use Rattle.rules.specs.Device.{khz50};
ghost use Rattle.rules.specs.Steps.{starts, leaves};
ghost use Rattle.figure.specs.Steps.{figure_start_step, figure_send_step, figure_emit_step, figure_flush_step};
ghost use Rattle.sending.specs.Sent.{given_by, at, giving};

use rules::{EmitterState, Refusal, RefusedStep};

// A fresh second emitter at a phase: the lines of the lent literal store filled.
pub fn fresh_emitter(plan: &[u8], phase: u32, store: &mut [u16]) -> Result<EmitterState, Refusal>
    ensures { starts result store.new ≡ figure_start_step khz50 plan.now phase store.old }
{
    let d = rules::khz50_device();
    let mut kc = [0u16; 4096];
    let n = startgrounds::admit_emitter(d, plan, phase, store.len(), &mut kc, true)?;
    let ni = n as usize;
    figureflushes::fresh_lines(d, plan, phase as usize, &kc[..ni], store);
    Ok(EmitterState { phase })
}

// An emit or flush step; a flush reads no profile and no input. Where no ground refuses it, the input symbol goes through the delay lines, and the
// cells that come out go out on their subcarriers.
fn send(
    plan: &[u8],
    profile: &[u8],
    flushing: bool,
    state: EmitterState,
    store: &mut [u16],
    input: &[u16],
    symbol: &mut [u16],
) -> Result<EmitterState, RefusedStep<EmitterState>>
    ensures { leaves result store.new symbol.new ≡ figure_send_step khz50 plan.now (at state store.old) (giving (given_by flushing input.now) profile.now symbol.old) }
{
    let d = rules::khz50_device();
    let mut marks = [0u16; 4096];
    let mut car = [0u16; 4096];
    let mut x = [0u16; 4096];
    match sendgrounds::admit(
        d,
        plan,
        profile,
        flushing,
        state,
        store.len(),
        symbol.len(),
        input.len(),
        input,
        &mut marks,
        &mut car,
        &mut x,
        true,
    ) {
        Err(refusal) => Err(RefusedStep { refusal, state }),
        Ok(n) => {
            let ni = n as usize;
            let m = records::number_at(plan, 6);
            commutator::pass(m, store, &mut x[..ni]);
            line::place(d, plan, &marks, &car, &x[..ni], symbol);
            Ok(sending::next_state(state))
        }
    }
}

// An emit step under a load profile: the input goes through the delay lines as an input symbol, and one symbol on the line is sent.
pub fn emit(
    plan: &[u8],
    profile: &[u8],
    state: EmitterState,
    store: &mut [u16],
    input: &[u16],
    symbol: &mut [u16],
) -> Result<EmitterState, RefusedStep<EmitterState>>
    ensures { leaves result store.new symbol.new ≡ figure_emit_step khz50 plan.now profile.now state store.old input.now symbol.old }
{
    send(plan, profile, false, state, store, input, symbol)
}

// A flush step: the same with filler in every data cell, and without a profile.
pub fn flush(
    plan: &[u8],
    state: EmitterState,
    store: &mut [u16],
    symbol: &mut [u16],
) -> Result<EmitterState, RefusedStep<EmitterState>>
    ensures { leaves result store.new symbol.new ≡ figure_flush_step khz50 plan.now state store.old symbol.old }
{
    let no_profile = [0u8; 1];
    let no_data = [0u16; 1];
    send(
        plan,
        &no_profile[..0],
        true,
        state,
        store,
        &no_data[..0],
        symbol,
    )
}
