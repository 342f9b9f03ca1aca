// The emitter over two-byte cells: an emit step and a flush step whose store, data and symbol are lent as bytes. The entries try ground 21
// first; what they refuse, they leave as it was, and they ask nothing of their caller.
#![tactic(auto)]

ghost use Rattle.std.specs.Prelude.{◌≡◌, false, ◌||◌, ℕ, ◌*◌, ◌<◌, length, get_or};
ghost use Rattle.counting.specs.Search.{pick};
ghost use Rattle.rules.specs.Device.{khz50};
ghost use Rattle.rules.specs.Fits.{Fits, capacity};
ghost use Rattle.rules.specs.Refusals.{refusal, refused_step};
ghost use Rattle.rules.specs.Plan.{plan_of};
ghost use Rattle.rules.specs.Frame.{frame_of, cells, carrier, line_symbol};
ghost use Rattle.rules.specs.Steps.{leaves};
ghost use Rattle.verdicts.specs.Studied.{Studied};
ghost use Rattle.sending.specs.Sent.{step_by};
ghost use Rattle.bytecells.specs.Octets.{cells_of, bytes_of, odd, Whole};
ghost use Rattle.bytecells.specs.ByteSteps.{sent_bytes, emit_bytes, flush_bytes};

use rules::{Device, EmitterState, Refusal, RefusedStep};

// The symbol on the line that sends the cells x, as bytes.
fn place(d: Device, plan: &[u8], marks: &[u16; 4096], car: &[u16], x: &[u16], symbol: &mut [u8])
    requires { Fits d × Studied d plan.now marks.now × (d.subcarriers ≡ capacity) × (length car.now ≡ 4096) × (length x.now ≡ cells (frame_of d (plan_of plan.now))) × (length symbol.old ≡ 2 * d.subcarriers) × ((i : ℕ) → i < length x.now → get_or car.now i 0 ≡ carrier (frame_of d (plan_of plan.now)) i) }
    ensures { symbol.new ≡ bytes_of (line_symbol (frame_of d (plan_of plan.now)) x.now) }
{
    let mut out = [0u16; 4096];
    line::place(d, plan, marks, car, x, &mut out);
    bytewrite::write_cells(symbol, 0, &out);
}

// Whether a lent cell buffer has odd length (ground 21).
fn some_halved(store: &[u8], input: &[u8], symbol: &[u8]) -> bool
    ensures { (result ≡ (odd store.now || odd input.now || odd symbol.now)) × (result ≡ false → Whole store.now × Whole input.now × Whole symbol.now) }
{
    if bytecells::halved(store) {
        return true;
    }
    if bytecells::halved(input) {
        return true;
    }
    bytecells::halved(symbol)
}

// An emit or flush step of bytes of whole cells; a flush reads no profile and no input. Where no ground refuses it, the input symbol goes to
// the places of its cells, and the delayed cells go out on their subcarriers.
fn send_whole(
    plan: &[u8],
    profile: &[u8],
    flushing: bool,
    state: EmitterState,
    store: &mut [u8],
    input: &[u8],
    symbol: &mut [u8],
) -> Result<EmitterState, RefusedStep<EmitterState>>
    requires { Whole store.old × Whole input.now × Whole symbol.old }
    ensures { leaves result store.new symbol.new ≡ sent_bytes (step_by khz50 plan.now profile.now flushing state (cells_of store.old) (cells_of input.now) (cells_of symbol.old)) }
{
    let d = rules::khz50_device();
    let mut given = [0u16; 4096];
    let number = bytecells::read_first(input, &mut given);
    let mut marks = [0u16; 4096];
    let mut car = [0u16; 4096];
    let mut x = [0u16; 4096];
    match sendgrounds::admit(
        d,
        plan,
        profile,
        flushing,
        state,
        store.len() / 2,
        symbol.len() / 2,
        number,
        &given,
        &mut marks,
        &mut car,
        &mut x,
        false,
    ) {
        Err(refusal) => Err(RefusedStep { refusal, state }),
        Ok(n) => {
            let ni = n as usize;
            let m = records::number_at(plan, 6);
            bytedelay::delay(m, store, &mut x[..ni]);
            place(d, plan, &marks, &car, &x[..ni], symbol);
            Ok(sending::next_state(state))
        }
    }
}

// An emit or flush step: refused by 21, or the step of whole cells.
fn send(
    plan: &[u8],
    profile: &[u8],
    flushing: bool,
    state: EmitterState,
    store: &mut [u8],
    input: &[u8],
    symbol: &mut [u8],
) -> Result<EmitterState, RefusedStep<EmitterState>>
    ensures { leaves result store.new symbol.new ≡ pick (odd store.old || odd input.now || odd symbol.old) (leaves (refused_step (refusal 21 0) state) store.old symbol.old) (sent_bytes (step_by khz50 plan.now profile.now flushing state (cells_of store.old) (cells_of input.now) (cells_of symbol.old))) }
{
    if some_halved(store, input, symbol) {
        return Err(RefusedStep {
            refusal: Refusal {
                number: 21,
                place: 0,
            },
            state,
        });
    }
    send_whole(plan, profile, flushing, state, store, input, symbol)
}

// An emit step under a load profile: the input goes to the places of its cells as an input symbol, and one symbol on the line is sent.
pub fn emit(
    plan: &[u8],
    profile: &[u8],
    state: EmitterState,
    store: &mut [u8],
    input: &[u8],
    symbol: &mut [u8],
) -> Result<EmitterState, RefusedStep<EmitterState>>
    ensures { leaves result store.new symbol.new ≡ emit_bytes khz50 plan.now profile.now state store.old input.now symbol.old }
{
    send(plan, profile, false, state, store, input, symbol)
}

// A flush step: the same with filler in every data cell, and without a profile.
pub fn flush(
    plan: &[u8],
    state: EmitterState,
    store: &mut [u8],
    symbol: &mut [u8],
) -> Result<EmitterState, RefusedStep<EmitterState>>
    ensures { leaves result store.new symbol.new ≡ flush_bytes khz50 plan.now state store.old symbol.old }
{
    let no_profile = [0u8; 1];
    let no_data = [0u8; 1];
    send(
        plan,
        &no_profile[..0],
        true,
        state,
        store,
        &no_data[..0],
        symbol,
    )
}
