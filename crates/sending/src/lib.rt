// What a sending step, emit or flush, does besides the store and the symbol on the line: grounds 25, 18 and 19, the input symbol, and the
// state of the next step. The cells of store, data and symbol may be of any form.
#![tactic(auto)]

ghost use Rattle.std.specs.Prelude.{◌≡◌, false, List, ℕ, ◌+◌, ◌%◌, ◌≤◌, ◌<◌, length, get_or, Ok};
ghost use Rattle.counting.specs.Search.{pick};
ghost use Rattle.rules.specs.Device.{phases};
ghost use Rattle.rules.specs.Fits.{Fits};
ghost use Rattle.rules.specs.Plan.{plan_of};
ghost use Rattle.rules.specs.Frame.{frame_of, cells, spot, data_count, symbol, input_cells};
ghost use Rattle.rules.specs.Loads.{ground25, ground19};
ghost use Rattle.fill.specs.Flags.{Flagged};
ghost use Rattle.steps.specs.Begins.{Begins};
ghost use Rattle.sending.specs.Sent.{given_by};
ghost use Rattle.sending.specs.Given.{Filled};

use rules::{Device, EmitterState, Refusal};

// The state of the next step: the phase goes up by one.
pub fn next_state(state: EmitterState) -> EmitterState
    requires { state.phase < phases }
    ensures { result ≡ record { phase = (state.phase + 1) % phases } }
{
    EmitterState {
        phase: steps::next_phase(state.phase),
    }
}

// Ground 25 of what a step is given: a flush is given no profile.
pub fn profile_found(d: Device, profile: &[u8], flushing: bool) -> Result<(), Refusal>
    requires { Fits d }
    ensures { result ≡ pick flushing (Ok tt) (ground25 d.subcarriers profile.now) }
{
    if flushing {
        return Ok(());
    }
    profiles::profile_ground(d, profile)
}

// Ground 19 of as many data as the input symbol at a phase has data cells, and that input symbol in x: kc are the subcarriers of the cells,
// flag the flags of the placeholders.
fn fill_checked(
    d: Device,
    plan: &[u8],
    profile: &[u8],
    phase: usize,
    kc: &[u16],
    flag: &[u8],
    ds: &[u16],
    x: &mut [u16],
) -> Result<(), Refusal>
    requires { Fits d × (ground25 d.subcarriers profile.now ≡ Ok tt) × (length x.old ≡ cells (frame_of d (plan_of plan.now))) × (length x.old ≤ length kc.now) × (length x.old ≤ length flag.now) × ((p : ℕ) → p < length x.old → get_or kc.now p 0 ≡ spot (frame_of d (plan_of plan.now)) p) × Flagged (frame_of d (plan_of plan.now)) phase flag.now × (length ds.now ≡ data_count (frame_of d (plan_of plan.now)) phase) }
    ensures found { result ≡ ground19 (frame_of d (plan_of plan.now)) profile.now phase ds.now }
    ensures made { x.new ≡ input_cells (frame_of d (plan_of plan.now)) phase (symbol ds.now) }
{
    fill::fill_data(x, flag, ds);
    match datalimit::first_over(profile, kc, flag, x, ds) {
        Some(i) => Err(Refusal {
            number: 19,
            place: i,
        }),
        None => Ok(()),
    }
}

// Grounds 18 and 19 and, where neither holds, the input symbol at a phase in x: the data, or filler where the step is a flush, which reads no
// profile. The data are `number` cells, the first ones of `given`; kc are the subcarriers of the cells, flag the flags of the placeholders,
// and nd is N_D.
pub fn fill_in(
    d: Device,
    plan: &[u8],
    profile: &[u8],
    phase: usize,
    flushing: bool,
    nd: usize,
    kc: &[u16],
    flag: &[u8],
    number: usize,
    given: &[u16],
    x: &mut [u16],
) -> Result<(), Refusal>
    requires { Fits d × (flushing ≡ false → ground25 d.subcarriers profile.now ≡ Ok tt) × (length x.old ≡ cells (frame_of d (plan_of plan.now))) × (length x.old ≤ length kc.now) × (length x.old ≤ length flag.now) × ((p : ℕ) → p < length x.old → get_or kc.now p 0 ≡ spot (frame_of d (plan_of plan.now)) p) × Flagged (frame_of d (plan_of plan.now)) phase flag.now × (nd ≡ data_count (frame_of d (plan_of plan.now)) phase) × (number ≤ d.subcarriers → number ≤ length given.now) }
    ensures { (ds : List ℕ) → Begins given.now number ds → Filled (frame_of d (plan_of plan.now)) profile.now phase (given_by flushing ds) result x.new }
{
    if flushing {
        fill::fill_filler(x, flag);
        return Ok(());
    }
    if number != nd {
        return Err(Refusal {
            number: 18,
            place: 0,
        });
    }
    fill_checked(d, plan, profile, phase, kc, flag, &given[..nd], x)
}
