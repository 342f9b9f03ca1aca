// The opening of a sending step, of either emitter and for every form of its cells: grounds 1 to 15, 25 and 16 to 19, of the second emitter with
// its literal store 27 after 17, and, where none holds, what the rest of the step works with.
// specs/Opening says which steps no ground refuses.
#![tactic(auto)]

ghost use Rattle.std.specs.Prelude.{◌≡◌, List, ℕ, ◌≤◌, length, Ok};
ghost use Rattle.counting.specs.Search.{pick};
ghost use Rattle.rules.specs.Device.{phases};
ghost use Rattle.rules.specs.Fits.{Fits};
ghost use Rattle.rules.specs.Loads.{ground25};
ghost use Rattle.steps.specs.Ready.{Ready};
ghost use Rattle.steps.specs.Begins.{Begins};
ghost use Rattle.sending.specs.Sent.{given_by, at, giving};
ghost use Rattle.sendgrounds.specs.Opening.{SendOpens};

use rules::{Device, EmitterState, Refusal};

// Grounds 16 to 19 and 27 of a step under an accepted plan of n cells and a profile that 25 does not refuse, and what they leave, as `admit`
// has it.
fn admit_step(
    d: Device,
    plan: &[u8],
    marks: &[u16; 4096],
    n: u32,
    profile: &[u8],
    flushing: bool,
    state: EmitterState,
    places: usize,
    width: usize,
    number: usize,
    given: &[u16],
    car: &mut [u16; 4096],
    x: &mut [u16],
    literal: bool,
) -> Result<u32, Refusal>
    requires { Ready d plan.now n marks.now × (pick flushing (Ok tt) (ground25 d.subcarriers profile.now) ≡ Ok tt) × (number ≤ d.subcarriers → number ≤ length given.now) × (length car.old ≡ 4096) × (d.subcarriers ≤ length x.old) }
    ensures { (store ds room : List ℕ) → length store ≡ places → length room ≡ width → Begins given.now number ds → SendOpens result literal d plan.now (at state store) (giving (given_by flushing ds) profile.now room) marks.now car.new x.new }
{
    let ni = n as usize;
    let m = records::number_at(plan, 6);
    let j = state.phase as usize;
    let need = figure::places_17(literal, m, ni);
    let lines = figure::places_27(literal, m, ni);
    let mut kc = [0u16; 4096];
    let mut flag = [0u8; 4096];
    let nd = steps::ready(
        d,
        plan,
        marks,
        m,
        state.phase,
        need,
        places,
        width,
        j,
        car,
        &mut kc[..ni],
        &mut flag[..ni],
    )?;
    if places < lines {
        return Err(Refusal {
            number: 27,
            place: 0,
        });
    }
    sending::fill_in(
        d,
        plan,
        profile,
        j,
        flushing,
        nd as usize,
        &kc,
        &flag,
        number,
        given,
        &mut x[..ni],
    )?;
    Ok(n)
}

// Grounds 1 to 15, 25 and 16 to 19 of a step whose store has so many places, and whose symbol so many cells: the first that holds, or N_I. Where
// the store is literal, its places are asked by 27, and not by 17. A flush reads no profile. The data are `number` cells, the first ones of
// `given`. Where no ground holds, marks holds the marks, car the subcarriers by rank, and x begins with the input symbol.
pub fn admit(
    d: Device,
    plan: &[u8],
    profile: &[u8],
    flushing: bool,
    state: EmitterState,
    places: usize,
    width: usize,
    number: usize,
    given: &[u16],
    marks: &mut [u16; 4096],
    car: &mut [u16; 4096],
    x: &mut [u16],
    literal: bool,
) -> Result<u32, Refusal>
    requires { Fits d × (d.depth_max ≤ phases) × (number ≤ d.subcarriers → number ≤ length given.now) × (length marks.old ≡ 4096) × (length car.old ≡ 4096) × (d.subcarriers ≤ length x.old) }
    ensures { (store ds room : List ℕ) → length store ≡ places → length room ≡ width → Begins given.now number ds → SendOpens result literal d plan.now (at state store) (giving (given_by flushing ds) profile.now room) marks.new car.new x.new }
{
    let n = verdicts::study(d, plan, marks)?;
    sending::profile_found(d, profile, flushing)?;
    admit_step(
        d, plan, marks, n, profile, flushing, state, places, width, number, given, car, x, literal,
    )
}
