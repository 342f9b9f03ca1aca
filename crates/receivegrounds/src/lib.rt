// Whether a receive step is admitted: its grounds in order, 1 to 15, 25, 16, 17 and 20, and what the step makes of the plan where none holds. The
// receivers over cells and over two-byte cells share it. specs/Stages has the grounds by stages, specs/InOrder what is known where none holds.
#![tactic(auto)]

ghost use Rattle.std.specs.Prelude.{◌≡◌, List, ℕ, ◌≤◌, ◌<◌, length, take, Ok, Err};
ghost use Rattle.rules.specs.Device.{phases};
ghost use Rattle.rules.specs.Fits.{Fits};
ghost use Rattle.rules.specs.Plan.{plan_of};
ghost use Rattle.rules.specs.Frame.{frame_of};
ghost use Rattle.rules.specs.Loads.{ground25};
ghost use Rattle.rules.specs.Receive.{out_phase, out_count};
ghost use Rattle.steps.specs.Ready.{Ready};
ghost use Rattle.steps.specs.Begins.{Begins};
ghost use Rattle.receivegrounds.specs.Stages.{late_grounds, early_answer, answered, admission};
ghost use Rattle.receivegrounds.specs.InOrder.{Prepared};

use rules::{Device, ReceiverState, Refusal};

// A receive step that no ground refuses, before it touches what it is lent: the depth, N_I, and how many data cells are to be handed out.
#[derive(Clone, Copy)]
pub struct Admitted {
    pub depth: usize,
    pub cells: usize,
    pub count: u32,
}

// Grounds 16 and 17 of a receive step under an accepted plan, all but that of the data buffer, and, where neither holds, what the step makes
// of the plan for the input symbol that is handed out: the subcarriers of the cells (kc), the flags of the placeholders, and N_D. The store
// has so many places, the symbol width cells.
fn ready(
    d: Device,
    plan: &[u8],
    marks: &[u16; 4096],
    m: usize,
    state: ReceiverState,
    places: usize,
    width: usize,
    kc: &mut [u16],
    flag: &mut [u8],
) -> Result<u32, Refusal>
    requires { Ready d plan.now (length kc.old) marks.now × (m ≡ (plan_of plan.now).depth) × (length flag.old ≡ length kc.old) }
    ensures answer { (s y : List ℕ) → length s ≡ places → length y ≡ width → result ≡ early_answer (frame_of d (plan_of plan.now)) (record { state = state; store = s }) y }
    ensures made { (nd : ℕ) → result ≡ Ok nd → Prepared (frame_of d (plan_of plan.now)) (out_phase (frame_of d (plan_of plan.now)) state.phase) kc.new flag.new }
{
    if m <= state.heard as usize {
        return Err(Refusal {
            number: 16,
            place: 0,
        });
    }
    let back = receiving::out_phase(state.phase, m);
    let need = places::receiver_places(m, kc.len());
    let mut car = [0u16; 4096];
    steps::ready(
        d,
        plan,
        marks,
        m,
        state.phase,
        need,
        places,
        width,
        back,
        &mut car,
        kc,
        flag,
    )
}

// The last grounds of a receive step, 17 of a data buffer of so much room and 20, where none before them holds: m is the depth, n is N_I, and
// nd data cells are to be handed out. The marks are used up.
fn last_grounds(
    d: Device,
    plan: &[u8],
    marks: &mut [u16; 4096],
    m: usize,
    n: usize,
    nd: u32,
    profile: &[u8],
    state: ReceiverState,
    width: usize,
    room: usize,
    symbol: &[u16],
) -> Result<Admitted, Refusal>
    requires { Ready d plan.now n marks.old × (m ≡ (plan_of plan.now).depth) × (nd ≡ out_count (frame_of d (plan_of plan.now)) state) × (ground25 d.subcarriers profile.now ≡ Ok tt) × (state.phase < phases) × (width ≡ d.subcarriers) × (width ≤ length symbol.now) }
    ensures { (b : List ℕ) → length b ≡ room → result ≡ answered (frame_of d (plan_of plan.now)) state (late_grounds (frame_of d (plan_of plan.now)) state (record { profile = profile.entry.now; symbol = take width symbol.now; buffer = b })) }
{
    if receiving::lacks(state.heard, m, nd as usize, room) {
        return Err(Refusal {
            number: 17,
            place: 0,
        });
    }
    let j = state.phase as usize;
    if let Some(k) = arrivals::wrong_cell(d, plan, marks, profile, j, &symbol[..width]) {
        return Err(Refusal {
            number: 20,
            place: k,
        });
    }
    Ok(Admitted {
        depth: m,
        cells: n,
        count: nd,
    })
}

// The grounds of a receive step, and what it makes of the plan where none holds: the first N_I places of kc are the subcarriers of the cells,
// those of flag the flags of the placeholders of the input symbol that is handed out. The store has so many places, the arriving symbol width
// cells, with which `symbol` begins, and the data buffer room.
pub fn admit(
    d: Device,
    plan: &[u8],
    profile: &[u8],
    state: ReceiverState,
    places: usize,
    width: usize,
    room: usize,
    symbol: &[u16],
    kc: &mut [u16],
    flag: &mut [u8],
) -> Result<Admitted, Refusal>
    requires { Fits d × (d.depth_max ≤ phases) × (width ≡ d.subcarriers → width ≤ length symbol.now) × (d.subcarriers ≤ length kc.old) × (d.subcarriers ≤ length flag.old) }
    ensures answer { (s y b : List ℕ) → length s ≡ places → Begins symbol.now width y → length b ≡ room → result ≡ admission d plan.now (record { state = state; store = s }) (record { profile = profile.entry.now; symbol = y; buffer = b }) }
    ensures made { (m n nd : ℕ) → result ≡ Ok (record { depth = m; cells = n; count = nd }) → Prepared (frame_of d (plan_of plan.now)) (out_phase (frame_of d (plan_of plan.now)) state.phase) kc.new flag.new }
{
    let mut marks = [0u16; 4096];
    let n = verdicts::study(d, plan, &mut marks)?;
    profiles::profile_ground(d, profile)?;
    let ni = n as usize;
    let m = records::number_at(plan, 6);
    let nd = ready(
        d,
        plan,
        &marks,
        m,
        state,
        places,
        width,
        &mut kc[..ni],
        &mut flag[..ni],
    )?;
    last_grounds(
        d, plan, &mut marks, m, ni, nd, profile, state, width, room, symbol,
    )
}
