// The receiver: a receive step. The entry `receive` reads the plan bytes anew and asks nothing of its caller; what it refuses, it leaves as
// it was.
#![tactic(auto)]

ghost use Rattle.std.specs.Prelude.{◌≡◌, [], ◌≤◌, ◌<◌, length};
ghost use Rattle.rules.specs.Device.{khz50};
ghost use Rattle.rules.specs.Fits.{Fits};
ghost use Rattle.rules.specs.Plan.{plan_of};
ghost use Rattle.rules.specs.Frame.{frame_of, cells, line_cells};
ghost use Rattle.rules.specs.Places.{receiver_delay, places_before, oldest, moved};
ghost use Rattle.rules.specs.Receive.{hears, out_phase, received, receive_step};
ghost use Rattle.receivegrounds.specs.InOrder.{ReceiveInOrder, Prepared, Spots};

use rules::{Device, Heard, ReceiverState, Refusal, RefusedStep};

// The arriving cells go into the store in cell order, and x takes the oldest of each cell.
fn take_in(
    d: Device,
    plan: &[u8],
    m: usize,
    kc: &[u16],
    symbol: &[u16],
    store: &mut [u16],
    x: &mut [u16],
)
    requires { Fits d × (0 < m) × (m ≤ 4096) × (length symbol.now ≡ d.subcarriers) × (length x.old ≡ cells (frame_of d (plan_of plan.now))) × (length x.old ≤ 4096) × (length x.old ≤ length kc.now) × (places_before (receiver_delay m) (length x.old) ≤ length store.old) × Spots (frame_of d (plan_of plan.now)) kc.now }
    ensures stored { store.new ≡ moved (receiver_delay m) (length x.old) store.old (line_cells (frame_of d (plan_of plan.now)) symbol.now) }
    ensures taken { x.new ≡ oldest (receiver_delay m) (length x.old) store.old (line_cells (frame_of d (plan_of plan.now)) symbol.now) }
{
    arrivals::line_cells(d, plan, kc, symbol, x);
    delay::gather(m, store, x);
}

// A step that no ground refuses, which reads no profile any more, with nd data cells to hand out: kc are the subcarriers of the n cells, flag the flags of the placeholders
// of the input symbol that is handed out.
fn hear(
    d: Device,
    plan: &[u8],
    m: usize,
    n: usize,
    nd: u32,
    state: ReceiverState,
    kc: &[u16],
    flag: &[u8],
    symbol: &[u16],
    store: &mut [u16],
    buffer: &mut [u16],
) -> Result<Heard<ReceiverState>, RefusedStep<ReceiverState>>
    requires { Fits d × ReceiveInOrder (frame_of d (plan_of plan.now)) (record { state = state; store = store.old }) (record { profile = []; symbol = symbol.now; buffer = buffer.old }) m n nd × Prepared (frame_of d (plan_of plan.now)) (out_phase (frame_of d (plan_of plan.now)) state.phase) kc.now flag.now }
    ensures { hears result store.new buffer.new ≡ received (frame_of d (plan_of plan.now)) (record { state = state; store = store.old }) (record { profile = []; symbol = symbol.now; buffer = buffer.old }) }
{
    let mut x = [0u16; 4096];
    take_in(d, plan, m, kc, symbol, store, &mut x[..n]);
    let next = receiving::next_state(m, state);
    if receiving::warms(state.heard, m) {
        return Ok(Heard::Warming(next));
    }
    taking::take_data(&x[..n], flag, buffer);
    Ok(Heard::Data(next, nd))
}

// A receive step under a load profile: the store takes in the arriving cells, and the data of the input symbol M - 1 steps back is handed
// out.
pub fn receive(
    plan: &[u8],
    profile: &[u8],
    state: ReceiverState,
    store: &mut [u16],
    symbol: &[u16],
    buffer: &mut [u16],
) -> Result<Heard<ReceiverState>, RefusedStep<ReceiverState>>
    ensures { hears result store.new buffer.new ≡ receive_step khz50 plan.now profile.now state store.old symbol.now buffer.old }
{
    let d = rules::khz50_device();
    let mut kc = [0u16; 4096];
    let mut flag = [0u8; 4096];
    match receivegrounds::admit(
        d,
        plan,
        profile,
        state,
        store.len(),
        symbol.len(),
        buffer.len(),
        symbol,
        &mut kc,
        &mut flag,
    ) {
        Err(refusal) => Err(RefusedStep { refusal, state }),
        Ok(a) => hear(
            d, plan, a.depth, a.cells, a.count, state, &kc, &flag, symbol, store, buffer,
        ),
    }
}
