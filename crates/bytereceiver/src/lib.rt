// The receiver over two-byte cells, high byte first: a receive step whose store, symbol and data buffer are lent as bytes. Only the cells
// that the step needs are read or written. The entry `receive` reads the plan bytes anew and asks nothing of its caller; what it refuses, it
// leaves as it was.
#![tactic(auto)]

ghost use Rattle.std.specs.Prelude.{◌≡◌, false, ◌||◌, [], ◌*◌, ◌≤◌, ◌<◌, length};
ghost use Rattle.std.proofs.lemmas.List.Edits.{sets};
ghost use Rattle.counting.specs.Search.{count, is_zero};
ghost use Rattle.rules.specs.Device.{khz50};
ghost use Rattle.rules.specs.Fits.{Fits};
ghost use Rattle.rules.specs.Plan.{plan_of};
ghost use Rattle.rules.specs.Frame.{frame_of, cells, line_cells};
ghost use Rattle.rules.specs.Places.{receiver_delay, places_before, oldest, moved};
ghost use Rattle.rules.specs.Receive.{hears, out_phase, received, receive_step};
ghost use Rattle.fill.specs.Flags.{taken_data};
ghost use Rattle.bytecells.specs.Octets.{cells_of, bytes_of, odd, Whole};
ghost use Rattle.bytecells.specs.ByteSteps.{heard_bytes, receive_bytes};
ghost use Rattle.receivegrounds.specs.InOrder.{ReceiveInOrder, Prepared, Spots};

use rules::{Device, Heard, ReceiverState, Refusal, RefusedStep};

// Whether a lent cell buffer has odd length (ground 21).
fn some_halved(store: &[u8], symbol: &[u8], buffer: &[u8]) -> bool
    ensures { (result ≡ (odd store.now || odd symbol.now || odd buffer.now)) × (result ≡ false → Whole store.now × Whole symbol.now × Whole buffer.now) }
{
    if bytecells::halved(store) {
        return true;
    }
    if bytecells::halved(symbol) {
        return true;
    }
    bytecells::halved(buffer)
}

// The arriving cells y go into the store in cell order, and x takes the oldest of each cell.
fn take_in(d: Device, plan: &[u8], m: usize, kc: &[u16], y: &[u16], store: &mut [u8], x: &mut [u16])
    requires { Fits d × Whole store.old × (0 < m) × (m ≤ 4096) × (length y.now ≡ d.subcarriers) × (length x.old ≡ cells (frame_of d (plan_of plan.now))) × (length x.old ≤ 4096) × (length x.old ≤ length kc.now) × (2 * places_before (receiver_delay m) (length x.old) ≤ length store.old) × Spots (frame_of d (plan_of plan.now)) kc.now }
    ensures stored { store.new ≡ bytes_of (moved (receiver_delay m) (length x.old) (cells_of store.old) (line_cells (frame_of d (plan_of plan.now)) y.now)) }
    ensures taken { x.new ≡ oldest (receiver_delay m) (length x.old) (cells_of store.old) (line_cells (frame_of d (plan_of plan.now)) y.now) }
{
    arrivals::line_cells(d, plan, kc, y, x);
    bytedelay::gather(m, store, x);
}

// The data of an input symbol, nd of its cells, goes to the start of the buffer.
fn hand_out(cells: &[u16], flag: &[u8], nd: usize, buffer: &mut [u8])
    requires { Whole buffer.old × (length cells.now ≤ 4096) × (length cells.now ≤ length flag.now) × (count (is_zero flag.now) (length cells.now) ≡ nd) × (2 * nd ≤ length buffer.old) }
    ensures { buffer.new ≡ bytes_of (sets (cells_of buffer.old) 0 (taken_data flag.now cells.now)) }
{
    let mut given = [0u16; 4096];
    taking::take_data(cells, flag, &mut given[..nd]);
    bytewrite::write_cells(buffer, 0, &given[..nd]);
}

// A step that no ground refuses, which reads no profile any more, with nd data cells to hand out: kc are the subcarriers of the n cells,
// flag the flags of the placeholders of the input symbol that is handed out, y the arriving cells.
fn hear(
    d: Device,
    plan: &[u8],
    m: usize,
    n: usize,
    nd: u32,
    state: ReceiverState,
    kc: &[u16],
    flag: &[u8],
    y: &[u16],
    store: &mut [u8],
    buffer: &mut [u8],
) -> Result<Heard<ReceiverState>, RefusedStep<ReceiverState>>
    requires { Fits d × Whole store.old × Whole buffer.old × ReceiveInOrder (frame_of d (plan_of plan.now)) (record { state = state; store = cells_of store.old }) (record { profile = []; symbol = y.now; buffer = cells_of buffer.old }) m n nd × Prepared (frame_of d (plan_of plan.now)) (out_phase (frame_of d (plan_of plan.now)) state.phase) kc.now flag.now }
    ensures { hears result store.new buffer.new ≡ heard_bytes (received (frame_of d (plan_of plan.now)) (record { state = state; store = cells_of store.old }) (record { profile = []; symbol = y.now; buffer = cells_of buffer.old })) }
{
    let mut x = [0u16; 4096];
    take_in(d, plan, m, kc, y, store, &mut x[..n]);
    let next = receiving::next_state(m, state);
    if receiving::warms(state.heard, m) {
        return Ok(Heard::Warming(next));
    }
    hand_out(&x[..n], flag, nd as usize, buffer);
    Ok(Heard::Data(next, nd))
}

// A receive step over bytes of whole cells.
fn receive_whole(
    plan: &[u8],
    profile: &[u8],
    state: ReceiverState,
    store: &mut [u8],
    symbol: &[u8],
    buffer: &mut [u8],
) -> Result<Heard<ReceiverState>, RefusedStep<ReceiverState>>
    requires { Whole store.old × Whole symbol.now × Whole buffer.old }
    ensures { hears result store.new buffer.new ≡ heard_bytes (receive_step khz50 plan.now profile.now state (cells_of store.old) (cells_of symbol.now) (cells_of buffer.old)) }
{
    let d = rules::khz50_device();
    let mut y = [0u16; 4096];
    let mut kc = [0u16; 4096];
    let mut flag = [0u8; 4096];
    let width = bytecells::read_first(symbol, &mut y);
    match receivegrounds::admit(
        d,
        plan,
        profile,
        state,
        store.len() / 2,
        width,
        buffer.len() / 2,
        &y,
        &mut kc,
        &mut flag,
    ) {
        Err(refusal) => Err(RefusedStep { refusal, state }),
        Ok(a) => hear(
            d, plan, a.depth, a.cells, a.count, state, &kc, &flag, &y, store, buffer,
        ),
    }
}

// A receive step under a load profile: the store takes in the arriving cells, and the data of the input symbol M - 1 steps back is handed
// out.
pub fn receive(
    plan: &[u8],
    profile: &[u8],
    state: ReceiverState,
    store: &mut [u8],
    symbol: &[u8],
    buffer: &mut [u8],
) -> Result<Heard<ReceiverState>, RefusedStep<ReceiverState>>
    ensures { hears result store.new buffer.new ≡ receive_bytes khz50 plan.now profile.now state store.old symbol.now buffer.old }
{
    if some_halved(store, symbol, buffer) {
        return Err(RefusedStep {
            refusal: Refusal {
                number: 21,
                place: 0,
            },
            state,
        });
    }
    receive_whole(plan, profile, state, store, symbol, buffer)
}
