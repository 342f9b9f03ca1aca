// Filling a data symbol from a bit stream, and the way back (request 07). The entries `fill_symbol` and `unfill_symbol` read the plan and the
// profile anew and ask nothing of their caller; what they refuse, they leave as it was. `measure` is the part that they share with the
// entries over two-byte cells.
#![tactic(auto)]

ghost use Rattle.std.specs.Prelude.{◌≡◌, ℕ, ◌+◌, ◌*◌, ◌≤◌, ◌<◌, length, get_or, Ok, Err};
ghost use Rattle.rules.specs.Device.{khz50, phases};
ghost use Rattle.rules.specs.Fits.{Fits, capacity};
ghost use Rattle.rules.specs.Plan.{plan_of};
ghost use Rattle.rules.specs.Frame.{frame_of};
ghost use Rattle.rules.specs.Bits.{total};
ghost use Rattle.rules.specs.Loads.{ground25};
ghost use Rattle.rules.specs.Filling.{fills, fill_step, unfill_step};
ghost use Rattle.steps.specs.Ready.{Ready};
ghost use Rattle.filling.specs.Measured as measured;
ghost use Rattle.filling.specs.Measured.{MeasuredIf, put_back};

use rules::{Device, Refusal};

// Phases are 0 to 127.
const PHASES: usize = 128;

// Grounds 18 and 26 at a phase below 128, under an accepted plan of n cells and a profile that 25 does not refuse, as `measure` has them.
fn measure_at(
    d: Device,
    plan: &[u8],
    marks: &[u16; 4096],
    n: usize,
    profile: &[u8],
    j: usize,
    number: usize,
    bytes: usize,
    start: usize,
    loads: &mut [u16],
) -> Result<u32, Refusal>
    requires { Ready d plan.now n marks.now × (ground25 d.subcarriers profile.now ≡ Ok tt) × (j < phases) × (capacity ≤ length loads.old) }
    ensures answer { result ≡ measured.measure d plan.now profile.now j number bytes start }
    ensures made { MeasuredIf result (frame_of d (plan_of plan.now)) profile.now j number bytes start loads.new }
{
    let m = records::number_at(plan, 6);
    let mut car = [0u16; 4096];
    let mut kc = [0u16; 4096];
    let mut flag = [0u8; 4096];
    let nd = spots::prepare(d, plan, marks, m, j, &mut car, &mut kc[..n], &mut flag[..n]);
    if number != nd {
        return Err(Refusal {
            number: 18,
            place: 0,
        });
    }
    let need = dataloads::take_loads(d, plan, profile, j, nd, &kc, &flag, &mut car[..n], loads);
    if bits::lacks_bits(bytes, start, need) {
        return Err(Refusal {
            number: 26,
            place: 0,
        });
    }
    Ok(need as u32)
}

// Grounds 1 to 15, 25, 16, 18 and 26 of `number` cells at a phase, and a stream of so many bytes from bit `start` on. Where none holds, the
// answer is what the loads of the data cells add up to, and `loads` begins with these.
pub fn measure(
    d: Device,
    plan: &[u8],
    profile: &[u8],
    phase: u32,
    number: usize,
    bytes: usize,
    start: usize,
    loads: &mut [u16],
) -> Result<u32, Refusal>
    requires { Fits d × (d.depth_max ≤ phases) × (capacity ≤ length loads.old) }
    ensures answer { result ≡ measured.measure d plan.now profile.now phase number bytes start }
    ensures made { MeasuredIf result (frame_of d (plan_of plan.now)) profile.now phase number bytes start loads.new }
{
    let mut marks = [0u16; 4096];
    let n = verdicts::study(d, plan, &mut marks)?;
    profiles::profile_ground(d, profile)?;
    let j = phase as usize;
    if PHASES <= j {
        return Err(Refusal {
            number: 16,
            place: 0,
        });
    }
    measure_at(
        d, plan, &marks, n as usize, profile, j, number, bytes, start, loads,
    )
}

// Where the bits start, or 0 where none are taken: a start past the end matters only if there are any.
pub fn from_bit(start: usize, need: u32) -> usize
    ensures { (need ≡ 0 → result ≡ 0) × (0 < need → result ≡ start) }
{
    if need == 0 { 0 } else { start }
}

// The way back of the numbers ds, whose loads add up to `need`: ground 19, and where it does not hold their bits go into the stream from bit
// `start` on, which has room for them if there are any.
pub fn put_back(
    loads: &[u16],
    ds: &[u16],
    need: u32,
    start: usize,
    stream: &mut [u8],
) -> Result<u32, Refusal>
    requires { (length loads.now ≡ length ds.now) × (length ds.now ≤ capacity) × ((c : ℕ) → c < length loads.now → get_or loads.now c 0 ≤ 14) × (need ≡ total loads.now) × (0 < need → start + need ≤ length stream.old * 8) }
    ensures { fills result stream.new ≡ put_back loads.now ds.now need stream.old start }
{
    if let Some(i) = dataloads::first_over(loads, ds) {
        return Err(Refusal {
            number: 19,
            place: i,
        });
    }
    bitunfill::unfill_into(loads, ds, need as usize, stream, from_bit(start, need));
    Ok(need)
}

// Fills a data symbol at a phase from a bit stream in bytes, starting at a bit; the answer is how many bits it took.
pub fn fill_symbol(
    plan: &[u8],
    profile: &[u8],
    phase: u32,
    stream: &[u8],
    start: usize,
    input: &mut [u16],
) -> Result<u32, Refusal>
    ensures { fills result input.new ≡ fill_step khz50 plan.now profile.now phase stream.now start input.old }
{
    let d = rules::khz50_device();
    let n = input.len();
    let mut loads = [0u16; 4096];
    let need = measure(d, plan, profile, phase, n, stream.len(), start, &mut loads)?;
    bitfill::fill_from(
        &loads[..n],
        need as usize,
        stream,
        from_bit(start, need),
        input,
    );
    Ok(need)
}

// The way back: puts the bits of a data symbol at a phase into a bit stream in bytes, from a bit on; other bits stay. The answer is how many
// bits it has.
pub fn unfill_symbol(
    plan: &[u8],
    profile: &[u8],
    phase: u32,
    input: &[u16],
    start: usize,
    stream: &mut [u8],
) -> Result<u32, Refusal>
    ensures { fills result stream.new ≡ unfill_step khz50 plan.now profile.now phase input.now start stream.old }
{
    let d = rules::khz50_device();
    let n = input.len();
    let mut loads = [0u16; 4096];
    let need = measure(d, plan, profile, phase, n, stream.len(), start, &mut loads)?;
    put_back(&loads[..n], input, need, start, stream)
}
