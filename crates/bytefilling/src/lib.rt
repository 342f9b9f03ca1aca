// Filling a data symbol from a bit stream and the way back, over two-byte cells (request 07). The entries try ground 21 first, of the data; a
// stream is no cell buffer. What they refuse, they leave as it was, and they ask nothing of their caller.
#![tactic(auto)]

ghost use Rattle.std.specs.Prelude.{◌≡◌, ℕ, ◌+◌, ◌*◌, ◌≤◌, ◌<◌, length, get_or};
ghost use Rattle.rules.specs.Device.{khz50};
ghost use Rattle.rules.specs.Fits.{capacity};
ghost use Rattle.rules.specs.Bits.{total, filled_from};
ghost use Rattle.rules.specs.Filling.{fills};
ghost use Rattle.bytecells.specs.Octets.{bytes_of};
ghost use Rattle.bytecells.specs.ByteSteps.{fill_bytes, unfill_bytes};

use rules::Refusal;

// Cells of the loads, filled from the stream at a bit, as bytes.
fn fill_into(loads: &[u16], bits: usize, stream: &[u8], start: usize, input: &mut [u8])
    requires { (2 * length loads.now ≡ length input.old) × (length loads.now ≤ capacity) × ((c : ℕ) → c < length loads.now → get_or loads.now c 0 ≤ 14) × (bits ≡ total loads.now) × (start + total loads.now ≤ length stream.now * 8) }
    ensures { input.new ≡ bytes_of (filled_from loads.now stream.now start) }
{
    let n = loads.len();
    let mut cells = [0u16; 4096];
    bitfill::fill_from(loads, bits, stream, start, &mut cells[..n]);
    bytewrite::write_cells(input, 0, &cells[..n]);
}

// Fills a data symbol at a phase from a bit stream in bytes, starting at a bit; the answer is how many bits it took.
pub fn fill(
    plan: &[u8],
    profile: &[u8],
    phase: u32,
    stream: &[u8],
    start: usize,
    input: &mut [u8],
) -> Result<u32, Refusal>
    ensures { fills result input.new ≡ fill_bytes khz50 plan.now profile.now phase stream.now start input.old }
{
    if bytecells::halved(input) {
        return Err(Refusal {
            number: 21,
            place: 0,
        });
    }
    let d = rules::khz50_device();
    let n = input.len() / 2;
    let mut loads = [0u16; 4096];
    let need = filling::measure(d, plan, profile, phase, n, stream.len(), start, &mut loads)?;
    fill_into(
        &loads[..n],
        need as usize,
        stream,
        filling::from_bit(start, need),
        input,
    );
    Ok(need)
}

// The way back: puts the bits of a data symbol at a phase into a bit stream in bytes, from a bit on; other bits stay. The answer is how many
// bits it has.
pub fn unfill(
    plan: &[u8],
    profile: &[u8],
    phase: u32,
    input: &[u8],
    start: usize,
    stream: &mut [u8],
) -> Result<u32, Refusal>
    ensures { fills result stream.new ≡ unfill_bytes khz50 plan.now profile.now phase input.now start stream.old }
{
    if bytecells::halved(input) {
        return Err(Refusal {
            number: 21,
            place: 0,
        });
    }
    let d = rules::khz50_device();
    let mut cells = [0u16; 4096];
    let n = bytecells::read_first(input, &mut cells);
    let mut loads = [0u16; 4096];
    let need = filling::measure(d, plan, profile, phase, n, stream.len(), start, &mut loads)?;
    filling::put_back(&loads[..n], &cells[..n], need, start, stream)
}
