// Cells of given loads filled from a bit stream in bytes. As long as 64 of the bits are left, two cells at a time come from a window of eight
// bytes, without a branch; the last cells come one by one from a window of four, which may reach past the end of the stream.
#![tactic(auto)]

ghost use Rattle.std.specs.Prelude.{◌≡◌, ℕ, ◌+◌, ◌*◌, ◌/◌, ◌%◌, ◌^◌, ◌≤◌, ◌<◌, length, get_or, take, set};
ghost use Rattle.rules.specs.Bits.{total, filled_from};

use bits::{eight_at, field, number, window};

// Fills cells c and c + 1 from the window w, where their bits begin at bit `bit`; answers how many bits the two take.
fn fill_two(loads: &[u16], w: u64, bit: u32, cells: &mut [u16], c: usize) -> u32
    requires { (c + 2 ≤ length loads.now) × (c + 2 ≤ length cells.old) × ((i : ℕ) → i < length loads.now → get_or loads.now i 0 ≤ 14) × (bit < 8) }
    ensures taken { (result ≡ get_or loads.now c 0 + get_or loads.now (c + 1) 0) × (result ≤ 28) }
    ensures filled { cells.new ≡ set (set cells.old c (w / 2 ^ bit % 2 ^ get_or loads.now c 0)) (c + 1) (w / 2 ^ (bit + get_or loads.now c 0) % 2 ^ get_or loads.now (c + 1) 0) }
{
    let l = number(loads[c]);
    let m = number(loads[c + 1]);
    cells[c] = field(w, bit, l);
    cells[c + 1] = field(w, bit + l, m);
    l + m
}

// Fills the cells from cell `first` on; their bits begin at bit `bit` of byte `at`, and the cells before them are filled.
fn fill_rest(
    loads: &[u16],
    stream: &[u8],
    start: usize,
    at: usize,
    bit: u32,
    first: usize,
    cells: &mut [u16],
)
    requires { (length loads.now ≡ length cells.old) × ((c : ℕ) → c < length loads.now → get_or loads.now c 0 ≤ 14) × (start + total loads.now ≤ length stream.now * 8) × (first ≤ length loads.now) × (at * 8 + bit ≡ start + total (take first loads.now)) × (bit < 8) × (take first cells.old ≡ take first (filled_from loads.now stream.now start)) }
    ensures { cells.new ≡ filled_from loads.now stream.now start }
{
    let mut byte = at;
    let mut o = bit;
    for c in first..cells.len() {
        let l = number(loads[c]);
        cells[c] = field(window(stream, byte), o, l);
        let next = o + l;
        byte += (next / 8) as usize;
        o = next % 8;
    }
}

// Fills cells of the loads from the stream, starting at a bit; `bits` is what the loads add up to.
pub fn fill_from(loads: &[u16], bits: usize, stream: &[u8], start: usize, cells: &mut [u16])
    requires { (length loads.now ≡ length cells.old) × ((c : ℕ) → c < length loads.now → get_or loads.now c 0 ≤ 14) × (bits ≡ total loads.now) × (start + total loads.now ≤ length stream.now * 8) }
    ensures { cells.new ≡ filled_from loads.now stream.now start }
{
    let mut at = start / 8;
    let mut bit = (start % 8) as u32;
    let mut left = bits;
    let mut c = 0;
    // Counted by hand: the loop ends by the bits that are left, which the loads decide, and not by `c`.
    while 64 <= left {
        let w = eight_at(stream, at);
        let l = fill_two(loads, w, bit, cells, c);
        let next = bit + l;
        at += (next / 8) as usize;
        bit = next % 8;
        left -= l as usize;
        c += 2;
    }
    fill_rest(loads, stream, start, at, bit, c, cells);
}
