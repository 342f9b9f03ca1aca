// The way back: the bits of cells go into a bit stream in bytes, from a bit on; other bits stay. As long as 64 of these bits are left, four
// cells make one number, which is written as eight bytes at once, without a branch: what is no full byte yet is held and written again with
// the next four cells. The last cells are put bit by bit.
#![tactic(auto)]

ghost use Rattle.std.specs.Prelude.{◌≡◌, ℕ, ◌+◌, ◌*◌, ◌%◌, ◌^◌, ◌≤◌, ◌<◌, length, get_or};
ghost use Rattle.rules.specs.Bits.{total, unfilled_into};

use bitfours::{four_cells, four_loads};
use bitput::put_cells;
use bits::byte_at;
use eightbytes::put_eight;

// The bits of byte `at` below bit `bit`, as a number.
fn below(stream: &[u8], at: usize, bit: u32) -> u64
    requires { bit < 8 }
    ensures { result ≡ get_or stream.now at 0 % 2 ^ bit }
{
    (byte_at(stream, at) as u64) % (1 << bit)
}

// The bits of the cells go into the stream, starting at a bit; `bits` is what the loads add up to. Of a cell only as many bits count as its
// load says.
pub fn unfill_into(loads: &[u16], cells: &[u16], bits: usize, stream: &mut [u8], start: usize)
    requires { (length loads.now ≡ length cells.now) × ((c : ℕ) → c < length loads.now → get_or loads.now c 0 ≤ 14) × (bits ≡ total loads.now) × (start + total loads.now ≤ length stream.old * 8) }
    ensures { stream.new ≡ unfilled_into loads.now cells.now stream.old start }
{
    let mut at = start / 8;
    let mut bit = (start % 8) as u32;
    let mut held = below(stream, at, bit);
    let mut left = bits;
    let mut c = 0;
    // Counted by hand: the loop ends by the bits that are left, which the loads decide, and not by `c`.
    while 64 <= left {
        let l = four_loads(loads, c);
        let v = four_cells(loads, cells, c, bit, held);
        put_eight(stream, at, v);
        let next = bit + l;
        held = v >> (next / 8 * 8);
        at += (next / 8) as usize;
        bit = next % 8;
        left -= l as usize;
        c += 4;
    }
    put_cells(&loads[c..], &cells[c..], stream, at, bit);
}
