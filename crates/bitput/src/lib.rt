// Cells put into a bit stream in bytes bit by bit, other bits untouched: what the way back (crate bitunfill) does with its last cells.
#![tactic(auto)]

ghost use Rattle.std.specs.Prelude.{◌≡◌, ℕ, ◌+◌, ◌*◌, ◌/◌, ◌%◌, ◌^◌, ◌≤◌, ◌<◌, length, get_or};
ghost use Rattle.std.proofs.lemmas.List.Edits.{sets};
ghost use Rattle.rules.specs.Bits.{digits, total, cell_bits, stream_bits};
ghost use Rattle.counting.specs.Bytes.{Octets};

use bits::number;
use counting::octets;

// A byte as a number to reckon with.
fn byte_number(x: u8) -> u32
    ensures { (result ≡ x) × (result < 256) }
{
    x as u32
}

// The bits of n from bit `bit` on as a number, with the lowest bit of y as the lowest of them.
fn from_bit(n: u32, bit: u32, y: u32) -> u32
    requires { (n < 256) × (bit < 8) }
    ensures { (result ≡ n / 2 ^ bit / 2 * 2 + y % 2) × (result < 256) }
{
    (n >> bit) / 2 * 2 + y % 2
}

// The byte x with the lowest bit of y as its bit `bit`.
fn with_bit(x: u8, bit: u32, y: u32) -> u8
    requires { bit < 8 }
    ensures { digits 8 result ≡ sets (digits 8 x) bit (digits 1 y) }
{
    let n = byte_number(x);
    let high = from_bit(n, bit, y);
    (((high << bit) + n % (1 << bit)) % 256) as u8
}

// The lowest bit of y goes to bit `bit` of byte `at`.
fn put_bit(stream: &mut [u8], at: usize, bit: u32, y: u32)
    requires { (at < length stream.old) × (bit < 8) }
    ensures { stream_bits stream.new ≡ sets (stream_bits stream.old) (at * 8 + bit) (digits 1 y) }
{
    stream[at] = with_bit(stream[at], bit, y);
}

// The l lowest bits of x go to the stream, from bit `bit` of byte `at` on.
fn put_cell(stream: &mut [u8], at: usize, bit: u32, l: u32, x: u32)
    requires { (bit < 8) × (l ≤ 14) × (at * 8 + bit + l ≤ length stream.old * 8) }
    ensures { stream_bits stream.new ≡ sets (stream_bits stream.old) (at * 8 + bit) (digits l x) }
{
    for i in 0..l {
        let p = bit + i;
        put_bit(stream, at + (p / 8) as usize, p % 8, x >> i);
    }
}

// The bits of the cells go to the stream, from bit `bit` of byte `at` on.
pub fn put_cells(loads: &[u16], cells: &[u16], stream: &mut [u8], at: usize, bit: u32)
    requires { (length loads.now ≡ length cells.now) × ((c : ℕ) → c < length loads.now → get_or loads.now c 0 ≤ 14) × (bit < 8) × (at * 8 + bit + total loads.now ≤ length stream.old * 8) }
    ensures put { stream_bits stream.new ≡ sets (stream_bits stream.old) (at * 8 + bit) (cell_bits loads.now cells.now) }
    ensures bytes { Octets stream.new }
{
    let mut byte = at;
    let mut o = bit;
    for (load, cell) in loads.iter().zip(cells) {
        let l = number(*load);
        put_cell(stream, byte, o, l, number(*cell));
        let next = o + l;
        byte += (next / 8) as usize;
        o = next % 8;
    }
    octets(stream);
}
