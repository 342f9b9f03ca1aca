// Numbers as bits, least significant first: what the loops of filling cells from a bit stream in bytes and of the way back (crates bitfill and
// bitunfill) reckon with. The definitions are in rules/specs/Bits; proofs/BitLaws and proofs/FillLaws have the laws that callers cite.
#![tactic(auto)]

ghost use Rattle.std.specs.Prelude.{◌≡◌, ℕ, ◌+◌, ◌-◌, ◌*◌, ◌/◌, ◌%◌, ◌^◌, ◌≤◌, ◌<◌, ltb, length, get_or, drop};
ghost use Rattle.rules.specs.Bits.{value, total, stream_bits};
ghost use Rattle.rules.specs.Fits.{capacity};
ghost use Rattle.counting.specs.Bytes.{Octets};

// A load or a cell as a number to reckon with.
pub fn number(x: u16) -> u32
    ensures { (result ≡ x) × (result < 65536) }
{
    x as u32
}

// What loads add up to.
pub fn sum_loads(loads: &[u16]) -> usize
    requires { (length loads.now ≤ capacity) × ((c : ℕ) → c < length loads.now → get_or loads.now c 0 ≤ 14) }
    ensures { (result ≡ total loads.now) × (result ≤ 14 * length loads.now) }
{
    let sum: u32 = loads.iter().map(|load| u32::from(*load)).sum();
    sum as usize
}

// Whether a stream of so many bytes has fewer than `need` bits from `start` on; a start past the end leaves none.
pub fn lacks_bits(bytes: usize, start: usize, need: usize) -> bool
    ensures { result ≡ ltb (bytes * 8 - start) need }
{
    if need == 0 {
        return false;
    }
    bytes < start / 8 + need / 8 + (start % 8 + need % 8 + 7) / 8
}

// The byte of a stream at a place; 0 past its end.
pub fn byte_at(stream: &[u8], at: usize) -> u8
    ensures { result ≡ get_or stream.now at 0 }
{
    if at < stream.len() {
        return stream[at];
    }
    0
}

// The number of four bytes, the first the lowest.
fn four(a: u8, b: u8, c: u8, d: u8) -> u64
    ensures { (result ≡ a + b * 256 + c * 65536 + d * 16777216) × (a < 256) × (b < 256) × (c < 256) × (d < 256) }
{
    (a as u64) + (b as u64) * 256 + (c as u64) * 65536 + (d as u64) * 16777216
}

// The 32 bits of a stream from byte `at` on, as a number.
fn four_at(stream: &[u8], at: usize) -> u64
    requires { at + 4 ≤ length stream.now }
    ensures { result ≡ value (drop (at * 8) (stream_bits stream.now)) % 2 ^ 32 }
{
    four(stream[at], stream[at + 1], stream[at + 2], stream[at + 3])
}

// The 64 bits of a stream from byte `at` on, as a number.
pub fn eight_at(stream: &[u8], at: usize) -> u64
    requires { at + 8 ≤ length stream.now }
    ensures { result ≡ value (drop (at * 8) (stream_bits stream.now)) % 2 ^ 64 }
{
    four_at(stream, at) + four_at(stream, at + 4) * 4294967296
}

// The 32 bits of a stream from byte `at` on, as a number; those past its end are 0.
pub fn window(stream: &[u8], at: usize) -> u64
    requires { at ≤ length stream.now }
    ensures { result ≡ value (drop (at * 8) (stream_bits stream.now)) % 2 ^ 32 }
{
    four(
        byte_at(stream, at),
        byte_at(stream, at + 1),
        byte_at(stream, at + 2),
        byte_at(stream, at + 3),
    )
}

// The l bits of w from bit o on.
pub fn field(w: u64, o: u32, l: u32) -> u16
    requires { (o < 64) × (l ≤ 14) }
    ensures { result ≡ w / 2 ^ o % 2 ^ l }
{
    ((w >> o) % (1 << l)) as u16
}
