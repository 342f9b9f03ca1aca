// Gray values, both ways (source document 000, 1.2.1, with request 04): whole numbers with a sign, from up to seven bits and back to
// them; and the negation, sign and absolute value that points are made with, exact at both ends of their type.
#![tactic(auto)]

ghost use Rattle.std.specs.Prelude.{◌≡◌, ◌^◌, ◌<◌, ◌≤◌, neg_ℤ, nat_abs};
ghost use Rattle.gray.specs.Gray.{gray, signed};
ghost use Rattle.gray.specs.Positions.{position, bits_at, is_gray, position_of, bits_of};

// For each four bits, and for each three, the position of their Gray value; and the other way round. Sixteen or eight numbers of four bits
// in one, the first lowest: a table would be built anew at each call.
const FOUR: u64 = 0xa5d2_96e1_b4c3_87f0;

const THREE: u32 = 0x5261_4370;

const BACK_FOUR: u64 = 0x19d57fb32ae64c80;

const BACK_THREE: u32 = 0x15732640;

// -c, of all numbers but the lowest.
fn negated(c: i32) -> i32
    requires { nat_abs c < 2 ^ 31 }
    ensures { result ≡ neg_ℤ c }
{
    -c
}

// 1 from 0 up, -1 below.
fn sign(c: i32) -> i32
    ensures { result ≡ signed c 1 }
{
    if c < 0 { -1 } else { 1 }
}

// The absolute value, of the lowest number too.
pub fn magnitude(c: i32) -> u32
    ensures { result ≡ nat_abs c }
{
    if c < 0 {
        (-(c as i64)) as u32
    } else {
        c as u32
    }
}

// The sign of c times m.
pub fn with_sign(c: i32, m: u32) -> i32
    requires { m < 2 ^ 31 }
    ensures { result ≡ signed c m }
{
    sign(c) * (m as i32)
}

// 2 to the number of bits.
pub fn power(bits: u32) -> u32
    requires { bits ≤ 14 }
    ensures { result ≡ 2 ^ bits }
{
    1 << bits
}

// The position of the Gray value of the seven lowest bits: that of four of them, then that of the three above, or its mirror image.
fn position7(x: u32) -> u32
    ensures { result ≡ position 7 x }
{
    let p = (FOUR >> (x % 16 * 4)) % 16;
    let q = (THREE >> (x / 16 % 8 * 4)) % 8;
    let p = p as u32;
    if p % 2 == 0 { p * 8 + q } else { p * 8 + 7 - q }
}

// The same of the lowest bits of x, as many as are asked for.
fn position(bits: u32, x: u32) -> u32
    requires { bits ≤ 7 }
    ensures { result ≡ position bits x }
{
    position7(x) >> (7 - bits)
}

// The Gray value of the lowest bits of x.
pub fn gray_value(bits: u32, x: u32) -> i32
    requires { bits ≤ 7 }
    ensures { result ≡ gray bits x }
{
    let all = power(bits);
    let p = position(bits, x);
    if 2 * p < all {
        (all - 1 - 2 * p) as i32
    } else {
        negated((2 * p + 1 - all) as i32)
    }
}

// Whether a number is a Gray value of so many bits.
pub fn is_gray(bits: u32, c: i32) -> bool
    requires { bits ≤ 7 }
    ensures { result ≡ is_gray bits c }
{
    let m = magnitude(c);
    if m % 2 == 0 {
        return false;
    }
    m < power(bits)
}

// The seven bits whose Gray value stands at a position.
fn bits7(p: u32) -> u32
    requires { p < 128 }
    ensures { result ≡ bits_at 7 p }
{
    let h = p / 8;
    let low = ((BACK_FOUR >> (h * 4)) % 16) as u32;
    if h % 2 == 0 {
        low + (BACK_THREE >> (p % 8 * 4)) % 8 * 16
    } else {
        low + (BACK_THREE >> ((7 - p % 8) * 4)) % 8 * 16
    }
}

// The bits whose Gray value stands at a position: those of the position among seven bits where all bits above are 0.
fn bits_at(bits: u32, p: u32) -> u32
    requires { (bits ≤ 7) × (p < 2 ^ bits) }
    ensures { result ≡ bits_at bits p }
{
    let wide = power(7 - bits);
    if p % 2 == 0 {
        bits7(p * wide)
    } else {
        bits7((p + 1) * wide - 1)
    }
}

// The position of a Gray value.
fn position_of(bits: u32, c: i32) -> u32
    requires { (bits ≤ 7) × (nat_abs c < 2 ^ bits) }
    ensures { result ≡ position_of bits c }
{
    let m = magnitude(c);
    if c < 0 {
        (power(bits) + m - 1) / 2
    } else {
        (power(bits) - 1 - m) / 2
    }
}

// The bits of a Gray value.
pub fn gray_bits(bits: u32, c: i32) -> u32
    requires { (bits ≤ 7) × (nat_abs c < 2 ^ bits) }
    ensures { result ≡ bits_of bits c }
{
    bits_at(bits, position_of(bits, c))
}
