// The scaled point of a value read from a table of all scaled coordinates (request 04). The table is made once for a modulator symbol.
#![tactic(auto)]

ghost use Rattle.std.specs.Prelude.{◌≡◌, true, suc, ◌+◌, ◌*◌, ◌/◌, ◌%◌, ◌^◌, ◌<◌, ◌≤◌, eqb, pos, length};
ghost use Rattle.counting.specs.Search.{bit};
ghost use Rattle.gray.specs.Gray.{gray};
ghost use Rattle.points.specs.Points.{cross, even_point, odd_point, point_of, load_listed};
ghost use Rattle.scaling.specs.Scale.{scaled_point};
ghost use Rattle.coordinates.specs.Table.{GrayRows, times, Written, entries, Rows, Filled};

use gray::power;
use points::crossed;
use scaling::{ScaledPoint, factor, scale};

// How many numbers the table has.
pub const ENTRIES: usize = 2304;

// The Gray values of one bit more than n.
fn gray_row(w: &mut [i32; 256], n: u32)
    requires { (length w.old ≡ 256) × (n < 7) × GrayRows (suc n) w.old }
    ensures { (length w.new ≡ 256) × GrayRows (suc (suc n)) w.new }
{
    let p = power(n);
    let step = p as i32;
    for k in p as usize..2 * p as usize {
        let c = step + w[k];
        w[2 * k] = c;
        w[2 * k + 1] = -c;
    }
}

// The Gray values of up to seven bits, each row from the one before.
fn gray_rows(w: &mut [i32; 256])
    requires { length w.old ≡ 256 }
    ensures { (length w.new ≡ 256) × GrayRows 8 w.new }
{
    w[1] = 0;
    for n in 0..7 {
        gray_row(w, n);
    }
}

// A row of Gray values, times a factor.
fn fill_row(t: &mut [f32; ENTRIES], w: &[i32; 256], at: usize, bits: u32, f: f32)
    requires { (length t.old ≡ entries) × GrayRows 8 w.now × (bits ≤ 7) × (at ≤ 2176) }
    ensures { Written t.old at (2 ^ bits) (λ i. times f (gray bits i)) t.new }
{
    let p = power(bits) as usize;
    for i in 0..p {
        t[at + i] = scale(w[p + i], f);
    }
}

// A row of first coordinates from the upper bits, times a factor: by the cross rule, at a second coordinate q.
fn fill_upper(t: &mut [f32; ENTRIES], w: &[i32; 256], at: usize, bits: u32, s: u32, q: u32, f: f32)
    requires { (length t.old ≡ entries) × GrayRows 8 w.now × (bits ≤ 7) × (at ≤ 2176) × (s ≤ 32) × (2 ^ bits ≤ 4 * s) × (q < 2 * s) }
    ensures { Written t.old at (2 ^ bits) (λ i. times f (cross s (gray bits i) (pos q)).x) t.new }
{
    let p = power(bits) as usize;
    for k in 0..p {
        t[at + k] = scale(crossed(s, w[p + k], q as i32).x, f);
    }
}

// A row of second coordinates from the lower bits, times a factor: by the cross rule, at a first coordinate i.
fn fill_lower(t: &mut [f32; ENTRIES], w: &[i32; 256], at: usize, bits: u32, s: u32, i: u32, f: f32)
    requires { (length t.old ≡ entries) × GrayRows 8 w.now × (bits ≤ 7) × (at ≤ 2176) × (s ≤ 32) × (2 ^ bits ≤ 2 * s) × (i < 4 * s) }
    ensures { Written t.old at (2 ^ bits) (λ k. times f (cross s (pos i) (gray bits k)).y) t.new }
{
    let p = power(bits) as usize;
    for k in 0..p {
        t[at + k] = scale(crossed(s, i as i32, w[p + k]).y, f);
    }
}

// The rows of load 1 and of the even loads.
fn fill_even(t: &mut [f32; ENTRIES], w: &[i32; 256])
    requires { (length t.old ≡ entries) × GrayRows 8 w.now }
    ensures { Rows 8 3 t.new }
{
    fill_row(t, w, 0, 1, factor(1));
    for n in 1..8 {
        fill_row(t, w, power(n) as usize, n, factor(2 * n));
    }
}

// The four rows of load 2n + 1.
fn fill_cross(t: &mut [f32; ENTRIES], w: &[i32; 256], n: u32)
    requires { Rows 8 n t.old × GrayRows 8 w.now × (2 < n) × (n < 7) }
    ensures { Rows 8 (suc n) t.new }
{
    let s = power(n - 1);
    let f = factor(2 * n + 1);
    let at = (512 * n - 1280) as usize;
    fill_upper(t, w, at, n + 1, s, 2 * s - 1, f);
    fill_upper(t, w, at + 128, n + 1, s, 1, f);
    fill_lower(t, w, at + 256, n, s, 1, f);
    fill_lower(t, w, at + 384, n, s, 4 * s - 1, f);
}

// The rows of the odd loads from 7 on.
fn fill_odd(t: &mut [f32; ENTRIES], w: &[i32; 256])
    requires { Rows 8 3 t.old × GrayRows 8 w.now }
    ensures { Filled t.new }
{
    for n in 3..7 {
        fill_cross(t, w, n);
    }
}

// All rows.
pub fn fill_table(t: &mut [f32; ENTRIES])
    requires { length t.old ≡ entries }
    ensures { Filled t.new }
{
    let mut w = [0i32; 256];
    gray_rows(&mut w);
    fill_even(t, &w);
    fill_odd(t, &w);
}

// The scaled point of a value of 2n bits.
fn even_point(t: &[f32; ENTRIES], n: u32, value: u32) -> ScaledPoint
    requires { Filled t.now × (0 < n) × (n < 8) × (value < 2 ^ (n + n)) }
    ensures { result ≡ scaled_point (2 * n) (even_point n value) }
{
    let p = power(n);
    let y = t[(p + (value >> n)) as usize];
    let x = t[(p + value % p) as usize];
    ScaledPoint { x, y }
}

// 128 where the cross rule moves the points of these upper bits, else 0: their row stands so much further on.
fn moved_by(high: u32) -> u32
    ensures { result ≡ 128 * bit (eqb (high / 2 % 4) 0) }
{
    if high / 2 % 4 == 0 { 128 } else { 0 }
}

// The scaled point of a value of 2n + 1 bits.
fn odd_point(t: &[f32; ENTRIES], n: u32, value: u32) -> ScaledPoint
    requires { Filled t.now × (2 < n) × (n < 7) × (value < 2 ^ (suc n + n)) }
    ensures { result ≡ scaled_point (2 * n + 1) (odd_point n value) }
{
    let at = 512 * n - 1280;
    let high = value >> n;
    let low = value % power(n);
    let x = t[(at + 128 * (value / 2 % 2) + high) as usize];
    let y = t[(at + 256 + moved_by(high) + low) as usize];
    ScaledPoint { x, y }
}

// The scaled point of a value. No branch depends on the value.
pub fn point_from(t: &[f32; ENTRIES], load: u32, value: u32) -> ScaledPoint
    requires { Filled t.now × (load_listed load ≡ true) × (value < 2 ^ load) }
    ensures { result ≡ scaled_point load (point_of load value) }
{
    let n = load / 2;
    if load % 2 == 0 {
        return even_point(t, n, value);
    }
    if load == 1 {
        return ScaledPoint {
            x: t[value as usize],
            y: 0.0,
        };
    }
    odd_point(t, n, value)
}
