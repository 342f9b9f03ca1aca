// The way back from a whole-number point of the modulator (request 04): `value_of` gives the one value that makes it.
#![tactic(auto)]

ghost use Rattle.std.specs.Prelude.{◌≡◌, true, ℕ, ◌+◌, ◌*◌, ◌^◌, ◌<◌, ◌≤◌, nat_abs};
ghost use Rattle.gray.specs.Positions.{bits_of};
ghost use Rattle.points.specs.Points.{at, load_listed};
ghost use Rattle.points.specs.Back.{in_cross, uncross, inside, back};
ghost use Rattle.values.specs.Answers.{value_answer};
ghost use Rattle.values.specs.Claims.{PointClaims};

use gray::{gray_bits, is_gray, magnitude, power};
use points::{Point, load_listed, signed_point};
use rules::Refusal;

// Whether a point lies in the cross.
fn in_cross(s: u32, x: i32, y: i32) -> bool
    requires { s ≤ 32 }
    ensures { result ≡ in_cross s (at x y) }
{
    let a = magnitude(x);
    let b = magnitude(y);
    if a % 2 != 1 {
        return false;
    }
    if b % 2 != 1 {
        return false;
    }
    if 3 * s <= a {
        return false;
    }
    if 3 * s <= b {
        return false;
    }
    if a < 2 * s {
        return true;
    }
    b < 2 * s
}

// The point of the rectangle that the cross rule moves to a point of the cross.
fn uncrossed(s: u32, x: i32, y: i32) -> Point
    requires { (s ≤ 32) × (in_cross s (at x y) ≡ true) }
    ensures { result ≡ uncross s (at x y) }
{
    let a = magnitude(x);
    let b = magnitude(y);
    if b < 2 * s {
        return Point { x, y };
    }
    if s < a {
        return signed_point(x, y, a + 2 * s, 4 * s - b);
    }
    signed_point(x, y, 4 * s - a, b - 2 * s)
}

// Whether some value makes a point.
fn inside(load: u32, x: i32, y: i32) -> bool
    requires { (1 ≤ load) × (load ≤ 14) }
    ensures { result ≡ inside load (at x y) }
{
    if load == 1 {
        if !is_gray(1, x) {
            return false;
        }
        return magnitude(y) == 0;
    }
    let n = load / 2;
    if load % 2 == 0 {
        if !is_gray(n, x) {
            return false;
        }
        return is_gray(n, y);
    }
    in_cross(power(n - 1), x, y)
}

// The bits of two Gray values, those of the second lower.
fn joined(j: u32, high: i32, n: u32, low: i32) -> u32
    requires { (j ≤ 7) × (nat_abs high < 2 ^ j) × (n ≤ 7) × (nat_abs low < 2 ^ n) }
    ensures { result ≡ bits_of j high * 2 ^ n + bits_of n low }
{
    gray_bits(j, high) * power(n) + gray_bits(n, low)
}

// The value that makes a point.
fn back(load: u32, x: i32, y: i32) -> u32
    requires { (load_listed load ≡ true) × (inside load (at x y) ≡ true) }
    ensures { result ≡ back load (at x y) }
{
    if load == 1 {
        return gray_bits(1, x);
    }
    let n = load / 2;
    if load % 2 == 0 {
        return joined(n, y, n, x);
    }
    let r = uncrossed(power(n - 1), x, y);
    joined(n + 1, r.x, n, r.y)
}

// The one value that makes a point: refused by 22, then 24.
pub fn value_of(load: u32, x: i32, y: i32) -> Result<u32, Refusal>
    ensures { result ≡ value_answer load (at x y) }
{
    if !load_listed(load) {
        return Err(Refusal {
            number: 22,
            place: load,
        });
    }
    if !inside(load, x, y) {
        return Err(Refusal {
            number: 24,
            place: 0,
        });
    }
    Ok(back(load, x, y))
}

// Every listed load: the way back, distinct points, and the ends of a coordinate's range.
pub fn point_claims()
    ensures { (m : ℕ) → load_listed m ≡ true → PointClaims m }
{}
