// The whole-number points of the modulator (request 04, by source document 000): `point_of` gives the point of a value. The way back is
// crate values.
#![tactic(auto)]

ghost use Rattle.std.specs.Prelude.{◌≡◌, true, ◌*◌, ◌^◌, ◌<◌, ◌≤◌, nat_abs};
ghost use Rattle.gray.specs.Gray.{signed};
ghost use Rattle.points.specs.Points.{at, cross, point_of, load_listed};
ghost use Rattle.points.specs.Answers.{point_answer};
ghost use Rattle.points.specs.Table.{PointTable};
ghost use Rattle.points.specs.Squares.{SquareClaims};

use gray::{gray_value, magnitude, power, with_sign};
use rules::Refusal;

// A whole-number point.
#[derive(Clone, Copy)]
pub struct Point {
    pub x: i32,
    pub y: i32,
}

// Whether a load is one of those that request 04 lists.
pub fn load_listed(load: u32) -> bool
    ensures { result ≡ load_listed load }
{
    if load == 1 {
        return true;
    }
    if load == 2 {
        return true;
    }
    if load == 4 {
        return true;
    }
    if load < 6 {
        return false;
    }
    load <= 14
}

// The point with the signs of i and q and these absolute values.
pub fn signed_point(i: i32, q: i32, a: u32, b: u32) -> Point
    requires { (a < 2 ^ 31) × (b < 2 ^ 31) }
    ensures { result ≡ at (signed i a) (signed q b) }
{
    let x = with_sign(i, a);
    let y = with_sign(q, b);
    Point { x, y }
}

// The cross rule: a point of the rectangle that lies far out on the first axis moves above or below it.
pub fn crossed(s: u32, i: i32, q: i32) -> Point
    requires { (s ≤ 32) × (nat_abs i < 4 * s) × (nat_abs q < 2 * s) }
    ensures { result ≡ cross s i q }
{
    let a = magnitude(i);
    let b = magnitude(q);
    if a < 3 * s {
        return Point { x: i, y: q };
    }
    if s < b {
        return signed_point(i, q, a - 2 * s, 4 * s - b);
    }
    signed_point(i, q, 4 * s - a, b + 2 * s)
}

// The point of a value of a listed load.
pub fn point_at(load: u32, value: u32) -> Point
    requires { load_listed load ≡ true }
    ensures { result ≡ point_of load value }
{
    if load == 1 {
        let x = gray_value(1, value);
        return Point { x, y: 0 };
    }
    let n = load / 2;
    if load % 2 == 0 {
        let x = gray_value(n, value);
        let y = gray_value(n, value >> n);
        return Point { x, y };
    }
    let i = gray_value(n + 1, value >> n);
    let q = gray_value(n, value);
    crossed(power(n - 1), i, q)
}

// The point of a value: refused by 22, then 23.
pub fn point_of(load: u32, value: u32) -> Result<Point, Refusal>
    ensures { result ≡ point_answer load value }
{
    if !load_listed(load) {
        return Err(Refusal {
            number: 22,
            place: load,
        });
    }
    if power(load) <= value {
        return Err(Refusal {
            number: 23,
            place: value,
        });
    }
    Ok(point_at(load, value))
}

// The ends of every listed load and points of it: a table.
pub fn point_table()
    ensures { PointTable }
{}

// Every listed load: the mean square of its points is the number under the root of its factor.
pub fn square_claims()
    ensures { SquareClaims }
{}
