// Scaled points (request 04): whole-number points times the stored factors of source document 000, in single precision.
#![tactic(auto)]

ghost use Rattle.std.specs.Prelude.{◌≡◌, true, ℕ, ◌<◌, ◌≤◌, nat_abs};
ghost use Rattle.std.specs.Float.{binary32};
ghost use Rattle.std.specs.Float.Ieee.{mul, of_int, to_bits};
ghost use Rattle.points.specs.Points.{point_of, load_listed};
ghost use Rattle.points.specs.Roots.{root};
ghost use Rattle.scaling.specs.Single.{nearest};
ghost use Rattle.scaling.specs.Scale.{factor, scaled_point, root_answer, scaled_answer, near_answer};

use gray::power;
use points::{Point, load_listed, point_at};
use rules::Refusal;

// The numbers under the root, for loads 1 to 14 (the document's table of scaling factors).
const ROOTS: [u32; 14] = [
    1, 2, 5, 10, 20, 42, 82, 170, 330, 682, 1322, 2730, 5290, 10922,
];

// 1 over the root of each, the nearest in single precision (`factor_claims`).
const FACTORS: [f32; 14] = [
    1.0,
    0.70710677,
    0.4472136,
    0.31622776,
    0.2236068,
    0.15430336,
    0.11043153,
    0.0766965,
    0.05504819,
    0.03829198,
    0.027503267,
    0.019138975,
    0.013749033,
    0.009568611,
];

// A scaled point.
#[derive(Clone, Copy)]
pub struct ScaledPoint {
    pub x: f32,
    pub y: f32,
}

// The factor of a load.
pub fn factor(load: u32) -> f32
    requires { (1 ≤ load) × (load ≤ 14) }
    ensures { result ≡ factor load }
{
    let k = (load - 1) as usize;
    FACTORS[k]
}

// A whole coordinate times a factor.
pub fn scale(c: i32, f: f32) -> f32
    requires { nat_abs c < 128 }
    ensures { result ≡ mul binary32 (of_int binary32 c) f }
{
    (c as f32) * f
}

// Both coordinates of a point.
fn scale_point(load: u32, p: Point) -> ScaledPoint
    requires { (1 ≤ load) × (load ≤ 14) × (nat_abs p.x < 128) × (nat_abs p.y < 128) }
    ensures { result ≡ scaled_point load p }
{
    let f = factor(load);
    let x = scale(p.x, f);
    let y = scale(p.y, f);
    ScaledPoint { x, y }
}

// The number under the root of a load's factor.
fn root_at(load: u32) -> u32
    requires { (1 ≤ load) × (load ≤ 14) }
    ensures { result ≡ root load }
{
    let k = (load - 1) as usize;
    ROOTS[k]
}

// The number under the root: refused by 22.
pub fn root_of(load: u32) -> Result<u32, Refusal>
    ensures { result ≡ root_answer load }
{
    if !load_listed(load) {
        return Err(Refusal {
            number: 22,
            place: load,
        });
    }
    Ok(root_at(load))
}

// The scaled point of a value, where the load has been tried.
pub fn scaled_at(load: u32, value: u32) -> ScaledPoint
    requires { load_listed load ≡ true }
    ensures { result ≡ scaled_point load (point_of load value) }
{
    scale_point(load, point_at(load, value))
}

// The scaled point of a value: refused by 22, then 23.
pub fn scaled_of(load: u32, value: u32) -> Result<ScaledPoint, Refusal>
    ensures answer { result ≡ scaled_answer load value }
    ensures near { near_answer load value result ≡ true }
{
    if !load_listed(load) {
        return Err(Refusal {
            number: 22,
            place: load,
        });
    }
    if power(load) <= value {
        return Err(Refusal {
            number: 23,
            place: value,
        });
    }
    Ok(scaled_at(load, value))
}

// Each of the fourteen factors is the single nearest to 1 over the root.
pub fn factor_claims()
    ensures { (m : ℕ) → 1 ≤ m → m ≤ 14 → nearest (root m) (to_bits binary32 (factor m)) ≡ true }
{}
