// What the modulator is given (request 04): what stands on the line at a subcarrier, silent, open, a point or a pilot, and the two numbers
// of it in a modulator symbol (specs/Symbols; docs/MODULATOR.md).
#![tactic(auto)]

ghost use Rattle.std.specs.Prelude.{◌≡◌, true, ℕ, ◌+◌, ◌*◌, ◌<◌, ◌≤◌, length};
ghost use Rattle.rules.specs.Loads.{point_load};
ghost use Rattle.points.specs.Points.{load_listed};
ghost use Rattle.modulator.specs.Lines.{amplitude, mark_line, line_answer, near_line_answer};
ghost use Rattle.modulator.specs.Symbols.{pair, put};
ghost use Rattle.modulator.specs.Claims.{LineClaims, ProfileClaims};

use gray::power;
use points::load_listed;
use rules::Refusal;
use scaling::{ScaledPoint, scaled_at};

// What stands on the line at a subcarrier.
#[derive(Clone, Copy)]
pub enum OnLine {
    Silent,
    // left open for the PLC
    Open,
    Point(ScaledPoint),
    // its amplitude
    Pilot(f32),
}

// A refused modulator symbol: the refusal, and the subcarrier.
#[derive(Clone, Copy)]
pub struct RefusedPoint {
    pub refusal: Refusal,
    pub subcarrier: u32,
}

// A pilot of amplitude 2, with the minus sign where its sign bit is 1.
fn pilot(minus: bool) -> OnLine
    ensures { result ≡ OnLine.Pilot (amplitude minus) }
{
    if minus {
        OnLine::Pilot(-2.0)
    } else {
        OnLine::Pilot(2.0)
    }
}

// What stands on the line for a mark: filler and excluded, PLC, scattered and continuous.
pub fn mark_line(mark: u16, minus: bool) -> OnLine
    requires { (0x8000 ≤ mark) × (mark < 0x8005) }
    ensures { result ≡ mark_line mark minus }
{
    if mark == 0x8001 {
        return OnLine::Silent;
    }
    if mark == 0x8002 {
        return OnLine::Silent;
    }
    if mark == 0x8004 {
        return OnLine::Open;
    }
    pilot(minus)
}

// What stands on the line for a cell, its load and the pilot's sign bit, true for 1: refused by 22, then 23.
pub fn on_line(cell: u16, load: u32, minus: bool) -> Result<OnLine, Refusal>
    ensures answer { result ≡ line_answer cell load minus }
    ensures near { near_line_answer cell load result ≡ true }
{
    if !load_listed(load) {
        return Err(Refusal {
            number: 22,
            place: load,
        });
    }
    if 0x8000 <= cell {
        if cell < 0x8005 {
            return Ok(mark_line(cell, minus));
        }
        return Err(Refusal {
            number: 23,
            place: cell as u32,
        });
    }
    let value = cell as u32;
    if power(load) <= value {
        return Err(Refusal {
            number: 23,
            place: value,
        });
    }
    Ok(OnLine::Point(scaled_at(load, value)))
}

// The two numbers of a subcarrier.
fn put_pair(out: &mut [f32], k: usize, x: f32, y: f32)
    requires { 2 * k + 1 < length out.old }
    ensures { out.new ≡ pair out.old k x y }
{
    out[2 * k] = x;
    out[2 * k + 1] = y;
}

// Fills the two numbers of a subcarrier in a modulator symbol; of one that is left open they stay as they are.
pub fn fill_subcarrier(out: &mut [f32], k: usize, line: OnLine)
    requires { 2 * k + 1 < length out.old }
    ensures { out.new ≡ put out.old k line }
{
    match line {
        OnLine::Silent => put_pair(out, k, 0.0, 0.0),
        OnLine::Open => {}
        OnLine::Point(s) => put_pair(out, k, s.x, s.y),
        OnLine::Pilot(a) => put_pair(out, k, a, 0.0),
    }
}

// Every listed load: what stands on the line for each of the five marks, and past them.
pub fn line_claims()
    ensures { (m : ℕ) → load_listed m ≡ true → LineClaims m }
{}

// The load with which the modulator is given a subcarrier of a load profile (request 07): load 1 for load 0, else the same.
pub fn point_load(load: u32) -> u32
    ensures { result ≡ point_load load }
{
    if load == 0 {
        return 1;
    }
    load
}

// Every load that a profile may hold: what its limit allows, and every mark, stands on the line at `point_load` of it.
pub fn profile_claims()
    ensures { ProfileClaims }
{}
