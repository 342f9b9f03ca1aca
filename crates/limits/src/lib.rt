// The limits of a band: its width, and how many are excluded in it. Each search over the bands gives the first that breaks a limit (grounds
// 9 and 12) or keeps one (10). `plan` is lent for the contracts alone.
#![tactic(auto)]

ghost use Rattle.std.specs.Prelude.{◌≡◌, ◌≤◌, ◌<◌};
ghost use Rattle.counting.specs.Search.{first};
ghost use Rattle.rules.specs.Plan.{plan_of};
ghost use Rattle.rules.specs.Bands.{width};
ghost use Rattle.rules.specs.Fits.{Fits, capacity};
ghost use Rattle.bands.specs.BandList.{BandList};
ghost use Rattle.limits.specs.BandAt.{BandAt};
ghost use Rattle.limits.specs.Answers.{narrow_in, wide_in, much_in, at_band};

use counting::wide;
use rules::Device;

// A band, and its part of the list x of the individually excluded: from `from` to `to` - 1.
#[derive(Clone, Copy)]
pub struct Band {
    pub low: usize,
    pub high: usize,
    pub from: usize,
    pub to: usize,
}

// Band j of the lists.
pub fn band_at(
    d: Device,
    plan: &[u8],
    a: &[u16; 256],
    b: &[u16; 256],
    c: &[u16; 256],
    x: &[u16; 4096],
    m: usize,
    j: usize,
) -> Band
    requires { Fits d × BandList d (plan_of plan.now) a.now b.now c.now x.now m × (m < 256) × (j < m) }
    ensures { BandAt (plan_of plan.now) a.now b.now x.now j result.low result.high result.from result.to }
{
    Band {
        low: wide(a[j]),
        high: wide(b[j]),
        from: wide(c[j]),
        to: wide(c[j + 1]),
    }
}

// The width of a band from a to b, or the span from a to b: its subcarriers are counted.
pub fn width_of(a: usize, b: usize) -> usize
    requires { (a ≤ b) × (b < capacity) }
    ensures { result ≡ width a b }
{
    b - a + 1
}

// The lowest band narrower than w (ground 9).
pub fn first_narrow(
    d: Device,
    plan: &[u8],
    a: &[u16; 256],
    b: &[u16; 256],
    c: &[u16; 256],
    x: &[u16; 4096],
    m: usize,
    w: usize,
) -> Option<u32>
    requires { Fits d × BandList d (plan_of plan.now) a.now b.now c.now x.now m × (m < 256) }
    ensures { result ≡ first (at_band (narrow_in w) a.now b.now) m }
{
    for j in 0..m {
        let k = band_at(d, plan, a, b, c, x, m, j);
        if width_of(k.low, k.high) < w {
            return Some(k.low as u32);
        }
    }
    None
}

// The lowest band of width w or more (ground 10).
pub fn first_wide(
    d: Device,
    plan: &[u8],
    a: &[u16; 256],
    b: &[u16; 256],
    c: &[u16; 256],
    x: &[u16; 4096],
    m: usize,
    w: usize,
) -> Option<u32>
    requires { Fits d × BandList d (plan_of plan.now) a.now b.now c.now x.now m × (m < 256) }
    ensures { result ≡ first (at_band (wide_in w) a.now b.now) m }
{
    for j in 0..m {
        let k = band_at(d, plan, a, b, c, x, m, j);
        if w <= width_of(k.low, k.high) {
            return Some(k.low as u32);
        }
    }
    None
}

// The lowest band with too many excluded for its width (ground 12).
pub fn first_much(
    d: Device,
    plan: &[u8],
    a: &[u16; 256],
    b: &[u16; 256],
    c: &[u16; 256],
    x: &[u16; 4096],
    m: usize,
) -> Option<u32>
    requires { Fits d × BandList d (plan_of plan.now) a.now b.now c.now x.now m × (m < 256) }
    ensures { result ≡ first (at_band (much_in (plan_of plan.now)) a.now b.now) m }
{
    for j in 0..m {
        let k = band_at(d, plan, a, b, c, x, m, j);
        if width_of(k.low, k.high) < 20 * (k.to - k.from) {
            return Some(k.low as u32);
        }
    }
    None
}
