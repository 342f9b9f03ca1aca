// The windows of a band: the lowest that has too many excluded (grounds 13 and 14). A window lies wholly inside one band. `plan` is lent for
// the contracts alone.
#![tactic(auto)]

ghost use Rattle.std.specs.Prelude.{◌≡◌, suc, max, ◌-◌, ◌≤◌, ◌<◌};
ghost use Rattle.counting.specs.Search.{first};
ghost use Rattle.counting.specs.Runs.{Singles};
ghost use Rattle.rules.specs.Plan.{plan_of};
ghost use Rattle.rules.specs.Bands.{excluded};
ghost use Rattle.rules.specs.Fits.{Fits, capacity, limit};
ghost use Rattle.bands.specs.BandList.{BandList};
ghost use Rattle.limits.specs.Answers.{at_band};
ghost use Rattle.windows.specs.Windows.{window_in};

use counting::wide;
use rules::Device;

// The first subcarrier of the lowest window of `size` that ends at v and lies in a band from a on.
fn window_start(v: usize, a: usize, size: usize) -> usize
    requires { (v < 65536) × (a ≤ capacity) × (size ≤ limit) }
    ensures { result ≡ max a (suc v - size) }
{
    if v + 1 < a + size {
        return a;
    }
    v + 1 - size
}

// The lowest window of `size` inside the band a to b that has more than `most` excluded.
fn window_in(
    plan: &[u8],
    x: &[u16; 4096],
    from: usize,
    to: usize,
    a: usize,
    b: usize,
    size: usize,
    most: usize,
) -> Option<u32>
    requires { Singles (excluded (plan_of plan.now)) a b x.now from to × (to ≤ capacity) × (b < capacity) × (size ≤ limit) × (most ≤ limit) }
    ensures { result ≡ window_in (plan_of plan.now) size most a b }
{
    if b + 1 < a + size {
        return None;
    }
    for q in from..to.saturating_sub(most) {
        let v = wide(x[q + most]);
        if v < wide(x[q]) + size {
            return Some(window_start(v, a, size) as u32);
        }
    }
    None
}

// The lowest window of `size` inside a band that has more than `most` excluded (grounds 13 and 14).
pub fn first_window(
    d: Device,
    plan: &[u8],
    a: &[u16; 256],
    b: &[u16; 256],
    c: &[u16; 256],
    x: &[u16; 4096],
    m: usize,
    size: usize,
    most: usize,
) -> Option<u32>
    requires { Fits d × BandList d (plan_of plan.now) a.now b.now c.now x.now m × (m < 256) × (size ≤ limit) × (most ≤ limit) }
    ensures { result ≡ first (at_band (window_in (plan_of plan.now) size most) a.now b.now) m }
{
    for j in 0..m {
        let k = limits::band_at(d, plan, a, b, c, x, m, j);
        if let Some(at) = window_in(plan, x, k.from, k.to, k.low, k.high, size, most) {
            return Some(at);
        }
    }
    None
}
