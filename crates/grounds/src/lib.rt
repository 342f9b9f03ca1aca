// Grounds 9 to 15, from the runs of excluded subcarriers and the marks of a plan that passed 1 to 8. The plan's bytes are not
// read here: they are lent so that the contracts can speak of the plan.
#![tactic(auto)]

ghost use Rattle.std.specs.Prelude.{◌≡◌, ◌<◌};
ghost use Rattle.rules.specs.Plan.{plan_of};
ghost use Rattle.rules.specs.Roles.{ranked_count};
ghost use Rattle.rules.specs.Grounds.{answer};
ghost use Rattle.rules.specs.Fits.{Fits};
ghost use Rattle.bands.specs.BandList.{EdgeRuns, BandList};
ghost use Rattle.marks.specs.Marked.{Marked};
ghost use Rattle.grounds.specs.Order.{grounds13to15, grounds11to15, grounds9to15};

use rules::{Device, Refusal};

// Grounds 13 to 15.
fn grounds_13_to_15(
    d: Device,
    plan: &[u8],
    m: &[u16; 4096],
    a: &[u16; 256],
    b: &[u16; 256],
    c: &[u16; 256],
    x: &[u16; 4096],
    bands: usize,
) -> Result<u32, Refusal>
    requires { Fits d × Marked d (plan_of plan.now) m.now × BandList d (plan_of plan.now) a.now b.now c.now x.now bands × (bands < 256) }
    ensures { result ≡ answer (grounds13to15 d (plan_of plan.now)) (ranked_count d (plan_of plan.now)) }
{
    if let Some(k) = windows::first_window(d, plan, a, b, c, x, bands, d.long_window, d.long_max) {
        return Err(Refusal {
            number: 13,
            place: k,
        });
    }
    if let Some(k) = windows::first_window(
        d,
        plan,
        a,
        b,
        c,
        x,
        bands,
        d.short_window,
        d.short_max,
    ) {
        return Err(Refusal {
            number: 14,
            place: k,
        });
    }
    ranked::ground_15(d, plan, m)
}

// Grounds 11 to 15.
fn grounds_11_to_15(
    d: Device,
    plan: &[u8],
    lo: &[u16],
    hi: &[u16],
    n: usize,
    m: &[u16; 4096],
    a: &[u16; 256],
    b: &[u16; 256],
    c: &[u16; 256],
    x: &[u16; 4096],
    bands: usize,
) -> Result<u32, Refusal>
    requires { Fits d × EdgeRuns d (plan_of plan.now) lo.now hi.now n × Marked d (plan_of plan.now) m.now × BandList d (plan_of plan.now) a.now b.now c.now x.now bands × (bands < 256) }
    ensures { result ≡ answer (grounds11to15 d (plan_of plan.now)) (ranked_count d (plan_of plan.now)) }
{
    if span::much(d, plan, lo, hi, n) {
        return Err(Refusal {
            number: 11,
            place: 0,
        });
    }
    if let Some(k) = limits::first_much(d, plan, a, b, c, x, bands) {
        return Err(Refusal {
            number: 12,
            place: k,
        });
    }
    grounds_13_to_15(d, plan, m, a, b, c, x, bands)
}

// Grounds 9 to 15, over the list of the bands.
fn band_grounds(
    d: Device,
    plan: &[u8],
    lo: &[u16],
    hi: &[u16],
    n: usize,
    m: &[u16; 4096],
    a: &[u16; 256],
    b: &[u16; 256],
    c: &[u16; 256],
    x: &[u16; 4096],
    bands: usize,
) -> Result<u32, Refusal>
    requires { Fits d × EdgeRuns d (plan_of plan.now) lo.now hi.now n × Marked d (plan_of plan.now) m.now × BandList d (plan_of plan.now) a.now b.now c.now x.now bands × (bands < 256) }
    ensures { result ≡ answer (grounds9to15 d (plan_of plan.now)) (ranked_count d (plan_of plan.now)) }
{
    if let Some(k) = limits::first_narrow(d, plan, a, b, c, x, bands, d.band_min) {
        return Err(Refusal {
            number: 9,
            place: k,
        });
    }
    if let None = limits::first_wide(d, plan, a, b, c, x, bands, d.band_wide) {
        return Err(Refusal {
            number: 10,
            place: 0,
        });
    }
    grounds_11_to_15(d, plan, lo, hi, n, m, a, b, c, x, bands)
}

// Grounds 9 to 15, and N_I where none holds.
pub fn grounds_9_to_15(
    d: Device,
    plan: &[u8],
    lo: &[u16],
    hi: &[u16],
    n: usize,
    m: &[u16; 4096],
) -> Result<u32, Refusal>
    requires { Fits d × EdgeRuns d (plan_of plan.now) lo.now hi.now n × Marked d (plan_of plan.now) m.now }
    ensures { result ≡ answer (grounds9to15 d (plan_of plan.now)) (ranked_count d (plan_of plan.now)) }
{
    let mut a = [0u16; 256];
    let mut b = [0u16; 256];
    let mut c = [0u16; 256];
    let mut x = [0u16; 4096];
    let bands = bands::bands(d, plan, lo, hi, n, &mut a, &mut b, &mut c, &mut x);
    band_grounds(d, plan, lo, hi, n, m, &a, &b, &c, &x, bands)
}
