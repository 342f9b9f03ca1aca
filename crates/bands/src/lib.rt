// The bands of a plan from the sorted runs of its excluded subcarriers, and the individually excluded inside them.
// `plan` is lent for the contracts alone.
#![tactic(auto)]

ghost use Rattle.std.specs.Prelude.{◌≡◌, ◌||◌, leb, length, ◌+◌, ◌-◌, ◌≤◌, ◌<◌};
ghost use Rattle.rules.specs.Plan.{plan_of};
ghost use Rattle.rules.specs.Fits.{Fits, capacity, limit};
ghost use Rattle.bands.specs.BandList.{EdgeRuns, BandList, Pushed};

use counting::wide;
use rules::Device;

// The run e to u - 1 is an exclusion band: it has `run` or more, or touches the last of `size` subcarriers.
fn separates(size: usize, run: usize, e: usize, u: usize) -> bool
    requires { (run ≤ limit) × (e ≤ capacity) }
    ensures { result ≡ (leb size u || leb (e + run) u) }
{
    if size <= u {
        return true;
    }
    e + run <= u
}

// The numbers e to u - 1 put into x from `at` on; the answer is the place after them.
fn push(x: &mut [u16; 4096], at: usize, e: usize, u: usize) -> usize
    requires { (length x.old ≡ capacity) × (e ≤ u) × (u ≤ capacity) × (at + (u - e) ≤ capacity) }
    ensures { (result ≡ at + (u - e)) × Pushed x.old x.new at e u × (length x.new ≡ capacity) }
{
    for y in e..u {
        x[at + (y - e)] = y as u16;
    }
    at + (u - e)
}

// The bands from the runs: a their lowest subcarriers, b their highest, x the individually excluded, c where in x each band's begin.
// The answer is how many bands there are.
pub fn bands(
    d: Device,
    plan: &[u8],
    lo: &[u16],
    hi: &[u16],
    n: usize,
    a: &mut [u16; 256],
    b: &mut [u16; 256],
    c: &mut [u16; 256],
    x: &mut [u16; 4096],
) -> usize
    requires { Fits d × EdgeRuns d (plan_of plan.now) lo.now hi.now n × (length a.old ≡ 256) × (length b.old ≡ 256) × (length c.old ≡ 256) × (length x.old ≡ 4096) }
    ensures { BandList d (plan_of plan.now) a.new b.new c.new x.new result × (result < 256) }
{
    c[0] = 0;
    let mut m: usize = 0;
    let mut nx: usize = 0;
    let mut s = wide(hi[0]);
    for i in 1..n {
        let e = wide(lo[i]);
        let u = wide(hi[i]);
        if separates(d.subcarriers, d.exclusion_run, e, u) {
            a[m] = s as u16;
            b[m] = (e - 1) as u16;
            m += 1;
            c[m] = nx as u16;
            s = u;
            continue;
        }
        nx = push(x, nx, e, u);
    }
    m
}
