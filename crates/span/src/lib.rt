// Ground 11: what is excluded between the lowest and the highest active subcarrier, against the span. The plan's bytes are not read here: they
// are lent so that the contracts can speak of the plan.
#![tactic(auto)]

ghost use Rattle.std.specs.Prelude.{◌≡◌, get_or, ◌+◌, ◌-◌, ◌≤◌};
ghost use Rattle.counting.specs.Search.{count};
ghost use Rattle.rules.specs.Plan.{plan_of};
ghost use Rattle.rules.specs.Bands.{excluded};
ghost use Rattle.rules.specs.Grounds.{much_excluded};
ghost use Rattle.rules.specs.Fits.{Fits};
ghost use Rattle.bands.specs.BandList.{EdgeRuns};

use counting::wide;
use rules::Device;

// How many subcarriers are excluded between the first run and the last, which touch the ends.
fn inner(d: Device, plan: &[u8], lo: &[u16], hi: &[u16], n: usize) -> usize
    requires { Fits d × EdgeRuns d (plan_of plan.now) lo.now hi.now n }
    ensures { (result + count (excluded (plan_of plan.now)) (get_or hi.now 0 0) ≡ count (excluded (plan_of plan.now)) (get_or lo.now (n - 1) 0)) × (result ≤ 4096) }
{
    let mut sum: usize = 0;
    for i in 1..n - 1 {
        sum += wide(hi[i]) - wide(lo[i]);
    }
    sum
}

// Ground 11.
pub fn much(d: Device, plan: &[u8], lo: &[u16], hi: &[u16], n: usize) -> bool
    requires { Fits d × EdgeRuns d (plan_of plan.now) lo.now hi.now n }
    ensures { result ≡ much_excluded d (plan_of plan.now) }
{
    let g = inner(d, plan, lo, hi, n);
    let first = wide(hi[0]);
    let end = wide(lo[n - 1]);
    limits::width_of(first, end - 1) < 5 * g
}
