// The marks painted into a lent array: the excluded subcarriers, then the PLC and the predefined pilots. The further pilots follow in crate
// markgrounds, with grounds 6 to 8. `plan` is there for the contracts: these functions do not read it.
#![tactic(auto)]

ghost use Rattle.std.specs.Prelude.{◌≤◌, ◌≡◌, length};
ghost use Rattle.counting.specs.Runs.{Runs};
ghost use Rattle.rules.specs.Plan.{plan_of};
ghost use Rattle.rules.specs.Bands.{excluded};
ghost use Rattle.rules.specs.Roles.{one_of, predefined, continuous_mark};
ghost use Rattle.rules.specs.Fits.{capacity};
ghost use Rattle.marks.specs.Marked.{Cells};
ghost use Rattle.marks.specs.Stages.{between, Stamped, AllBelow, painted, with_pilots, Free};

use counting::wide;
use rules::Device;

// The mark of an excluded subcarrier.
const EXCLUDED: u16 = 0x8002;

// The mark of a continuous pilot.
const CONTINUOUS: u16 = 0x8003;

// The mark of a subcarrier of the PLC.
const PLC: u16 = 0x8004;

// The cells from a to b - 1 set to v.
fn spread(m: &mut [u16; 4096], a: usize, b: usize, v: u16)
    requires { (length m.old ≡ capacity) × (a ≤ b) × (b ≤ capacity) }
    ensures { Stamped v (between a b) m.old m.new }
{
    m[a..b].fill(v);
}

// The marks cleared, and the excluded subcarriers painted.
pub fn paint(plan: &[u8], size: usize, lo: &[u16], hi: &[u16], n: usize, m: &mut [u16; 4096])
    requires { Runs (excluded (plan_of plan.now)) size lo.now hi.now n × (n ≤ length lo.now) × (n ≤ length hi.now) × (length m.old ≡ capacity) × (size ≤ capacity) }
    ensures { Cells size (painted (excluded (plan_of plan.now))) m.new }
{
    spread(m, 0, size, 0);
    for i in 0..n {
        spread(m, wide(lo[i]), wide(hi[i]), EXCLUDED);
    }
}

// The pilots marked.
fn mark_pilots(m: &mut [u16; 4096], pilots: [u16; 8])
    requires { (length m.old ≡ capacity) × AllBelow capacity pilots }
    ensures { Stamped continuous_mark (λ k. one_of k pilots) m.old m.new }
{
    for x in pilots.iter() {
        m[wide(*x)] = CONTINUOUS;
    }
}

// The PLC and the predefined pilots marked, none of which is excluded.
pub fn mark_fixed(d: Device, plan: &[u8], m: &mut [u16; 4096], l: usize)
    requires { Free d (plan_of plan.now) l × Cells d.subcarriers (painted (excluded (plan_of plan.now))) m.old }
    ensures { Cells d.subcarriers (with_pilots d (plan_of plan.now) (λ k. one_of k (predefined d (plan_of plan.now).plc))) m.new }
{
    spread(m, l, l + d.plc_width, PLC);
    mark_pilots(m, roles::pilots_of(d, l));
}
