// The predefined pilots of an L, and the role test: the role of a subcarrier at a phase, from its mark.
// `plan` is there for the contracts: the role test does not read it.
#![tactic(auto)]

ghost use Rattle.std.specs.Prelude.{◌≤◌, ◌<◌, ◌≡◌};
ghost use Rattle.rules.specs.Device.{khz50, phases};
ghost use Rattle.rules.specs.Plan.{plan_of};
ghost use Rattle.rules.specs.Roles.{one_of, predefined, mark, role};
ghost use Rattle.rules.specs.Answers.{pilots_of};
ghost use Rattle.rules.specs.Fits.{Fits};

use counting::wide;
use rules::{Device, Role};

// The mark of an excluded subcarrier.
const EXCLUDED: u16 = 0x8002;

// The mark of a continuous pilot.
const CONTINUOUS: u16 = 0x8003;

// Phases are 0 to 127.
const PHASES: usize = 128;

// The predefined pilots of L, rising.
pub fn pilots_of(d: Device, l: usize) -> [u16; 8]
    requires { Fits d × (d.low_plc ≤ l) × (l ≤ d.high_plc) }
    ensures { result ≡ predefined d l }
{
    let ds = d.distances;
    let a = wide(ds[0]);
    let b = wide(ds[1]);
    let c = wide(ds[2]);
    let e = wide(ds[3]);
    let last = l + d.plc_width - 1;
    [
        (l - e) as u16,
        (l - c) as u16,
        (l - b) as u16,
        (l - a) as u16,
        (last + a) as u16,
        (last + b) as u16,
        (last + c) as u16,
        (last + e) as u16,
    ]
}

// The predefined pilots of L in the 50 kHz device; zeros where L is out of its range.
pub fn predefined_pilots(l: u16) -> [u16; 8]
    ensures { result ≡ pilots_of khz50 l }
{
    let d = rules::khz50_device();
    let low = wide(l);
    if low < d.low_plc {
        return [0; 8];
    }
    if d.high_plc < low {
        return [0; 8];
    }
    pilots_of(d, low)
}

// k is one of the pilots.
pub fn is_among(pilots: [u16; 8], k: usize) -> bool
    ensures { result ≡ one_of k pilots }
{
    pilots.iter().any(|x| k == wide(*x))
}

// The role of subcarrier k at phase j, from its mark, the predefined pilots and L.
pub fn role_test(
    d: Device,
    plan: &[u8],
    m: u16,
    pilots: [u16; 8],
    l: usize,
    k: usize,
    j: usize,
) -> Role
    requires { Fits d × (m ≡ mark d (plan_of plan.now) k) × (pilots ≡ predefined d (plan_of plan.now).plc) × (l ≡ (plan_of plan.now).plc) × (l ≤ d.high_plc) × (k < d.subcarriers) × (j < phases) }
    ensures { result ≡ role d (plan_of plan.now) j k }
{
    if m == EXCLUDED {
        return Role::Excluded;
    }
    if l <= k {
        if k < l + d.plc_width {
            return Role::Plc;
        }
    }
    if is_among(pilots, k) {
        return Role::Continuous;
    }
    if m == CONTINUOUS {
        return Role::Continuous;
    }
    if k % PHASES == (l + d.plc_width + j) % PHASES {
        return Role::Scattered;
    }
    Role::Data
}
