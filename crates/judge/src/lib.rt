// The judge of plans and what stands on it: the verdict, the role of a subcarrier, and how many are scattered. The entries `judge`,
// `role` and `scattered_count` read the plan bytes anew, change nothing and ask nothing of their caller.
#![tactic(auto)]

ghost use Rattle.std.specs.Prelude.{◌≡◌, ◌<◌};
ghost use Rattle.rules.specs.Device.{khz50, phases};
ghost use Rattle.rules.specs.Plan.{plan_of};
ghost use Rattle.rules.specs.Roles.{scattered_count};
ghost use Rattle.rules.specs.Grounds.{verdict};
ghost use Rattle.rules.specs.Answers.{role_in, role_answer, scattered_answer};
ghost use Rattle.rules.specs.Fits.{Fits};
ghost use Rattle.verdicts.specs.Studied.{Studied};

use rules::{Device, Refusal, Role};

// Phases are 0 to 127, and the scattered pilots of one phase stand so far apart.
const PHASES: usize = 128;

// The verdict on any bytes.
pub fn judge(plan: &[u8]) -> Result<u32, Refusal>
    ensures { result ≡ verdict khz50 plan.now }
{
    let mut m = [0u16; 4096];
    verdicts::study(rules::khz50_device(), plan, &mut m)
}

// The role of subcarrier k of an accepted plan at a phase; ground 16 where one is out of its range.
fn role_in(d: Device, plan: &[u8], m: &[u16; 4096], k: u32, phase: u32) -> Result<Role, Refusal>
    requires { Fits d × Studied d plan.now m.now }
    ensures { result ≡ role_in d plan.now k phase }
{
    let at = k as usize;
    let j = phase as usize;
    if d.subcarriers <= at {
        return Err(Refusal {
            number: 16,
            place: 0,
        });
    }
    if PHASES <= j {
        return Err(Refusal {
            number: 16,
            place: 0,
        });
    }
    let l = records::number_at(plan, 4);
    let pilots = roles::pilots_of(d, l);
    Ok(roles::role_test(d, plan, m[at], pilots, l, at, j))
}

// The role of a subcarrier at a phase.
pub fn role(plan: &[u8], k: u32, phase: u32) -> Result<Role, Refusal>
    ensures { result ≡ role_answer khz50 plan.now k phase }
{
    let d = rules::khz50_device();
    let mut marks = [0u16; 4096];
    verdicts::study(d, plan, &mut marks)?;
    role_in(d, plan, &marks, k, phase)
}

// How many subcarriers of an accepted plan are scattered at phase j: every 128th from the first is looked at.
fn count_scattered(d: Device, plan: &[u8], m: &[u16; 4096], l: usize, j: usize) -> u32
    requires { Fits d × Studied d plan.now m.now × (l ≡ (plan_of plan.now).plc) × (j < phases) }
    ensures { result ≡ scattered_count d (plan_of plan.now) j }
{
    let mut n: u32 = 0;
    for k in ((l + d.plc_width + j) % PHASES..d.subcarriers).step_by(PHASES) {
        n += u32::from(m[k] == 0);
    }
    n
}

// How many subcarriers are scattered at a phase.
pub fn scattered_count(plan: &[u8], phase: u32) -> Result<u32, Refusal>
    ensures { result ≡ scattered_answer khz50 plan.now phase }
{
    let d = rules::khz50_device();
    let mut m = [0u16; 4096];
    verdicts::study(d, plan, &mut m)?;
    let j = phase as usize;
    if PHASES <= j {
        return Err(Refusal {
            number: 16,
            place: 0,
        });
    }
    let l = records::number_at(plan, 4);
    Ok(count_scattered(d, plan, &m, l, j))
}
