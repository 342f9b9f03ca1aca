// N_D, the number of data cells of an input symbol at a phase. The entry `data_count` reads the plan bytes anew, changes nothing and asks
// nothing of its caller.
#![tactic(auto)]

ghost use Rattle.std.specs.Prelude.{◌≡◌, ◌≤◌, ◌<◌};
ghost use Rattle.rules.specs.Device.{khz50};
ghost use Rattle.rules.specs.Plan.{plan_of};
ghost use Rattle.rules.specs.Fits.{Fits};
ghost use Rattle.rules.specs.Frame.{frame_of, cells};
ghost use Rattle.rules.specs.Steps.{frame_count, data_count_answer};
ghost use Rattle.verdicts.specs.Studied.{Studied};

use rules::{Device, Refusal};

// Phases are 0 to 127.
const PHASES: usize = 128;

// N_D of an accepted plan at a phase; ground 16 where it is out of its range.
fn count_in(
    d: Device,
    plan: &[u8],
    marks: &[u16; 4096],
    ni: usize,
    phase: u32,
) -> Result<u32, Refusal>
    requires { Fits d × Studied d plan.now marks.now × (0 < (plan_of plan.now).depth) × ((plan_of plan.now).depth ≤ 128) × (ni ≡ cells (frame_of d (plan_of plan.now))) }
    ensures { result ≡ frame_count (frame_of d (plan_of plan.now)) phase }
{
    let j = phase as usize;
    if PHASES <= j {
        return Err(Refusal {
            number: 16,
            place: 0,
        });
    }
    let m = records::number_at(plan, 6);
    let mut car = [0u16; 4096];
    let mut kc = [0u16; 4096];
    let mut flag = [0u8; 4096];
    let n = spots::prepare(
        d,
        plan,
        marks,
        m,
        j,
        &mut car,
        &mut kc[..ni],
        &mut flag[..ni],
    );
    let nd = n as u32;
    Ok(nd)
}

// N_D at a phase: how many data cells an input symbol at that phase has.
pub fn data_count(plan: &[u8], phase: u32) -> Result<u32, Refusal>
    ensures { result ≡ data_count_answer khz50 plan.now phase }
{
    let d = rules::khz50_device();
    let mut marks = [0u16; 4096];
    let ni = verdicts::study(d, plan, &mut marks)?;
    count_in(d, plan, &marks, ni as usize, phase)
}
