// What a step of the emitter and one of the receiver share once the plan is accepted: the tests of the numbers and the lent cells, and
// the phase of the next step. specs/Ready says what is known of an accepted plan.
#![tactic(auto)]

ghost use Rattle.std.specs.Prelude.{◌≡◌, List, ℕ, ◌+◌, ◌%◌, ◌≤◌, ◌<◌, length};
ghost use Rattle.rules.specs.Device.{phases};
ghost use Rattle.rules.specs.Plan.{plan_of};
ghost use Rattle.rules.specs.Grounds.{◌else◌};
ghost use Rattle.rules.specs.Frame.{frame_of};
ghost use Rattle.rules.specs.Steps.{ground16, ground17};
ghost use Rattle.steps.specs.Ready.{Ready, ready_answer, MadeIf};

use rules::{Device, Refusal};

// Phases are 0 to 127.
const PHASES: usize = 128;

// Grounds 16 and 17 of the phase, store and symbol that a step is given: the store needs `need` places and has so many, the symbol has so
// many cells.
fn lent_grounds(
    d: Device,
    plan: &[u8],
    phase: u32,
    need: usize,
    places: usize,
    width: usize,
) -> Result<(), Refusal>
    ensures { (s y : List ℕ) → length s ≡ places → length y ≡ width → result ≡ (ground16 (frame_of d (plan_of plan.now)) phase else ground17 (frame_of d (plan_of plan.now)) need s y) }
{
    if PHASES <= phase as usize {
        return Err(Refusal {
            number: 16,
            place: 0,
        });
    }
    if places < need {
        return Err(Refusal {
            number: 17,
            place: 0,
        });
    }
    if width != d.subcarriers {
        return Err(Refusal {
            number: 17,
            place: 0,
        });
    }
    Ok(())
}

// Grounds 16 and 17 under an accepted plan, for a store that needs `need` places, and, where neither holds, what a step makes of the plan for the input symbol at phase j: the
// subcarriers by rank (car) and by cell (kc), the flags of the placeholders, and N_D.
pub fn ready(
    d: Device,
    plan: &[u8],
    marks: &[u16; 4096],
    m: usize,
    phase: u32,
    need: usize,
    places: usize,
    width: usize,
    j: usize,
    car: &mut [u16],
    kc: &mut [u16],
    flag: &mut [u8],
) -> Result<u32, Refusal>
    requires { Ready d plan.now (length kc.old) marks.now × (m ≡ (plan_of plan.now).depth) × (phase < phases → j ≤ 4096) × (length car.old ≡ 4096) × (length flag.old ≡ length kc.old) }
    ensures answer { (s y : List ℕ) → length s ≡ places → length y ≡ width → result ≡ ready_answer (frame_of d (plan_of plan.now)) phase need s y j }
    ensures made { MadeIf result (frame_of d (plan_of plan.now)) j car.new kc.new flag.new }
{
    lent_grounds(d, plan, phase, need, places, width)?;
    let nd = spots::prepare(d, plan, marks, m, j, car, kc, flag);
    Ok(nd as u32)
}

// The phase of the next step.
pub fn next_phase(phase: u32) -> u32
    requires { phase < phases }
    ensures { result ≡ (phase + 1) % phases }
{
    (phase + 1) % 128
}
