// What fresh starts share over either form of a cell: grounds 1 to 17, of an emitter and of a receiver, each with the places that its store
// needs, and 27 of the second emitter, whose store is literal; and for an emitter the subcarriers of the cells, from which its places are
// made. specs/Admit says what is found.
#![tactic(auto)]

ghost use Rattle.std.specs.Prelude.{◌≡◌, List, ℕ, ◌≤◌, length};
ghost use Rattle.rules.specs.Device.{phases};
ghost use Rattle.rules.specs.Fits.{Fits, capacity};
ghost use Rattle.verdicts.specs.Studied.{StudiedIf};
ghost use Rattle.startgrounds.specs.Admit.{phase_verdict, emitter_verdict, receiver_answer, SpottedIf};

use rules::{Device, Refusal};

// Phases are 0 to 127.
const PHASES: usize = 128;

// Grounds 1 to 16 of a start: the first that holds, or N_I. Where none holds, the lent array has the marks.
fn admit(d: Device, plan: &[u8], phase: u32, marks: &mut [u16; 4096]) -> Result<u32, Refusal>
    requires { Fits d × (length marks.old ≡ capacity) }
    ensures answer { result ≡ phase_verdict d plan.now phase }
    ensures studied { StudiedIf result d plan.now marks.new }
{
    let n = verdicts::study(d, plan, marks)?;
    if PHASES <= phase as usize {
        return Err(Refusal {
            number: 16,
            place: 0,
        });
    }
    Ok(n)
}

// Grounds 1 to 17 of a fresh emitter whose store has so many places: the first that holds, or N_I. Where the store is literal, its places are
// asked by 27, and not by 17. Where none holds, the first N_I places of kc are the subcarriers of the cells.
pub fn admit_emitter(
    d: Device,
    plan: &[u8],
    phase: u32,
    places: usize,
    kc: &mut [u16],
    literal: bool,
) -> Result<u32, Refusal>
    requires { Fits d × (d.depth_max ≤ phases) × (length kc.old ≡ capacity) }
    ensures answer { (s : List ℕ) → length s ≡ places → result ≡ emitter_verdict literal d plan.now phase s }
    ensures spotted { SpottedIf result d plan.now kc.new }
{
    let mut marks = [0u16; 4096];
    let n = admit(d, plan, phase, &mut marks)?;
    let ni = n as usize;
    let m = records::number_at(plan, 6);
    if places < figure::places_17(literal, m, ni) {
        return Err(Refusal {
            number: 17,
            place: 0,
        });
    }
    if places < figure::places_27(literal, m, ni) {
        return Err(Refusal {
            number: 27,
            place: 0,
        });
    }
    let mut car = [0u16; 4096];
    spots::spots(d, plan, &marks, &mut car, &mut kc[..ni]);
    Ok(n)
}

// Grounds 1 to 17 of a fresh receiver whose store has so many places: the first that holds, or how many of them it fills.
pub fn admit_receiver(d: Device, plan: &[u8], phase: u32, places: usize) -> Result<u32, Refusal>
    requires { Fits d × (d.depth_max ≤ phases) }
    ensures { (s : List ℕ) → length s ≡ places → result ≡ receiver_answer d plan.now phase s }
{
    let mut marks = [0u16; 4096];
    let n = admit(d, plan, phase, &mut marks)?;
    let m = records::number_at(plan, 6);
    let need = places::receiver_places(m, n as usize);
    if places < need {
        return Err(Refusal {
            number: 17,
            place: 0,
        });
    }
    Ok(need as u32)
}
