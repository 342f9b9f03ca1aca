// The pilot lamp's step (document 02, Req 10), as both forms of it share it, over cells and over two-byte cells: its grounds, and the record and
// the lights from the cells at the pilots. specs/Steps says what the lamp answers and leaves.
#![tactic(auto)]

ghost use Rattle.std.specs.Prelude.{suc, ◌≤◌, ◌≡◌, length, Ok, Err};
ghost use Rattle.rules.specs.Fits.{Fits};
ghost use Rattle.rules.specs.Refusals.{refusal};
ghost use Rattle.pilots.specs.Pilots.{pilots_most, no_listing, pilots_answer};
ghost use Rattle.lampgrounds.specs.Steps.{leaves_record, no_lights};
ghost use Rattle.lampgrounds.specs.Opening.{opening, heard_cells};

use pilots::{PILOTS, PilotAnswer};
use rules::{Device, Refusal};

// The answer of the lamp: the number of pilots and the lights in their order, 1 lit, 0 dark, 0 past the last pilot; or refused, and zeros,
// which say nothing of the pilots: lights count only where nothing refuses.
#[derive(Clone, Copy)]
pub struct LampAnswer {
    pub answer: Result<u32, Refusal>,
    pub lights: [u8; PILOTS],
}

// A refusal.
pub fn refused(refusal: Refusal) -> LampAnswer
    ensures { result ≡ no_lights refusal }
{
    LampAnswer {
        answer: Err(refusal),
        lights: [0u8; PILOTS],
    }
}

// The same in the place of the pilots.
fn unlisted(number: u32) -> PilotAnswer
    ensures { result ≡ no_listing (refusal number 0) }
{
    PilotAnswer {
        answer: Err(Refusal { number, place: 0 }),
        list: [0u16; PILOTS],
    }
}

// Grounds 28 and 17 under an accepted plan with n pilots; where neither holds, the pilots.
fn open_accepted(
    d: Device,
    plan: &[u8],
    p: PilotAnswer,
    n: usize,
    cells: usize,
    counts: &[u8],
) -> PilotAnswer
    requires { (p ≡ pilots_answer d plan.now) × (p.answer ≡ Ok n) × (n ≤ pilots_most) }
    ensures { result ≡ opening d plan.now counts.now cells }
{
    if lamprecord::bad_record(n, counts) {
        return unlisted(28);
    }
    if cells != d.subcarriers {
        return unlisted(17);
    }
    p
}

// All grounds of the lamp, of a record and a symbol of so many cells; where none holds, the pilots.
pub fn open_step(d: Device, plan: &[u8], cells: usize, counts: &[u8]) -> PilotAnswer
    requires { Fits d }
    ensures { result ≡ opening d plan.now counts.now cells }
{
    let p = pilots::pilots_on(d, plan);
    match p.answer {
        Err(_) => p,
        Ok(n) => open_accepted(d, plan, p, n as usize, cells, counts),
    }
}

// A symbol is heard, whose cells at the n pilots are given: the record goes on, and its lights are answered.
pub fn hear(cells: &[u16; PILOTS], n: u32, counts: &mut [u8]) -> LampAnswer
    requires { (length cells.now ≡ pilots_most) × (n ≤ pilots_most) × (length counts.old ≡ suc n) }
    ensures { leaves_record result counts.new ≡ heard_cells cells.now n counts.old }
{
    lamprecord::advance(cells, n as usize, counts);
    LampAnswer {
        answer: Ok(n),
        lights: lamprecord::lights_of(counts),
    }
}
