// The continuous pilots of a plan, predefined and kind 3 alike, in rising order (document 02, Req 10: the order of the lamp's record). The
// entry `pilots` reads the plan bytes anew, changes nothing and asks nothing of its caller. The marks are read in blocks of 16, and a block
// without a pilot is passed over.
#![tactic(auto)]

ghost use Rattle.std.specs.Prelude.{ℕ, ◌+◌, ◌%◌, ◌≤◌, ◌≡◌, false, List, eqb, length, Ok, Err};
ghost use Rattle.counting.specs.Search.{count};
ghost use Rattle.rules.specs.Device.{khz50};
ghost use Rattle.rules.specs.Fits.{Fits, capacity};
ghost use Rattle.rules.specs.Plan.{plan_of};
ghost use Rattle.rules.specs.Roles.{continuous_mark};
ghost use Rattle.rules.specs.Grounds.{grounds1to15};
ghost use Rattle.verdicts.specs.Studied.{Studied};
ghost use Rattle.pilots.specs.Pilots.{pilots_most, continuous_pilots, listing, pilots_answer};
ghost use Rattle.pilots.specs.Marked.{is_marked, marked_below, Listed};
ghost use Rattle.pilots.specs.Claims.{PilotClaims};

use rules::{Device, Refusal};

// The most continuous pilots that an accepted plan has: 8 predefined ones and 120 of kind 3.
pub const PILOTS: usize = 128;

// The mark of a continuous pilot.
pub const CONTINUOUS: u16 = 0x8003;

// So many marks are read at a time.
const BLOCK: usize = 16;

// The answer of `pilots`: their number and the pilots in rising order, 0 past the last; or refused, and zeros.
#[derive(Clone, Copy)]
pub struct PilotAnswer {
    pub answer: Result<u32, Refusal>,
    pub list: [u16; PILOTS],
}

// 1 where a pilot was met, or the mark is a pilot's; 0 only where neither is so.
fn met(h: u16, x: u16) -> u16
    ensures { result ≡ 0 → (h ≡ 0) × (eqb x continuous_mark ≡ false) }
{
    if x == CONTINUOUS {
        return 1;
    }
    h
}

// Whether a pilot may stand in the block from k on: false only where none does. The compiler tests the whole block at once.
fn has_pilot(marks: &[u16], k: usize) -> bool
    requires { (k ≤ capacity) × (k + 16 ≤ length marks.now) }
    ensures { result ≡ false → count (λ i. is_marked marks.now (k + i)) 16 ≡ 0 }
{
    let mut h: u16 = 0;
    for x in &marks[k..k + BLOCK] {
        h = met(h, *x);
    }
    h != 0
}

// Lists subcarrier k behind the n that are listed, if it is a pilot, and says how many there are then.
fn list_one(marks: &[u16], k: usize, n: usize, list: &mut [u16; PILOTS]) -> usize
    requires { (k + 1 ≤ capacity) × (k + 1 ≤ length marks.now) × (length (marked_below marks.now (k + 1)) ≤ pilots_most) × Listed marks.now k n list.old }
    ensures { Listed marks.now (k + 1) result list.new }
{
    if marks[k] != CONTINUOUS {
        return n;
    }
    list[n] = k as u16;
    n + 1
}

// Lists the pilots of the block from k on behind the n that are listed.
fn list_block(marks: &[u16], k: usize, n: usize, list: &mut [u16; PILOTS]) -> usize
    requires { (k + 16 ≤ capacity) × (k + 16 ≤ length marks.now) × (length (marked_below marks.now (k + 16)) ≤ pilots_most) × Listed marks.now k n list.old }
    ensures { Listed marks.now (k + 16) result list.new }
{
    if !has_pilot(marks, k) {
        return n;
    }
    let mut m = n;
    for i in k..k + BLOCK {
        m = list_one(marks, i, m, list);
    }
    m
}

// The subcarriers below width, a number of whole blocks, that have the continuous mark.
fn list_marked(marks: &[u16], width: usize) -> PilotAnswer
    requires { (width ≤ capacity) × (width % 16 ≡ 0) × (width ≤ length marks.now) × (length (marked_below marks.now width) ≤ pilots_most) }
    ensures { result ≡ listing (marked_below marks.now width) }
{
    let mut list = [0u16; PILOTS];
    let mut n: usize = 0;
    for b in 0..width / BLOCK {
        n = list_block(marks, BLOCK * b, n, &mut list);
    }
    PilotAnswer {
        answer: Ok(n as u32),
        list,
    }
}

// The continuous pilots of an accepted plan, from its marks.
fn list_accepted(d: Device, plan: &[u8], marks: &[u16]) -> PilotAnswer
    requires { Fits d × Studied d plan.now marks.now × (grounds1to15 d plan.now ≡ Ok tt) }
    ensures { result ≡ listing (continuous_pilots d (plan_of plan.now)) }
{
    list_marked(marks, d.subcarriers)
}

// The continuous pilots of a plan, for any device that fits.
pub fn pilots_on(d: Device, plan: &[u8]) -> PilotAnswer
    requires { Fits d }
    ensures { result ≡ pilots_answer d plan.now }
{
    let mut marks = [0u16; 4096];
    match verdicts::study(d, plan, &mut marks) {
        Err(refusal) => PilotAnswer {
            answer: Err(refusal),
            list: [0u16; PILOTS],
        },
        Ok(_) => list_accepted(d, plan, &marks),
    }
}

// The continuous pilots of a plan, in rising order.
pub fn pilots(plan: &[u8]) -> PilotAnswer
    ensures { result ≡ pilots_answer khz50 plan.now }
{
    pilots_on(rules::khz50_device(), plan)
}

// Any bytes as a plan: the list has each subcarrier with the role continuous, once, in rising order; of an accepted plan eight, and one for
// each kind 3 record on the chain.
pub fn pilot_claims()
    ensures { (s : List ℕ) → PilotClaims khz50 s }
{}
