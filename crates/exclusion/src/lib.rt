// What one more excluded range would do to a plan, before anybody touches it (document 02, Req 05): the verdict on a copy in which the last
// chain record points at a new last record. The chain of the plan is read once: the tables that grounds 1 to 5 leave go on to the copy,
// whose walk goes on at its new record. The entries `try_exclusion` and `try_numbers` change nothing and ask nothing of their caller;
// `try_range` is for the crates above that want the copy too.
#![tactic(auto)]

ghost use Rattle.std.specs.Prelude.{ℕ, min, ◌≤◌, ◌≡◌, List, length, Ok, Err};
ghost use Rattle.rules.specs.declared.Device.{Device};
ghost use Rattle.rules.specs.Device.{khz50};
ghost use Rattle.rules.specs.Fits.{Fits};
ghost use Rattle.rules.specs.Grounds.{grounds1to5};
ghost use Rattle.chains.specs.Last.{last_index};
ghost use Rattle.plan.specs.Noted.{Noted};
ghost use Rattle.copies.specs.Copy.{copy_max};
ghost use Rattle.exclusion.specs.Trial.{trial_verdict, number_max, trial_of_numbers};
ghost use Rattle.exclusion.specs.Copied.{CopiedIf};
ghost use Rattle.exclusion.specs.Claims.{TrialClaims};

use copies::COPY_MAX;
use rules::{Device, Refusal};

// The verdict of a trial, and the length of the copy.
#[derive(Clone, Copy)]
pub struct Trial {
    pub verdict: Result<u32, Refusal>,
    pub length: usize,
}

// The verdict on the copy of a plan whose chain has been walked: the walk goes on at the copy's new record.
fn try_copy(
    d: Device,
    plan: &[u8],
    first: u16,
    last: u16,
    end: usize,
    np: usize,
    reach: &mut [u16; 4096],
    hot: &mut [u8; 256],
    pil: &mut [u16; 128],
    rec: &mut [u16; 128],
    copy: &mut [u8],
) -> Trial
    requires { Fits d × (grounds1to5 d plan.now ≡ Ok tt) × Noted d plan.now np reach.old hot.old pil.old rec.old × (end ≡ last_index plan.now) × (copy_max ≤ length copy.old) }
    ensures { (result.verdict ≡ trial_verdict d plan.now first last) × CopiedIf result.verdict result.length d plan.now first last copy.new }
{
    let mut m = [0u16; 4096];
    let length = copies::extend(plan, end, first, last, copy);
    let verdict = verdicts::study_from(
        d,
        &copy[..length],
        plan.len() / 8,
        np,
        reach,
        hot,
        pil,
        rec,
        &mut m,
    );
    Trial { verdict, length }
}

// A trial, for any device that fits. The copy of a plan that no ground of 1 to 5 refuses stands at the start of `copy` then.
pub fn try_range(d: Device, plan: &[u8], first: u16, last: u16, copy: &mut [u8]) -> Trial
    requires { Fits d × (copy_max ≤ length copy.old) }
    ensures { (result.verdict ≡ trial_verdict d plan.now first last) × CopiedIf result.verdict result.length d plan.now first last copy.new }
{
    let mut reach = [0u16; 4096];
    let mut hot = [0u8; 256];
    let mut pil = [0u16; 128];
    let mut rec = [0u16; 128];
    match plan::walk_chain(d, plan, 0, 0, &mut reach, &mut hot, &mut pil, &mut rec) {
        Err(refusal) => Trial {
            verdict: Err(refusal),
            length: 0,
        },
        Ok(chain) => try_copy(
            d,
            plan,
            first,
            last,
            chain.last,
            chain.pilots,
            &mut reach,
            &mut hot,
            &mut pil,
            &mut rec,
            copy,
        ),
    }
}

// What the plan's verdict would be if first to last were excluded too: the refusal by 1 to 5 of the plan itself, else the verdict on the
// copy.
pub fn try_exclusion(plan: &[u8], first: u16, last: u16) -> Result<u32, Refusal>
    ensures { result ≡ trial_verdict khz50 plan.now first last }
{
    let mut copy = [0u8; COPY_MAX];
    let trial = try_range(rules::khz50_device(), plan, first, last, &mut copy);
    trial.verdict
}

// A number as a record can hold it: the largest one for any above it.
fn held(x: u32) -> u16
    ensures { result ≡ min x number_max }
{
    if 65535 < x {
        return 65535;
    }
    x as u16
}

// The same for numbers of 32 bits: with one that no record can hold, ground 4 at the new record.
pub fn try_numbers(plan: &[u8], first: u32, last: u32) -> Result<u32, Refusal>
    ensures { result ≡ trial_of_numbers khz50 plan.now first last }
{
    try_exclusion(plan, held(first), held(last))
}

// Every plan that no ground of 1 to 5 refuses, every range, any device: what the copy says, and what is answered of it.
pub fn trial_claims()
    ensures { (d : Device) (s : List ℕ) (first last : ℕ) → grounds1to5 d s ≡ Ok tt → TrialClaims d s first last }
{}
