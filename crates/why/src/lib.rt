// What a subcarrier is doing, and why (document 02, Req 08): its role at a phase, and the record, the distance or the phase that is the
// reason. Crate reasons has the definition of the answer, and the claim that it is true. The entry `why` reads the plan bytes anew, changes
// nothing and asks nothing of its caller.
#![tactic(auto)]

ghost use Rattle.std.specs.Prelude.{◌+◌, ◌-◌, ◌≤◌, ◌<◌, ◌≡◌, Bool, true, false, Ok};
ghost use Rattle.rules.specs.Device.{khz50};
ghost use Rattle.rules.specs.Fits.{Fits};
ghost use Rattle.rules.specs.Plan.{Entry, plan_of};
ghost use Rattle.rules.specs.Roles.{role, ranked};
ghost use Rattle.rules.specs.Grounds.{bad_length, grounds1to15};
ghost use Rattle.records.specs.Read.{entry_of};
ghost use Rattle.reasons.specs.Reasons.{excludes, makes_pilot, first_record, pilot_reason, scattered_phase, with_reason, why_answer};
ghost use Rattle.why.specs.Tests.{Decides};

use records::Record;
use rules::{Device, Reason, Refusal, Role};

// The record excludes k: it is of kind 2, and its range covers k.
fn excludes_it(e: Record, k: usize) -> bool
    ensures { result ≡ excludes k (entry_of e) }
{
    if e.kind != 2 {
        return false;
    }
    if k < e.low {
        return false;
    }
    k <= e.high
}

// The record makes k a pilot: it is of kind 3, and names k.
fn makes_it_pilot(e: Record, k: usize) -> bool
    ensures { result ≡ makes_pilot k (entry_of e) }
{
    if e.kind != 3 {
        return false;
    }
    e.low == k
}

// The first record on the chain that passes the test; 0 if none does. A later record stands above i, at `after` or above it.
fn first_record<F: Fn(Record) -> bool>(plan: &[u8], passes: F) -> u32
    requires sized { bad_length plan.now ≡ false }
    requires callable { F.IsAlwaysCallable passes }
    ensures { (t : Entry → Bool) → Decides (F.post passes) t → result ≡ first_record t plan.now }
{
    let records = plan.len() / 8;
    let mut i: usize = 0;
    // Counted by hand: each record names the next one, so that the data say how far i goes.
    loop {
        let e = records::record_at(plan, i);
        if passes(e) {
            return i as u32;
        }
        let after = i + 1;
        if e.next < after {
            return 0;
        }
        if records <= e.next {
            return 0;
        }
        i = e.next;
    }
}

// How far k lies above the last PLC subcarrier.
fn above_plc(d: Device, l: usize, k: usize) -> usize
    requires { Fits d × (l ≤ d.high_plc) × (l + d.plc_width ≤ k) }
    ensures { result ≡ k - (l + d.plc_width - 1) }
{
    let last = l + d.plc_width - 1;
    k - last
}

// Why k is a continuous pilot.
fn pilot_reason(d: Device, plan: &[u8], k: usize) -> Reason
    requires { Fits d × (grounds1to15 d plan.now ≡ Ok tt) × (k < d.subcarriers) }
    ensures { result ≡ pilot_reason d plan.now k }
{
    let l = records::number_at(plan, 4);
    if !roles::is_among(roles::pilots_of(d, l), k) {
        return Reason::PilotBy(first_record(plan, |e| makes_it_pilot(e, k)));
    }
    if k < l {
        return Reason::PilotBelow((l - k) as u32);
    }
    Reason::PilotAbove(above_plc(d, l, k) as u32)
}

// The phase at which a scattered pilot stands at k, which has a rank.
fn scattered_phase(d: Device, plan: &[u8], k: usize) -> u32
    requires { Fits d × (grounds1to15 d plan.now ≡ Ok tt) × (k < d.subcarriers) × (ranked d (plan_of plan.now) k ≡ true) }
    ensures { result ≡ scattered_phase d plan.now k }
{
    let l = records::number_at(plan, 4);
    pattern::symbols_until(l + d.plc_width, k as u16) as u32
}

// The reason of the role that k has at phase j.
fn with_reason(d: Device, plan: &[u8], r: Role, k: usize, j: u32) -> Reason
    requires { Fits d × (grounds1to15 d plan.now ≡ Ok tt) × (k < d.subcarriers) × (r ≡ role d (plan_of plan.now) j k) }
    ensures { result ≡ with_reason d plan.now k j r }
{
    match r {
        Role::Excluded => Reason::ExcludedBy(first_record(plan, |e| excludes_it(e, k))),
        Role::Plc => Reason::PlcBy(0),
        Role::Continuous => pilot_reason(d, plan, k),
        Role::Scattered => Reason::ScatteredOnly(j),
        Role::Data => Reason::DataBut(scattered_phase(d, plan, k)),
    }
}

// The role of a subcarrier at a phase, and why.
pub fn why(plan: &[u8], subcarrier: u32, phase: u32) -> Result<Reason, Refusal>
    ensures { result ≡ why_answer khz50 plan.now subcarrier phase }
{
    let r = judge::role(plan, subcarrier, phase)?;
    let d = rules::khz50_device();
    Ok(with_reason(d, plan, r, subcarrier as usize, phase))
}
