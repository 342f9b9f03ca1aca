// What a C host reads from the calls of crate headend, and demand 3 and the claims beside it of runs of those calls: the same records as of runs over cells
// (crate runs), of the calls as a host takes them (specs/CallEntries). The functions do nothing; their contracts are the claims.
#![tactic(auto)]

ghost use Rattle.std.specs.Prelude.{ℕ, ◌≡◌, false, List, Ok};
ghost use Rattle.rules.specs.declared.Device.{Device};
ghost use Rattle.rules.specs.Device.{khz50};
ghost use Rattle.rules.specs.Plan.{plan_of};
ghost use Rattle.rules.specs.Grounds.{verdict};
ghost use Rattle.rules.specs.Frame.{frame_of};
ghost use Rattle.answerbytes.specs.Layout.{short};
ghost use Rattle.runs.specs.Demand3.{Demand3};
ghost use Rattle.runs.specs.Claims.{PlanClaims};
ghost use Rattle.callruns.specs.Host.{ZeroIsAccepted, ZeroIsWarming};
ghost use Rattle.callruns.specs.CallEntries.{call_entries, AnyBuffer};
ghost use Rattle.callruns.specs.WhyRead.{WhyIsRead};

// Any bytes as a plan: each of the fifteen calls returns 0 exactly if nothing refuses.
pub fn zero_is_accepted()
    ensures { (s : List ℕ) → ZeroIsAccepted khz50 s }
{}

// Any bytes as a plan: a receive call that returns 0 leaves the value 0 exactly if it answers warming.
pub fn zero_is_warming()
    ensures { (s : List ℕ) → ZeroIsWarming khz50 s }
{}

// Any device, any bytes as a plan: what a host reads from a call that says why is the answer of `why`.
pub fn why_is_read()
    ensures { (d : Device) (s : List ℕ) → WhyIsRead d s }
{}

// Every accepted plan, every starting phase, all lists of calls, in any answer buffer that is long enough: placed, unique, returned, streams.
pub fn demand_3_calls()
    ensures { (s : List ℕ) (n : ℕ) → verdict khz50 s ≡ Ok n → (a : List ℕ) → short a ≡ false → Demand3 (frame_of khz50 (plan_of s)) (call_entries khz50 s a) }
{}

// The claims beside it, of the same.
pub fn plan_claims_calls()
    ensures { (s : List ℕ) (n : ℕ) → verdict khz50 s ≡ Ok n → (a : List ℕ) → short a ≡ false → PlanClaims (frame_of khz50 (plan_of s)) (call_entries khz50 s a) }
{}

// Any bytes as a plan: what a host reads from a call hangs on nothing that its answer buffer held.
pub fn any_buffer()
    ensures { (s : List ℕ) → AnyBuffer khz50 s }
{}
