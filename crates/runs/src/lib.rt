// Runs of an emitter and of a receiver from a fresh start, and what is claimed of them: demand 3 (specs/Demand3), and the claims beside
// it (specs/Claims). The two functions do nothing; their contracts are the claims, so that they stand among the proved lines.
#![tactic(auto)]

ghost use Rattle.std.specs.Prelude.{ℕ, ◌≡◌, List, Ok};
ghost use Rattle.rules.specs.Device.{khz50};
ghost use Rattle.rules.specs.Plan.{plan_of};
ghost use Rattle.rules.specs.Grounds.{verdict};
ghost use Rattle.rules.specs.Frame.{frame_of};
ghost use Rattle.runs.specs.Run.{cell_entries};
ghost use Rattle.runs.specs.Demand3.{Demand3};
ghost use Rattle.runs.specs.Claims.{PlanClaims};

// Every accepted plan, every starting phase, all lists of steps: placed, unique, returned.
pub fn demand_3()
    ensures { (s : List ℕ) (n : ℕ) → verdict khz50 s ≡ Ok n → Demand3 (frame_of khz50 (plan_of s)) (cell_entries khz50 s) }
{}

// Every accepted plan: some data at each phase, the counts over 128 phases, the pilot rule of every symbol that a run sends, and that no
// fresh start or step that is given what it asks for is refused.
pub fn plan_claims()
    ensures { (s : List ℕ) (n : ℕ) → verdict khz50 s ≡ Ok n → PlanClaims (frame_of khz50 (plan_of s)) (cell_entries khz50 s) }
{}
