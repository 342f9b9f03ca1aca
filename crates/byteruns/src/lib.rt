// Runs of an emitter and of a receiver over two-byte cells, as a C host makes them, and what is claimed of them: demand 3 and the claims beside
// it, the same records as of runs over cells (crate runs), of the entries over bytes (specs/ByteEntries). The functions do nothing; their
// contracts are the claims.
#![tactic(auto)]

ghost use Rattle.std.specs.Prelude.{ℕ, ◌≡◌, List, Ok};
ghost use Rattle.rules.specs.Device.{khz50};
ghost use Rattle.rules.specs.Plan.{plan_of};
ghost use Rattle.rules.specs.Grounds.{verdict};
ghost use Rattle.rules.specs.Frame.{frame_of};
ghost use Rattle.runs.specs.Demand3.{Demand3};
ghost use Rattle.runs.specs.Claims.{PlanClaims};
ghost use Rattle.byteruns.specs.ByteEntries.{byte_entries, BytesSent, SameBytes};

// Every accepted plan, every starting phase, all lists of byte steps: placed, unique, returned.
pub fn demand_3_bytes()
    ensures { (s : List ℕ) (n : ℕ) → verdict khz50 s ≡ Ok n → Demand3 (frame_of khz50 (plan_of s)) (byte_entries khz50 s) }
{}

// Every accepted plan: the pilot rule of every symbol that a run of byte steps sends, that no fresh start or step that is given what it asks
// for is refused, and the claims that do not hang on the entries.
pub fn plan_claims_bytes()
    ensures { (s : List ℕ) (n : ℕ) → verdict khz50 s ≡ Ok n → PlanClaims (frame_of khz50 (plan_of s)) (byte_entries khz50 s) }
{}

// Any bytes as a plan: the bytes that the steps of a run send are those of the cells that the claims speak of.
pub fn bytes_sent()
    ensures { (s : List ℕ) → BytesSent khz50 s }
{}

// Inputs that are the same in cells, as the claims compare them, are the same in bytes.
pub fn same_bytes()
    ensures { SameBytes }
{}
