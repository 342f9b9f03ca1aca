// One record of a plan as it is read, and ground 1, which asks for the plan's length alone, so that its records can be read. What is
// refused of a record is crate recordgrounds', the chain that leads through them crate plan's.
#![tactic(auto)]

ghost use Rattle.std.specs.Prelude.{◌≡◌, length, ◌+◌, ◌*◌, ◌<◌};
ghost use Rattle.rules.specs.Plan.{number, entry};
ghost use Rattle.rules.specs.Grounds.{bad_length};
ghost use Rattle.records.specs.Read.{entry_of, Narrow};

// One record as it is read, with its index.
#[derive(Clone, Copy)]
pub struct Record {
    pub index: usize,
    pub kind: usize,
    pub blank: usize,
    pub next: usize,
    pub low: usize,
    pub high: usize,
}

// A byte as a number.
fn octet(x: u8) -> usize
    ensures { (result ≡ x) × (result < 256) }
{
    x as usize
}

// The two-byte number at byte `at`, high byte first.
pub fn number_at(s: &[u8], at: usize) -> usize
    requires { at + 1 < length s.now }
    ensures { (result ≡ number s.now at) × (result < 65536) }
{
    octet(s[at]) * 256 + octet(s[at + 1])
}

// Record i of the plan.
pub fn record_at(plan: &[u8], i: usize) -> Record
    requires { (8 * i + 7 < length plan.now) × (i < 65536) }
    ensures { (entry_of result ≡ entry plan.now i) × Narrow (entry_of result) }
{
    let b = 8 * i;
    Record {
        index: i,
        kind: octet(plan[b]),
        blank: octet(plan[b + 1]),
        next: number_at(plan, b + 2),
        low: number_at(plan, b + 4),
        high: number_at(plan, b + 6),
    }
}

// Ground 1.
pub fn bad_length(plan: &[u8]) -> bool
    ensures { result ≡ bad_length plan.now }
{
    let n = plan.len();
    if n < 8 {
        return true;
    }
    if 4096 < n {
        return true;
    }
    n % 8 != 0
}
