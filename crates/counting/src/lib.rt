// Counting and searching among the numbers below n: definitions and laws that know nothing of plans.
// The code here is what every crate above shares: a cell widened, and that bytes are below 256.
#![tactic(auto)]

ghost use Rattle.std.specs.Prelude.{◌<◌, ◌≡◌};
ghost use Rattle.counting.specs.Bytes.{Octets};

// A number of sixteen bits as an index.
pub fn wide(x: u16) -> usize
    ensures { (result ≡ x) × (result < 65536) }
{
    usize::from(x)
}

// Shows that every number of a list of bytes is a byte's, as its type says. It does nothing, and the compiler drops it.
pub fn octets(b: &[u8])
    ensures { Octets b.now }
{}
