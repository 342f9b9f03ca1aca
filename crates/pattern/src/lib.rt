// When the scattered pattern stands on a subcarrier (specs/Until): by this a fresh store gets its placeholders (crate flushes), and a
// subcarrier the one phase at which a scattered pilot stands there (crate why).
#![tactic(auto)]

ghost use Rattle.std.specs.Prelude.{◌≡◌};
ghost use Rattle.pattern.specs.Until.{symbols_until};

use counting::wide;

// Phases are 0 to 127.
const PHASES: usize = 128;

// How many symbols on the pattern stands on subcarrier k, if now it stands on those that are `base` modulo 128.
pub fn symbols_until(base: usize, k: u16) -> usize
    ensures { result ≡ symbols_until base k }
{
    (wide(k) + (PHASES - base % PHASES)) % PHASES
}
