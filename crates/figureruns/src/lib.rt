// The second emitter, which takes the figure of document 003 literally, sends what the first sends (document 02, request 09): for every accepted
// plan, every phase and every list of steps from fresh starts, refused ones included (specs/Same). The function does nothing; its contract
// is the theorem.
#![tactic(auto)]

ghost use Rattle.std.specs.Prelude.{ℕ, ◌≡◌, List, Ok};
ghost use Rattle.rules.specs.Device.{khz50};
ghost use Rattle.rules.specs.Grounds.{verdict};
ghost use Rattle.figureruns.specs.Same.{SameAsFigure};

// Every accepted plan: from a fresh start each step of the second emitter has the result of the first's.
pub fn same_as_figure()
    ensures { (s : List ℕ) (n : ℕ) → verdict khz50 s ≡ Ok n → SameAsFigure khz50 s }
{}
