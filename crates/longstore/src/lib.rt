// The long store, M rows of N_I cells with a row in the states, as document 01 has it ("Cells and interleaving", "State"): the definitions of its
// steps (specs/), and the theorem that from a fresh start the short store gives the same (02, request 03). No code needs it. The states are those
// that have a row; fields are spelled as in the definitions. The function does nothing; its contract is the theorem.
#![tactic(auto)]

ghost use Rattle.std.specs.Prelude.{ℕ, ◌≡◌, List, Ok};
ghost use Rattle.rules.specs.Refusals.{StartAnswer, ListenAnswer, SendAnswer, ReceiveAnswer};
ghost use Rattle.rules.specs.Device.{khz50};
ghost use Rattle.rules.specs.Grounds.{verdict};
ghost use Rattle.longstore.specs.Same.{SameAsLong};

// The state of an emitter: phase and row of its next step.
#[derive(Clone, Copy)]
pub struct EmitterState {
    pub phase: u32,
    pub row: u32,
}

// The state of a receiver: phase and row of its next step, and how many symbols it has heard, up to M - 1.
#[derive(Clone, Copy)]
pub struct ReceiverState {
    pub phase: u32,
    pub row: u32,
    pub heard: u32,
}

// Every accepted plan: from a fresh start the symbols sent and the data handed out are those of the long store.
pub fn same_as_long()
    ensures { (s : List ℕ) (n : ℕ) → verdict khz50 s ≡ Ok n → SameAsLong khz50 s }
{}
