// What a C host reads from calls of the pilot lamp (document 02, Req 10): what the lamp over cells answers and leaves, so that the claims of
// crate lamp hold of runs of the calls (specs/LampRead). The function does nothing; its contract is the claim.
#![tactic(auto)]

ghost use Rattle.std.specs.Prelude.{ℕ, List};
ghost use Rattle.rules.specs.declared.Device.{Device};
ghost use Rattle.rules.specs.Fits.{Fits};
ghost use Rattle.lampcalls.specs.LampRead.{LampIsRead};

// Any device that fits, any bytes as a plan, any buffers that are long enough: what a host takes from a call of the lamp is what the lamp
// answers and leaves; of every accepted plan and all lists of calls from a fresh record on, refused ones included, the lights are those
// worked out afresh.
pub fn lamp_is_read()
    ensures { (d : Device) → Fits d → (s : List ℕ) → LampIsRead d s }
{}
