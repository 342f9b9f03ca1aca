// Why a subcarrier has its role at a phase (document 02, Req 08): the definition of the answer (specs/Reasons), and that what it says is true
// (specs/Claims). 02 calls it the ground of a role; here that is its reason, since grounds are what refuses. The answer's type is crate
// rules', the code crate why's.
#![tactic(auto)]

ghost use Rattle.std.specs.Prelude.{ℕ, List};
ghost use Rattle.rules.specs.declared.Device.{Device};
ghost use Rattle.rules.specs.Fits.{Fits};
ghost use Rattle.reasons.specs.Claims.{WhyClaims};

// Any device that fits, any bytes as a plan, any subcarrier, any phase: the role is the one that the rules give, and of an accepted plan, a
// subcarrier and a phase in their ranges a reason is given, and it is true.
pub fn why_claims()
    ensures { (d : Device) → Fits d → (s : List ℕ) (k j : ℕ) → WhyClaims d s k j }
{}
