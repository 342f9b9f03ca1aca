// The verdict on a plan and the marks of an accepted one, for any device that fits. `study` and `study_from` are for the crates above: they
// ask for the array that they fill with marks.
#![tactic(auto)]

ghost use Rattle.std.specs.Prelude.{◌≡◌, false, ◌/◌, length, Ok, Err};
ghost use Rattle.rules.specs.Grounds.{bad_length, grounds1to5, verdict};
ghost use Rattle.rules.specs.Fits.{Fits};
ghost use Rattle.plan.specs.Noted.{Noted};
ghost use Rattle.plan.specs.Walk.{Kept};
ghost use Rattle.verdicts.specs.Studied.{StudiedIf};

use rules::{Device, Refusal};

// Grounds 6 to 15 of a plan whose chain is good, from its tables.
fn study_tables(
    d: Device,
    plan: &[u8],
    reach: &[u16; 4096],
    hot: &[u8; 256],
    pil: &[u16; 128],
    rec: &[u16; 128],
    np: usize,
    m: &mut [u16; 4096],
) -> Result<u32, Refusal>
    requires { Fits d × Noted d plan.now np reach.now hot.now pil.now rec.now × (Ok tt ≡ grounds1to5 d plan.now) × (length m.old ≡ 4096) }
    ensures { (result ≡ verdict d plan.now) × StudiedIf result d plan.now m.new × (length m.new ≡ 4096) }
{
    let mut lo = [0u16; 2048];
    let mut hi = [0u16; 2048];
    let n = ranges::runs(reach, hot, d.subcarriers, &mut lo, &mut hi);
    let l = records::number_at(plan, 4);
    markgrounds::grounds_6_to_8(d, plan, &lo, &hi, n, pil, rec, np, l, m)?;
    grounds::grounds_9_to_15(d, plan, &lo, &hi, n, m)
}

// Grounds 1 to 15 of a plan whose chain goes on at record `from`: no ground holds in the records before it, and their ranges and `before`
// pilots are in the tables. Where the plan is accepted, m holds the mark of every subcarrier.
pub fn study_from(
    d: Device,
    plan: &[u8],
    from: usize,
    before: usize,
    reach: &mut [u16; 4096],
    hot: &mut [u8; 256],
    pil: &mut [u16; 128],
    rec: &mut [u16; 128],
    m: &mut [u16; 4096],
) -> Result<u32, Refusal>
    requires { Fits d × (bad_length plan.now ≡ false → Kept d plan.now (length plan.now / 8) from before reach.old hot.old pil.old rec.old) × (length m.old ≡ 4096) }
    ensures { (result ≡ verdict d plan.now) × StudiedIf result d plan.now m.new × (length m.new ≡ 4096) }
{
    let chain = plan::walk_chain(d, plan, from, before, reach, hot, pil, rec)?;
    study_tables(d, plan, reach, hot, pil, rec, chain.pilots, m)
}

// Grounds 1 to 15 of any device that fits. Where the plan is accepted, m holds the mark of every subcarrier.
pub fn study(d: Device, plan: &[u8], m: &mut [u16; 4096]) -> Result<u32, Refusal>
    requires { Fits d × (length m.old ≡ 4096) }
    ensures { (result ≡ verdict d plan.now) × StudiedIf result d plan.now m.new × (length m.new ≡ 4096) }
{
    let mut reach = [0u16; 4096];
    let mut hot = [0u8; 256];
    let mut pil = [0u16; 128];
    let mut rec = [0u16; 128];
    study_from(d, plan, 0, 0, &mut reach, &mut hot, &mut pil, &mut rec, m)
}
