// Grounds 6 to 8 over the marks while they are painted; where none holds, the mark of every subcarrier stands in the lent array.
// `plan` is there for the contracts: these functions do not read it.
#![tactic(auto)]

ghost use Rattle.std.specs.Prelude.{◌≤◌, ◌≡◌, [], length};
ghost use Rattle.counting.specs.Search.{is_zero};
ghost use Rattle.rules.specs.Plan.{plan_of};
ghost use Rattle.rules.specs.Bands.{excluded};
ghost use Rattle.rules.specs.Grounds.{outside, around_plc, pilot_clash};
ghost use Rattle.rules.specs.Fits.{Fits, capacity};
ghost use Rattle.marks.specs.Marked.{Cells, grounds6to8, MarkedIf, Ready};
ghost use Rattle.marks.specs.Stages.{FirstOf, painted, Placed, AfterPilots};

use counting::wide;
use rules::{Device, Refusal};

// The mark of a continuous pilot.
const CONTINUOUS: u16 = 0x8003;

// The first cell from a to b - 1 that is clear, or that is marked; b if there is none.
fn first_from(m: &[u16; 4096], a: usize, b: usize, clear: bool) -> usize
    requires { (a ≤ b) × (b ≤ capacity) }
    ensures { FirstOf clear (is_zero m.now) a b result }
{
    for k in a..b {
        if (m[k] == 0) == clear {
            return k;
        }
    }
    b
}

// Ground 6: a subcarrier outside the range of active ones is active.
fn ground6(d: Device, plan: &[u8], m: &[u16; 4096]) -> Option<u32>
    requires { Fits d × Cells d.subcarriers (painted (excluded (plan_of plan.now))) m.now }
    ensures { result ≡ outside d (plan_of plan.now) }
{
    let k = first_from(m, 0, d.low_active, true);
    if k < d.low_active {
        return Some(k as u32);
    }
    let j = first_from(m, d.high_active + 1, d.subcarriers, true);
    if j < d.subcarriers {
        return Some(j as u32);
    }
    None
}

// Ground 7: a subcarrier around the PLC is excluded.
fn ground7(d: Device, plan: &[u8], m: &[u16; 4096], l: usize) -> Option<u32>
    requires { Fits d × Cells d.subcarriers (painted (excluded (plan_of plan.now))) m.now × (l ≡ (plan_of plan.now).plc) × (d.low_plc ≤ l) × (l ≤ d.high_plc) }
    ensures { result ≡ around_plc d (plan_of plan.now) }
{
    let end = l + d.plc_width + d.plc_margin;
    let k = first_from(m, l - d.plc_margin, end, false);
    if k < end {
        return Some(k as u32);
    }
    None
}

// Ground 8: a kind 3 pilot stands on a mark. Those before it are marked.
fn ground8(
    d: Device,
    plan: &[u8],
    pil: &[u16; 128],
    rec: &[u16; 128],
    np: usize,
    m: &mut [u16; 4096],
) -> Option<u32>
    requires { Placed d (plan_of plan.now) pil.now rec.now np m.old }
    ensures { (result ≡ pilot_clash d (plan_of plan.now) [] (plan_of plan.now).pilots) × AfterPilots result d (plan_of plan.now) m.new }
{
    for q in 0..np {
        let k = wide(pil[q]);
        if m[k] != 0 {
            return Some(u32::from(rec[q]));
        }
        m[k] = CONTINUOUS;
    }
    None
}

// Grounds 6 to 8; where none holds, m is left with the mark of every subcarrier.
pub fn grounds_6_to_8(
    d: Device,
    plan: &[u8],
    lo: &[u16],
    hi: &[u16],
    n: usize,
    pil: &[u16; 128],
    rec: &[u16; 128],
    np: usize,
    l: usize,
    m: &mut [u16; 4096],
) -> Result<(), Refusal>
    requires { Ready d (plan_of plan.now) lo.now hi.now n pil.now rec.now np l m.old }
    ensures { (result ≡ grounds6to8 d (plan_of plan.now)) × MarkedIf result d (plan_of plan.now) m.new × (length m.new ≡ capacity) }
{
    marks::paint(plan, d.subcarriers, lo, hi, n, m);
    if let Some(k) = ground6(d, plan, m) {
        return Err(Refusal {
            number: 6,
            place: k,
        });
    }
    if let Some(k) = ground7(d, plan, m, l) {
        return Err(Refusal {
            number: 7,
            place: k,
        });
    }
    marks::mark_fixed(d, plan, m, l);
    match ground8(d, plan, pil, rec, np, m) {
        Some(k) => Err(Refusal {
            number: 8,
            place: k,
        }),
        None => Ok(()),
    }
}
