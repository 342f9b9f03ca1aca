// Cells and subcarriers of an accepted plan: the subcarriers by rank (`car`) and by cell (`kc`), the placeholders of an input symbol (`flag`)
// and N_D.
#![tactic(auto)]

ghost use Rattle.std.specs.Prelude.{◌≡◌, ℕ, ◌≤◌, ◌<◌, length, get_or};
ghost use Rattle.counting.specs.Search.{bit};
ghost use Rattle.rules.specs.Plan.{plan_of};
ghost use Rattle.rules.specs.Fits.{Fits};
ghost use Rattle.rules.specs.Frame.{frame_of, cells, carrier, spot, held, data_count};
ghost use Rattle.verdicts.specs.Studied.{Studied};

use rules::Device;

// The subcarriers by rank, and those of the cells.
pub fn spots(d: Device, plan: &[u8], marks: &[u16; 4096], car: &mut [u16], kc: &mut [u16])
    requires { Fits d × Studied d plan.now marks.now × (length car.old ≡ 4096) × (length kc.old ≡ cells (frame_of d (plan_of plan.now))) }
    ensures ranks { (i : ℕ) → i < length kc.old → get_or car.new i 0 ≡ carrier (frame_of d (plan_of plan.now)) i }
    ensures spots { (p : ℕ) → p < length kc.old → get_or kc.new p 0 ≡ spot (frame_of d (plan_of plan.now)) p }
{
    carriers::carriers(marks, d.subcarriers, car);
    rows::cell_carriers(d.row_bits, car, kc);
}

// The flags of the placeholders of the input symbol at phase j, from the subcarriers of the cells; and N_D.
pub fn flags_at(d: Device, plan: &[u8], m: usize, j: usize, kc: &[u16], flag: &mut [u8]) -> usize
    requires { Fits d × (8 ≤ length plan.now) × ((plan_of plan.now).plc ≤ d.high_plc) × (m ≡ (plan_of plan.now).depth) × (0 < m) × (m ≤ 128) × (j ≤ 4096) × (length kc.now ≡ cells (frame_of d (plan_of plan.now))) × ((p : ℕ) → p < length kc.now → get_or kc.now p 0 ≡ spot (frame_of d (plan_of plan.now)) p) × (length kc.now ≤ length flag.old) }
    ensures flags { (p : ℕ) → p < length kc.now → get_or flag.new p 0 ≡ bit (held (frame_of d (plan_of plan.now)) j p) }
    ensures number { result ≡ data_count (frame_of d (plan_of plan.now)) j }
{
    let l = records::number_at(plan, 4);
    let n = placeholders::holders(m, l + d.plc_width + j, kc, flag);
    kc.len() - n
}

// The subcarriers by rank and by cell, the flags of the placeholders of the input symbol at phase j, and N_D.
pub fn prepare(
    d: Device,
    plan: &[u8],
    marks: &[u16; 4096],
    m: usize,
    j: usize,
    car: &mut [u16],
    kc: &mut [u16],
    flag: &mut [u8],
) -> usize
    requires { Fits d × Studied d plan.now marks.now × (m ≡ (plan_of plan.now).depth) × (0 < m) × (m ≤ 128) × (j ≤ 4096) × (length car.old ≡ 4096) × (length kc.old ≡ cells (frame_of d (plan_of plan.now))) × (length kc.old ≤ length flag.old) }
    ensures ranks { (i : ℕ) → i < length kc.old → get_or car.new i 0 ≡ carrier (frame_of d (plan_of plan.now)) i }
    ensures spots { (p : ℕ) → p < length kc.old → get_or kc.new p 0 ≡ spot (frame_of d (plan_of plan.now)) p }
    ensures flags { (p : ℕ) → p < length kc.old → get_or flag.new p 0 ≡ bit (held (frame_of d (plan_of plan.now)) j p) }
    ensures number { result ≡ data_count (frame_of d (plan_of plan.now)) j }
{
    spots(d, plan, marks, car, kc);
    flags_at(d, plan, m, j, kc, flag)
}
