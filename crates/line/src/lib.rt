// Symbols on the line: the cells of a symbol on their subcarriers, a mark on every other.
#![tactic(auto)]

ghost use Rattle.std.specs.Prelude.{◌≡◌, ℕ, ◌≤◌, ◌<◌, length, get_or, take};
ghost use Rattle.rules.specs.Plan.{plan_of};
ghost use Rattle.rules.specs.Fits.{Fits};
ghost use Rattle.rules.specs.Frame.{frame_of, cells, carrier, line_symbol};
ghost use Rattle.verdicts.specs.Studied.{Studied};

use rules::Device;

// Cells copied over others, as many as there are of those.
fn copy(from: &[u16], to: &mut [u16])
    requires { length to.old ≤ length from.now }
    ensures { to.new ≡ take (length to.old) from.now }
{
    let n = to.len();
    to.copy_from_slice(&from[..n]);
}

// The symbol on the line that sends the cells x, from the subcarriers by rank.
pub fn place(d: Device, plan: &[u8], marks: &[u16; 4096], car: &[u16], x: &[u16], out: &mut [u16])
    requires { Fits d × Studied d plan.now marks.now × (length car.now ≡ 4096) × (length x.now ≡ cells (frame_of d (plan_of plan.now))) × (length out.old ≡ d.subcarriers) × ((i : ℕ) → i < length x.now → get_or car.now i 0 ≡ carrier (frame_of d (plan_of plan.now)) i) }
    ensures { out.new ≡ line_symbol (frame_of d (plan_of plan.now)) x.now }
{
    copy(marks, out);
    placing::place_rows(d.row_bits, car, x, out);
}
