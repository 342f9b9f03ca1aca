// The loads of the data cells of an input symbol, taken from a profile, and ground 19 by them (request 07).
#![tactic(auto)]

ghost use Rattle.std.specs.Prelude.{◌≡◌, ℕ, ◌*◌, ◌≤◌, ◌<◌, ltb, length, get_or, take, Ok};
ghost use Rattle.counting.specs.Search.{lowest};
ghost use Rattle.rules.specs.Fits.{Fits, capacity};
ghost use Rattle.rules.specs.Plan.{plan_of};
ghost use Rattle.rules.specs.Frame.{frame_of, cells, spot, data_count, line_cells};
ghost use Rattle.rules.specs.Loads.{ground25, load_limit, data_loads};
ghost use Rattle.rules.specs.Filling.{bit_count};
ghost use Rattle.fill.specs.Flags.{Flagged};

use counting::wide;
use profiles::table;
use rules::Device;

// The loads of all cells, in cell order, from the subcarriers of the cells.
fn cell_loads(d: Device, plan: &[u8], profile: &[u8], kc: &[u16], x: &mut [u16])
    requires { Fits d × (length profile.now ≡ d.subcarriers) × (length x.old ≡ cells (frame_of d (plan_of plan.now))) × (length x.old ≤ length kc.now) × ((p : ℕ) → p < length x.old → get_or kc.now p 0 ≡ spot (frame_of d (plan_of plan.now)) p) }
    ensures { x.new ≡ line_cells (frame_of d (plan_of plan.now)) profile.now }
{
    for (p, cell) in x.iter_mut().enumerate() {
        let k = wide(kc[p]);
        *cell = u16::from(profile[k]);
    }
}

// The loads of the data cells at phase j, nd of them, in the first places of `loads`, and what they add up to. x is used up.
pub fn take_loads(
    d: Device,
    plan: &[u8],
    profile: &[u8],
    j: usize,
    nd: usize,
    kc: &[u16],
    flag: &[u8],
    x: &mut [u16],
    loads: &mut [u16],
) -> usize
    requires { Fits d × (ground25 d.subcarriers profile.now ≡ Ok tt) × (length x.old ≡ cells (frame_of d (plan_of plan.now))) × (length x.old ≤ length kc.now) × (length x.old ≤ length flag.now) × (nd ≡ data_count (frame_of d (plan_of plan.now)) j) × (nd ≤ length loads.old) × ((p : ℕ) → p < length x.old → get_or kc.now p 0 ≡ spot (frame_of d (plan_of plan.now)) p) × Flagged (frame_of d (plan_of plan.now)) j flag.now }
    ensures sum { (result ≡ bit_count (frame_of d (plan_of plan.now)) profile.now j) × (result ≤ 14 * capacity) }
    ensures made { take nd loads.new ≡ data_loads (frame_of d (plan_of plan.now)) profile.now j }
{
    cell_loads(d, plan, profile, kc, x);
    taking::take_data(x, flag, loads);
    bits::sum_loads(&loads[..nd])
}

// The lowest position of a number that exceeds the limit of its load.
pub fn first_over(loads: &[u16], ds: &[u16]) -> Option<u32>
    requires { (length ds.now ≤ capacity) × (length ds.now ≤ length loads.now) × ((c : ℕ) → c < length loads.now → get_or loads.now c 0 ≤ 14) }
    ensures { result ≡ lowest (λ i. ltb (load_limit (get_or loads.now i 0)) (get_or ds.now i 0)) (length ds.now) }
{
    let limits = table::LIMITS;
    for (i, x) in ds.iter().enumerate() {
        if limits[wide(loads[i])] < *x {
            return Some(i as u32);
        }
    }
    None
}
