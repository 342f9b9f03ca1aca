// What arrives: the lowest subcarrier whose cell is not what its role asks for (ground 20), and the arriving cells in cell order. The test
// counts the cells that fit, without a branch to leave by, and looks for the wrong one only where some do not.
#![tactic(auto)]

ghost use Rattle.std.specs.Prelude.{◌≡◌, true, not, ℕ, ◌≤◌, ◌<◌, length, get_or, Ok};
ghost use Rattle.counting.specs.Search.{bit, count, lowest};
ghost use Rattle.rules.specs.Plan.{plan_of};
ghost use Rattle.rules.specs.Fits.{Fits, capacity};
ghost use Rattle.rules.specs.Frame.{frame_of, cells, spot, line_cells};
ghost use Rattle.rules.specs.Loads.{ground25, limit_at};
ghost use Rattle.rules.specs.Receive.{wrong_cell};
ghost use Rattle.verdicts.specs.Studied.{Studied};
ghost use Rattle.arrivals.specs.Expected.{allowed, allowed_at, scattered_mark, expected};

use counting::wide;
use rules::Device;

// Phases are 0 to 127.
const PHASES: usize = 128;

// The mark of a scattered placeholder.
const PLACEHOLDER: u16 = 0x8000;

// The mark of filler.
const FILLER: u16 = 0x8001;

// The mark of a subcarrier where the scattered pattern stands: a placeholder if it has a rank.
fn scattered_mark(mark: u16) -> u16
    ensures { result ≡ scattered_mark mark }
{
    if mark == 0 { PLACEHOLDER } else { mark }
}

// Puts the scattered pilots among the marks: on the subcarriers that are `base` modulo 128.
fn scatter(marks: &mut [u16], width: usize, base: usize)
    requires { (base < 128) × (width ≤ 4096) × (width ≤ length marks.old) }
    ensures { (k : ℕ) → k < width → get_or marks.new k 0 ≡ expected base marks.old k }
{
    for k in (base..width).step_by(PHASES) {
        marks[k] = scattered_mark(marks[k]);
    }
}

// 1 for a cell that the limit and the mark allow, else 0.
fn cell_fits(limit: u16, mark: u16, x: u16) -> u16
    ensures { result ≡ bit (allowed limit mark x) }
{
    if mark == 0 {
        if x <= limit {
            return 1;
        }
        if x == FILLER {
            return 1;
        }
        return 0;
    }
    if x == mark {
        return 1;
    }
    0
}

// Whether all cells of the symbol fit under one limit.
fn all_fit(limit: u16, marks: &[u16], symbol: &[u16]) -> bool
    requires { (length symbol.now ≤ capacity) × (length symbol.now ≤ length marks.now) }
    ensures { result ≡ true → (k : ℕ) → k < length symbol.now → allowed limit (get_or marks.now k 0) (get_or symbol.now k 0) ≡ true }
{
    let mut n: u16 = 0;
    for (k, x) in symbol.iter().enumerate() {
        n += cell_fits(limit, marks[k], *x);
    }
    wide(n) == symbol.len()
}

// Whether all loads are the same, and all cells fit under their limit: then no limit is looked up.
fn fit_one_load(profile: &[u8], marks: &[u16], symbol: &[u16]) -> bool
    requires { (length symbol.now ≤ capacity) × (length symbol.now ≤ length profile.now) × (length symbol.now ≤ length marks.now) }
    ensures { result ≡ true → (k : ℕ) → k < length symbol.now → allowed (limit_at profile.now k) (get_or marks.now k 0) (get_or symbol.now k 0) ≡ true }
{
    let range = profiles::load_range(profile);
    if range.low != range.high {
        return false;
    }
    if 14 < range.low {
        return false;
    }
    all_fit(profiles::limit_of(range.low), marks, symbol)
}

// How many cells of the symbol fit.
fn fitting_cells(limits: &[u16], marks: &[u16], symbol: &[u16]) -> u16
    requires { (length symbol.now ≤ capacity) × (length symbol.now ≤ length limits.now) × (length symbol.now ≤ length marks.now) }
    ensures { result ≡ count (allowed_at limits.now marks.now symbol.now) (length symbol.now) }
{
    let mut n: u16 = 0;
    for (k, x) in symbol.iter().enumerate() {
        n += cell_fits(limits[k], marks[k], *x);
    }
    n
}

// The lowest subcarrier whose cell does not fit, by looking at one after the other.
fn search_wrong(limits: &[u16], marks: &[u16], symbol: &[u16]) -> Option<u32>
    requires { (length symbol.now ≤ capacity) × (length symbol.now ≤ length limits.now) × (length symbol.now ≤ length marks.now) }
    ensures { result ≡ lowest (λ k. not (allowed_at limits.now marks.now symbol.now k)) (length symbol.now) }
{
    for place in 0..symbol.len() {
        if cell_fits(limits[place], marks[place], symbol[place]) == 0 {
            return Some(place as u32);
        }
    }
    None
}

// The lowest subcarrier whose cell does not fit.
fn first_wrong(limits: &[u16], marks: &[u16], symbol: &[u16]) -> Option<u32>
    requires { (length symbol.now ≤ capacity) × (length symbol.now ≤ length limits.now) × (length symbol.now ≤ length marks.now) }
    ensures { result ≡ lowest (λ k. not (allowed_at limits.now marks.now symbol.now k)) (length symbol.now) }
{
    let n = fitting_cells(limits, marks, symbol);
    if wide(n) == symbol.len() {
        return None;
    }
    search_wrong(limits, marks, symbol)
}

// The lowest subcarrier whose arriving cell is not what its role at phase j asks for, data up to the limits of the profile. The marks are
// used up.
pub fn wrong_cell(
    d: Device,
    plan: &[u8],
    marks: &mut [u16; 4096],
    profile: &[u8],
    j: usize,
    symbol: &[u16],
) -> Option<u32>
    requires { Fits d × Studied d plan.now marks.old × (j ≤ 4096) × (length symbol.now ≡ d.subcarriers) × (ground25 d.subcarriers profile.now ≡ Ok tt) }
    ensures { result ≡ lowest (wrong_cell (frame_of d (plan_of plan.now)) profile.now j symbol.now) d.subcarriers }
{
    let l = records::number_at(plan, 4);
    scatter(marks, d.subcarriers, (l + d.plc_width + j) % PHASES);
    if fit_one_load(profile, marks, symbol) {
        return None;
    }
    let n = profile.len();
    let mut limits = [0u16; 4096];
    profiles::limits(profile, &mut limits[..n]);
    first_wrong(&limits[..n], marks, symbol)
}

// The arriving cells in cell order, from the subcarriers of the cells.
pub fn line_cells(d: Device, plan: &[u8], kc: &[u16], symbol: &[u16], x: &mut [u16])
    requires { Fits d × (length symbol.now ≡ d.subcarriers) × (length x.old ≡ cells (frame_of d (plan_of plan.now))) × (length x.old ≤ length kc.now) × ((p : ℕ) → p < length x.old → get_or kc.now p 0 ≡ spot (frame_of d (plan_of plan.now)) p) }
    ensures { x.new ≡ line_cells (frame_of d (plan_of plan.now)) symbol.now }
{
    for p in 0..x.len() {
        let k = wide(kc[p]);
        x[p] = symbol[k];
    }
}
