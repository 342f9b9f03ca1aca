// The limit of data (ground 19): the search for a number that exceeds the limit of its load. It counts, without a branch to leave by, and
// looks for the number only where there is one. Where all loads are the same, their limit is that of every number.
#![tactic(auto)]

ghost use Rattle.std.specs.Prelude.{◌≡◌, ◌&&◌, ℕ, ◌≤◌, ◌<◌, ltb, leb, eqb, length, get_or};
ghost use Rattle.counting.specs.Search.{bit, count, lowest, tabulate, is_zero};
ghost use Rattle.rules.specs.Fits.{capacity};
ghost use Rattle.rules.specs.Loads.{load_limit, limit_at};
ghost use Rattle.fill.specs.Flags.{data_cell};
ghost use Rattle.datalimit.specs.Over.{over_at};

use counting::wide;
use profiles::{load_index, table};

// 1 for a number within a limit, else 0.
fn one_if_within(limit: u16, x: u16) -> u16
    ensures { result ≡ bit (leb x limit) }
{
    if x <= limit { 1 } else { 0 }
}

// How many of the numbers are within a limit.
fn within(limit: u16, ds: &[u16]) -> u16
    requires { length ds.now ≤ capacity }
    ensures { result ≡ count (λ i. leb (get_or ds.now i 0) limit) (length ds.now) }
{
    let mut n: u16 = 0;
    for x in ds {
        n += one_if_within(limit, *x);
    }
    n
}

// 1 for a number that exceeds a limit, else 0.
fn one_if_over(limit: u16, x: u16) -> u16
    ensures { result ≡ bit (ltb limit x) }
{
    if limit < x { 1 } else { 0 }
}

// The limit of the load of cell p, from the table of limits.
fn cell_limit(limits: &[u16; 15], profile: &[u8], kc: &[u16], p: usize) -> u16
    requires { (limits.now ≡ tabulate load_limit 15) × (p < length kc.now) × (p < capacity) × (get_or kc.now p 0 < length profile.now) × ((k : ℕ) → get_or profile.now k 0 ≤ 14) }
    ensures { result ≡ limit_at profile.now (get_or kc.now p 0) }
{
    let k = wide(kc[p]);
    limits[load_index(profile[k])]
}

// How many cells of an input symbol exceed the limits of their loads; every placeholder does.
fn over_cells(profile: &[u8], kc: &[u16], x: &[u16]) -> u16
    requires { (length x.now ≤ capacity) × (length x.now ≤ length kc.now) × ((p : ℕ) → p < length x.now → get_or kc.now p 0 < length profile.now) × ((k : ℕ) → get_or profile.now k 0 ≤ 14) }
    ensures { result ≡ count (λ p. ltb (limit_at profile.now (get_or kc.now p 0)) (get_or x.now p 0)) (length x.now) }
{
    let limits = table::LIMITS;
    let mut n: u16 = 0;
    for (p, cell) in x.iter().enumerate() {
        n += one_if_over(cell_limit(&limits, profile, kc, p), *cell);
    }
    n
}

// Whether a cell is a data cell, and its number exceeds a limit.
fn over_data(flag: u8, limit: u16, x: u16) -> bool
    ensures { result ≡ (eqb flag 0 && ltb limit x) }
{
    if flag != 0 {
        return false;
    }
    limit < x
}

// 1 for a data cell, else 0.
fn one_if_data(flag: u8) -> usize
    ensures { result ≡ bit (eqb flag 0) }
{
    if flag == 0 { 1 } else { 0 }
}

// The lowest position of a number that exceeds its load's limit, by looking at one cell of the input symbol after the other.
fn search_over(profile: &[u8], kc: &[u16], flag: &[u8], x: &[u16], ds: &[u16]) -> Option<u32>
    requires { (length x.now ≤ capacity) × (length x.now ≤ length kc.now) × (length x.now ≤ length flag.now) × ((p : ℕ) → p < length x.now → get_or kc.now p 0 < length profile.now) × ((k : ℕ) → get_or profile.now k 0 ≤ 14) × (length ds.now ≡ count (is_zero flag.now) (length x.now)) × (x.now ≡ tabulate (data_cell flag.now ds.now) (length x.now)) }
    ensures { result ≡ lowest (over_at profile.now kc.now flag.now (length x.now) ds.now) (length ds.now) }
{
    let limits = table::LIMITS;
    let mut i: usize = 0;
    for (p, cell) in x.iter().enumerate() {
        let limit = cell_limit(&limits, profile, kc, p);
        if over_data(flag[p], limit, *cell) {
            return Some(i as u32);
        }
        i += one_if_data(flag[p]);
    }
    None
}

// The lowest position of a number of the data ds that exceeds its load's limit: kc are the subcarriers of the cells, flag the flags of the
// placeholders, x the input symbol of the data.
pub fn first_over(profile: &[u8], kc: &[u16], flag: &[u8], x: &[u16], ds: &[u16]) -> Option<u32>
    requires { (length x.now ≤ capacity) × (length x.now ≤ length kc.now) × (length x.now ≤ length flag.now) × ((p : ℕ) → p < length x.now → get_or kc.now p 0 < length profile.now) × ((k : ℕ) → get_or profile.now k 0 ≤ 14) × (length ds.now ≡ count (is_zero flag.now) (length x.now)) × (x.now ≡ tabulate (data_cell flag.now ds.now) (length x.now)) }
    ensures { result ≡ lowest (over_at profile.now kc.now flag.now (length x.now) ds.now) (length ds.now) }
{
    let range = profiles::load_range(profile);
    if range.low == range.high {
        if range.low <= 14 {
            if wide(within(profiles::limit_of(range.low), ds)) == ds.len() {
                return None;
            }
        }
    } else {
        if wide(over_cells(profile, kc, x)) + ds.len() == x.len() {
            return None;
        }
    }
    search_over(profile, kc, flag, x, ds)
}
