// Load profiles: ground 25, the range of the loads, and their limits (request 07). The test for a load that is not listed joins all answers
// without a branch to leave by, and looks for the load only where there is one.
#![tactic(auto)]

ghost use Rattle.std.specs.Prelude.{◌≡◌, true, not, ℕ, ◌≤◌, ◌<◌, length, get_or};
ghost use Rattle.counting.specs.Search.{bit, lowest, tabulate};
ghost use Rattle.rules.specs.Fits.{Fits, capacity};
ghost use Rattle.rules.specs.Loads.{profile_load, ground25, load_limit, limit_at};

use rules::{Device, Refusal};

pub mod table;

// 1 for a load that no profile may hold, else 0.
fn unlisted(load: u8) -> u8
    ensures { result ≡ bit (not (profile_load load)) }
{
    if load == 0 {
        return 0;
    }
    if load == 4 {
        return 0;
    }
    if load < 6 {
        return 1;
    }
    if load <= 14 { 0 } else { 1 }
}

// Whether all loads are listed.
fn all_listed(profile: &[u8]) -> bool
    ensures { result ≡ true → (k : ℕ) → k < length profile.now → profile_load (get_or profile.now k 0) ≡ true }
{
    let mut some: u8 = 0;
    for load in profile {
        some |= unlisted(*load);
    }
    some == 0
}

// The lowest subcarrier whose load is not listed, by looking at one after the other.
fn search_unlisted(profile: &[u8]) -> Option<u32>
    requires { length profile.now ≤ capacity }
    ensures { result ≡ lowest (λ k. not (profile_load (get_or profile.now k 0))) (length profile.now) }
{
    for (k, load) in profile.iter().enumerate() {
        if unlisted(*load) != 0 {
            return Some(k as u32);
        }
    }
    None
}

// Ground 25 of a profile.
pub fn profile_ground(d: Device, profile: &[u8]) -> Result<(), Refusal>
    requires { Fits d }
    ensures { result ≡ ground25 d.subcarriers profile.now }
{
    if profile.len() != d.subcarriers {
        return Err(Refusal {
            number: 25,
            place: 0,
        });
    }
    if all_listed(profile) {
        return Ok(());
    }
    match search_unlisted(profile) {
        Some(k) => Err(Refusal {
            number: 25,
            place: k,
        }),
        None => Ok(()),
    }
}

// The loads of a profile lie in low to high.
#[derive(Clone, Copy)]
pub struct Range {
    pub low: u8,
    pub high: u8,
}

// The range of the loads. Where both ends are one, every subcarrier has that load.
pub fn load_range(profile: &[u8]) -> Range
    ensures { (k : ℕ) → k < length profile.now → (result.low ≤ get_or profile.now k 0) × (get_or profile.now k 0 ≤ result.high) }
{
    let mut low: u8 = 255;
    let mut high: u8 = 0;
    for load in profile {
        low = low.min(*load);
        high = high.max(*load);
    }
    Range { low, high }
}

// A load as an index.
pub fn load_index(load: u8) -> usize
    ensures { result ≡ load }
{
    load as usize
}

// The limit of a load.
pub fn limit_of(load: u8) -> u16
    requires { load ≤ 14 }
    ensures { result ≡ load_limit load }
{
    let limits = table::LIMITS;
    limits[load_index(load)]
}

// The limits of the subcarriers of a profile.
pub fn limits(profile: &[u8], limits: &mut [u16])
    requires { (length limits.old ≤ length profile.now) × ((k : ℕ) → get_or profile.now k 0 ≤ 14) }
    ensures { limits.new ≡ tabulate (limit_at profile.now) (length limits.old) }
{
    let all = table::LIMITS;
    for (k, limit) in limits.iter_mut().enumerate() {
        *limit = all[load_index(profile[k])];
    }
}
