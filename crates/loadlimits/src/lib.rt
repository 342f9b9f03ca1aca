// The test pass of filling a modulator symbol (request 04): the lowest subcarrier that 22 or 23 refuses, by a table of the limits of all loads.
#![tactic(auto)]

ghost use Rattle.std.specs.Prelude.{◌≡◌, List, ℕ, ◌<◌, ltb, length, replicate};
ghost use Rattle.counting.specs.Search.{when, lowest};
ghost use Rattle.modulator.specs.Symbols.{line_refusal};
ghost use Rattle.loadlimits.specs.Limits.{limit_of, admits, unadmitted, Limits};

use gray::power;
use points::load_listed;

// The limit of a load.
fn limit_of(load: u32) -> u16
    ensures { result ≡ limit_of load }
{
    if !load_listed(load) {
        return 0;
    }
    power(load) as u16
}

// Fills a table of zeros with the limits.
fn fill_limits(limits: &mut [u16; 256])
    requires { limits.old ≡ replicate 256 0 }
    ensures { Limits limits.new }
{
    for load in 0..15 {
        limits[load as usize] = limit_of(load);
    }
}

// Whether a cell is admitted at a load of this limit.
fn admitted(limit: u16, cell: u16) -> bool
    ensures { result ≡ admits limit cell }
{
    if cell < limit {
        return true;
    }
    if limit == 0 {
        return false;
    }
    if cell < 0x8000 {
        return false;
    }
    if 0x8004 < cell {
        return false;
    }
    true
}

// A byte as an index.
fn index_of(b: u8) -> usize
    ensures { (result ≡ b) × (result < 256) }
{
    b as usize
}

// The lowest subcarrier whose cell is not admitted, or the number of subcarriers.
fn lowest_unadmitted(limits: &[u16; 256], symbol: &[u16], loads: &[u8]) -> usize
    requires { Limits limits.now × (length loads.now ≡ length symbol.now) }
    ensures { when (ltb result (length symbol.now)) result ≡ lowest (unadmitted symbol.now loads.now) (length symbol.now) }
{
    for k in 0..symbol.len() {
        if !admitted(limits[index_of(loads[k])], symbol[k]) {
            return k;
        }
    }
    symbol.len()
}

// The lowest subcarrier that is refused, or the number of subcarriers. The sign of its pilot refuses none.
pub fn first_refused(symbol: &[u16], loads: &[u8]) -> usize
    requires { length loads.now ≡ length symbol.now }
    ensures { (minus : List ℕ) → when (ltb result (length symbol.now)) result ≡ line_refusal symbol.now loads.now minus (length symbol.now) }
{
    let mut limits = [0u16; 256];
    fill_limits(&mut limits);
    lowest_unadmitted(&limits, symbol, loads)
}
