// The pilot lamp's record (document 02, Req 10): what ground 28 asks of it, the record after one more symbol, and its lights. The functions
// are for the entries above, which have read the plan and know its pilots.
#![tactic(auto)]

ghost use Rattle.std.specs.Prelude.{suc, ◌+◌, ◌≤◌, ◌<◌, ◌≡◌, not, ◌&&◌, ◌||◌, ltb, eqb, length, get_or};
ghost use Rattle.counting.specs.Search.{bit, pick, lowest, is_none};
ghost use Rattle.rules.specs.Roles.{continuous_mark};
ghost use Rattle.pilots.specs.Pilots.{pilots_most};
ghost use Rattle.lamprecord.specs.Record.{lamp_cap, capped, lights, next_by, bad_count, bad_record};

use pilots::{CONTINUOUS, PILOTS};

// Counts are capped at this.
const CAP: u8 = 128;

// Whether a count is above the cap or above the first.
fn bad_count(first: u8, c: u8) -> bool
    ensures { result ≡ (ltb lamp_cap c || ltb first c) }
{
    if CAP < c {
        return true;
    }
    first < c
}

// Whether some count of a record is above the cap or above its first.
fn some_bad(counts: &[u8]) -> bool
    ensures { result ≡ not (is_none (lowest (bad_count lamp_cap counts.now) (length counts.now))) }
{
    for x in counts {
        if bad_count(counts[0], *x) {
            return true;
        }
    }
    false
}

// Ground 28 of a record, with n pilots.
pub fn bad_record(n: usize, counts: &[u8]) -> bool
    requires { n ≤ pilots_most }
    ensures { result ≡ bad_record lamp_cap n counts.now }
{
    if counts.len() != n + 1 {
        return true;
    }
    some_bad(counts)
}

// One more of a count, capped.
fn more(c: u8) -> u8
    ensures { result ≡ capped lamp_cap (c + 1) }
{
    if c < CAP { c + 1 } else { CAP }
}

// The next count of a pilot whose cell is x.
fn next_count(x: u16, c: u8) -> u8
    ensures { result ≡ pick (eqb x continuous_mark) (capped lamp_cap (c + 1)) 0 }
{
    if x == CONTINUOUS { more(c) } else { 0 }
}

// The record after one more symbol, whose cells at the n pilots are given.
pub fn advance(cells: &[u16; PILOTS], n: usize, counts: &mut [u8])
    requires { (length cells.now ≡ pilots_most) × (n ≤ pilots_most) × (length counts.old ≡ suc n) }
    ensures { counts.new ≡ next_by lamp_cap (λ i. eqb (get_or cells.now i 0) continuous_mark) n counts.old }
{
    for i in 0..n {
        counts[i + 1] = next_count(cells[i], counts[i + 1]);
    }
    counts[0] = more(counts[0]);
}

// A count of a record; 0 past its end.
fn count_at(counts: &[u8], i: usize) -> u8
    ensures { result ≡ get_or counts.now i 0 }
{
    if i < counts.len() {
        return counts[i];
    }
    0
}

// 1 for a pilot that is lit, else 0.
fn light(first: u8, c: u8) -> u8
    ensures { result ≡ bit (ltb 0 first && eqb c first) }
{
    if first == 0 {
        return 0;
    }
    if c == first { 1 } else { 0 }
}

// The lights of a record.
pub fn lights_of(counts: &[u8]) -> [u8; PILOTS]
    ensures { result ≡ lights pilots_most counts.now }
{
    let mut out = [0u8; PILOTS];
    for i in 0..PILOTS {
        out[i] = light(count_at(counts, 0), count_at(counts, i + 1));
    }
    out
}
