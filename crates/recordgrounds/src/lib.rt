// What is refused of one record of a plan: grounds 2 to 5, with the number of pilots before it.
#![tactic(auto)]

ghost use Rattle.std.specs.Prelude.{◌≡◌};
ghost use Rattle.rules.specs.Grounds.{bad_form, bad_next, bad_numbers, record_grounds};
ghost use Rattle.records.specs.Read.{entry_of, found_at};

use records::Record;
use rules::Device;

// So many kind 3 records are allowed.
const PILOTS_MAX: usize = 120;

// Ground 2.
fn bad_form(e: Record) -> bool
    ensures { result ≡ bad_form (entry_of e) }
{
    if e.kind == 1 {
        if e.index != 0 {
            return true;
        }
        if e.blank != 0 {
            return true;
        }
        return false;
    }
    if e.kind == 2 {
        if e.index == 0 {
            return true;
        }
        if e.blank != 0 {
            return true;
        }
        return false;
    }
    if e.kind == 3 {
        if e.index == 0 {
            return true;
        }
        if e.blank != 0 {
            return true;
        }
        if e.high != 0 {
            return true;
        }
        return false;
    }
    true
}

// Ground 3.
fn bad_next(records: usize, e: Record) -> bool
    ensures { result ≡ bad_next records (entry_of e) }
{
    if e.next == 0 {
        return false;
    }
    if e.next <= e.index {
        return true;
    }
    if records <= e.next {
        return true;
    }
    false
}

// Ground 4.
fn bad_numbers(d: Device, e: Record) -> bool
    ensures { result ≡ bad_numbers d (entry_of e) }
{
    if e.kind == 1 {
        if e.low < d.low_plc {
            return true;
        }
        if d.high_plc < e.low {
            return true;
        }
        if e.high < 1 {
            return true;
        }
        if d.depth_max < e.high {
            return true;
        }
        return false;
    }
    if e.kind == 2 {
        if d.subcarriers <= e.low {
            return true;
        }
        if d.subcarriers <= e.high {
            return true;
        }
        if e.high < e.low {
            return true;
        }
        return false;
    }
    if e.kind == 3 {
        if e.low < d.subcarriers {
            return false;
        }
        return true;
    }
    false
}

// The ground of 2 to 5 that a record has after `np` pilots, if it has one.
pub fn record_ground(d: Device, records: usize, np: usize, e: Record) -> Option<u32>
    ensures { found_at result e.index ≡ record_grounds d records np (entry_of e) }
{
    if bad_form(e) {
        return Some(2);
    }
    if bad_next(records, e) {
        return Some(3);
    }
    if bad_numbers(d, e) {
        return Some(4);
    }
    if e.kind == 3 {
        if PILOTS_MAX <= np {
            return Some(5);
        }
    }
    None
}
