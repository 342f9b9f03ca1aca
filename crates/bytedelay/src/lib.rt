// The step of crate delay over a store of two-byte cells, high byte first: one pass that exchanges, and one move of the whole store by two bytes.
#![tactic(auto)]

ghost use Rattle.std.specs.Prelude.{◌≡◌, ◌*◌, ◌≤◌, ◌<◌, length};
ghost use Rattle.rules.specs.Fits.{capacity};
ghost use Rattle.rules.specs.Places.{emitter_delay, receiver_delay, places_before, oldest, moved};
ghost use Rattle.bytecells.specs.Octets.{cells_of, bytes_of, Whole};
ghost use Rattle.exchange.specs.Exchange.{end_delay, Exchanged};
ghost use Rattle.delay.specs.Shift.{shifted};

use byteexchange::{pass_group, put};
use delay::{first_cell, least};

// The pass over all cells, group by group. The answer is the cell that came in last.
fn pass(emitter: bool, m: usize, store: &mut [u8], cells: &mut [u16]) -> u16
    requires { Whole store.old × (1 < m) × (m ≤ capacity) × (length cells.old ≤ capacity) × (2 * places_before (end_delay emitter m) (length cells.old) ≤ length store.old) }
    ensures whole { Whole store.new }
    ensures passed { Exchanged (end_delay emitter m) (cells_of store.old) cells.old (length cells.old) (cells_of store.new) cells.new (places_before (end_delay emitter m) (length cells.old)) result }
{
    let n = cells.len();
    let mut at = 0;
    let mut last = 0;
    for p in (first_cell(emitter)..n).step_by(m) {
        let e = least(p + (m - 1), n);
        let passed = pass_group(emitter, m, p, e, at, last, store, cells);
        at = passed.at;
        last = passed.last;
    }
    last
}

// The first n cells go one place down.
fn shift(store: &mut [u8], n: usize)
    requires { Whole store.old × (2 * n ≤ length store.old) }
    ensures { store.new ≡ bytes_of (shifted n (cells_of store.old)) }
{
    if 0 < n {
        store.copy_within(2..2 * n, 0);
    }
}

// A step on an end's store of so many places.
fn step(emitter: bool, m: usize, places: usize, store: &mut [u8], cells: &mut [u16])
    requires { Whole store.old × (0 < m) × (m ≤ capacity) × (length cells.old ≤ capacity) × (places ≡ places_before (end_delay emitter m) (length cells.old)) × (2 * places ≤ length store.old) }
    ensures stored { store.new ≡ bytes_of (moved (end_delay emitter m) (length cells.old) (cells_of store.old) cells.old) }
    ensures sent { cells.new ≡ oldest (end_delay emitter m) (length cells.old) (cells_of store.old) cells.old }
{
    if places == 0 {
        return;
    }
    let last = pass(emitter, m, store, cells);
    shift(store, places);
    put(store, places - 1, last);
}

// The emitter's step: cell p is delayed by p mod m symbols.
pub fn delay(m: usize, store: &mut [u8], cells: &mut [u16])
    requires { Whole store.old × (0 < m) × (m ≤ capacity) × (length cells.old ≤ capacity) × (2 * places_before (emitter_delay m) (length cells.old) ≤ length store.old) }
    ensures stored { store.new ≡ bytes_of (moved (emitter_delay m) (length cells.old) (cells_of store.old) cells.old) }
    ensures sent { cells.new ≡ oldest (emitter_delay m) (length cells.old) (cells_of store.old) cells.old }
{
    step(
        true,
        m,
        places::emitter_places(m, cells.len()),
        store,
        cells,
    );
}

// The receiver's step: cell p is delayed by m - 1 less p mod m symbols.
pub fn gather(m: usize, store: &mut [u8], cells: &mut [u16])
    requires { Whole store.old × (0 < m) × (m ≤ capacity) × (length cells.old ≤ capacity) × (2 * places_before (receiver_delay m) (length cells.old) ≤ length store.old) }
    ensures stored { store.new ≡ bytes_of (moved (receiver_delay m) (length cells.old) (cells_of store.old) cells.old) }
    ensures sent { cells.new ≡ oldest (receiver_delay m) (length cells.old) (cells_of store.old) cells.old }
{
    step(
        false,
        m,
        places::receiver_places(m, cells.len()),
        store,
        cells,
    );
}
