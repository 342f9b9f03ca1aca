// The delay store (document 02, request 03): for each cell one place for each symbol of its delay, in rising p, the oldest first. A step is one pass
// and one move of memory: the oldest of each cell goes out, and the cell that came in before takes its place; then the whole store goes one place
// down, and the cell that came in last takes the last place. A cell without a place goes out as it came in.
#![tactic(auto)]

ghost use Rattle.std.specs.Prelude.{◌≡◌, ◌+◌, ◌≤◌, ◌<◌, length};
ghost use Rattle.rules.specs.Fits.{capacity};
ghost use Rattle.rules.specs.Places.{emitter_delay, receiver_delay, places_before, oldest, moved};
ghost use Rattle.exchange.specs.Exchange.{end_delay, first_cell, Exchanged};
ghost use Rattle.delay.specs.Shift.{Least, shifted};

// The lesser of two numbers.
pub fn least(a: usize, b: usize) -> usize
    ensures { Least a b result }
{
    if a < b { a } else { b }
}

// The first cell of a group that has a place: the second of an emitter's, the first of a receiver's.
pub fn first_cell(emitter: bool) -> usize
    ensures { result ≡ first_cell emitter }
{
    if emitter { 1 } else { 0 }
}

// The pass over all cells, group by group. The answer is the cell that came in last.
fn pass(emitter: bool, m: usize, store: &mut [u16], cells: &mut [u16]) -> u16
    requires { (1 < m) × (m ≤ capacity) × (length cells.old ≤ capacity) × (places_before (end_delay emitter m) (length cells.old) ≤ length store.old) }
    ensures { Exchanged (end_delay emitter m) store.old cells.old (length cells.old) store.new cells.new (places_before (end_delay emitter m) (length cells.old)) result }
{
    let n = cells.len();
    let mut at = 0;
    let mut last = 0;
    for p in (first_cell(emitter)..n).step_by(m) {
        let e = least(p + (m - 1), n);
        let passed = exchange::pass_group(emitter, m, p, e, at, last, store, cells);
        at = passed.at;
        last = passed.last;
    }
    last
}

// The first n places go one place down.
fn shift(store: &mut [u16], n: usize)
    requires { n ≤ length store.old }
    ensures { store.new ≡ shifted n store.old }
{
    for k in 1..n {
        store[k - 1] = store[k];
    }
}

// A step on an end's store of so many places.
fn step(emitter: bool, m: usize, places: usize, store: &mut [u16], cells: &mut [u16])
    requires { (0 < m) × (m ≤ capacity) × (length cells.old ≤ capacity) × (places ≡ places_before (end_delay emitter m) (length cells.old)) × (places ≤ length store.old) }
    ensures stored { store.new ≡ moved (end_delay emitter m) (length cells.old) store.old cells.old }
    ensures sent { cells.new ≡ oldest (end_delay emitter m) (length cells.old) store.old cells.old }
{
    if places == 0 {
        return;
    }
    let last = pass(emitter, m, store, cells);
    shift(store, places);
    store[places - 1] = last;
}

// The emitter's step: cell p is delayed by p mod m symbols.
pub fn delay(m: usize, store: &mut [u16], cells: &mut [u16])
    requires { (0 < m) × (m ≤ capacity) × (length cells.old ≤ capacity) × (places_before (emitter_delay m) (length cells.old) ≤ length store.old) }
    ensures stored { store.new ≡ moved (emitter_delay m) (length cells.old) store.old cells.old }
    ensures sent { cells.new ≡ oldest (emitter_delay m) (length cells.old) store.old cells.old }
{
    step(
        true,
        m,
        places::emitter_places(m, cells.len()),
        store,
        cells,
    );
}

// The receiver's step: cell p is delayed by m - 1 less p mod m symbols.
pub fn gather(m: usize, store: &mut [u16], cells: &mut [u16])
    requires { (0 < m) × (m ≤ capacity) × (length cells.old ≤ capacity) × (places_before (receiver_delay m) (length cells.old) ≤ length store.old) }
    ensures stored { store.new ≡ moved (receiver_delay m) (length cells.old) store.old cells.old }
    ensures sent { cells.new ≡ oldest (receiver_delay m) (length cells.old) store.old cells.old }
{
    step(
        false,
        m,
        places::receiver_places(m, cells.len()),
        store,
        cells,
    );
}
