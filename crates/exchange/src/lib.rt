// A pass over a store of places (document 02, request 03), cell by cell: the oldest of each cell goes out, and the cell that came in before takes its
// place. Once the whole store goes one place down, each cell that came in stands in the last of its own places (crate delay).
#![tactic(auto)]

ghost use Rattle.std.specs.Prelude.{◌≡◌, ◌+◌, ◌≤◌, ◌<◌, length, get_or, set};
ghost use Rattle.rules.specs.Fits.{capacity};
ghost use Rattle.exchange.specs.Exchange.{end_delay, first_delay, next_delay, Passes, At};

// How far a pass has come: to cell p, which has the delay d and whose places begin at `at`; and the cell that came in last.
#[derive(Clone, Copy)]
pub struct Reached {
    pub p: usize,
    pub d: usize,
    pub at: usize,
    pub last: u16,
}

// The delay of the first cell of a group of m that has a place: the second of an emitter's, the first of a receiver's.
pub fn first_delay(emitter: bool, m: usize) -> usize
    requires { 0 < m }
    ensures { result ≡ first_delay emitter m }
{
    if emitter { 1 } else { m - 1 }
}

// The delay of the cell after one with the delay d, if both have places: an emitter's go up, a receiver's down.
pub fn next_delay(emitter: bool, d: usize) -> usize
    requires { (0 < d) × (d ≤ capacity) }
    ensures { result ≡ next_delay emitter d }
{
    if emitter { d + 1 } else { d - 1 }
}

// The oldest cell, at place `at`, goes out as cell p, and the cell that came in before takes its place. The answer is the cell p that comes in.
fn exchange_one(at: usize, p: usize, last: u16, store: &mut [u16], cells: &mut [u16]) -> u16
    requires { (at < length store.old) × (p < length cells.old) }
    ensures came { result ≡ get_or cells.old p 0 }
    ensures stored { store.new ≡ set store.old at last }
    ensures sent { cells.new ≡ set cells.old p (get_or store.old at 0) }
{
    let oldest = store[at];
    store[at] = last;
    let newest = cells[p];
    cells[p] = oldest;
    newest
}

// Two cells at once, with their oldest at `at` and `next`. All four are read before any is stored, and neighbours stored together: that is quicker.
fn exchange_two(
    at: usize,
    next: usize,
    p: usize,
    last: u16,
    store: &mut [u16],
    cells: &mut [u16],
) -> u16
    requires { (at < length store.old) × (next < length store.old) × (p + 1 < length cells.old) }
    ensures came { result ≡ get_or cells.old (p + 1) 0 }
    ensures stored { store.new ≡ set (set store.old at last) next (get_or cells.old p 0) }
    ensures sent { cells.new ≡ set (set cells.old p (get_or store.old at 0)) (p + 1) (get_or store.old next 0) }
{
    let oldest = store[at];
    let oldest_next = store[next];
    let came = cells[p];
    let newest = cells[p + 1];
    store[at] = last;
    store[next] = came;
    cells[p] = oldest;
    cells[p + 1] = oldest_next;
    newest
}

// The next cell, if it comes before cell k.
fn pass_one(
    emitter: bool,
    m: usize,
    b: usize,
    e: usize,
    k: usize,
    from: Reached,
    store: &mut [u16],
    cells: &mut [u16],
) -> Reached
    requires { At emitter m b e store.old cells.old from.p from.d from.at × (k ≤ from.p + 1) × (k ≤ e) }
    ensures at { At emitter m b e store.new cells.new result.p result.d result.at × (k ≤ result.p) }
    ensures passed { Passes (end_delay emitter m) from.p store.old cells.old from.at from.last result.p store.new cells.new result.at result.last }
{
    let p = from.p;
    if k <= p {
        return from;
    }
    let d = from.d;
    let at = from.at;
    let newest = exchange_one(at, p, from.last, store, cells);
    let next = next_delay(emitter, d);
    let after = at + d;
    Reached {
        p: p + 1,
        d: next,
        at: after,
        last: newest,
    }
}

// The next cells, two by two.
fn pass_pairs(
    emitter: bool,
    m: usize,
    b: usize,
    e: usize,
    from: Reached,
    store: &mut [u16],
    cells: &mut [u16],
) -> Reached
    requires { At emitter m b e store.old cells.old from.p from.d from.at }
    ensures at { At emitter m b e store.new cells.new result.p result.d result.at × (e ≤ result.p + 1) }
    ensures passed { Passes (end_delay emitter m) from.p store.old cells.old from.at from.last result.p store.new cells.new result.at result.last }
{
    let pairs = (e - from.p) / 2;
    let mut d = from.d;
    let mut at = from.at;
    let mut last = from.last;
    for i in 0..pairs {
        let second = at + d;
        let next = next_delay(emitter, d);
        last = exchange_two(at, second, from.p + 2 * i, last, store, cells);
        at = second + next;
        d = next_delay(emitter, next);
    }
    Reached {
        p: from.p + 2 * pairs,
        d,
        at,
        last,
    }
}

// The pass over cells b to e - 1, of one group of m, which all have places. They begin at place `start`, and `came` came in before them. Pairs begin
// with an even cell.
pub fn pass_group(
    emitter: bool,
    m: usize,
    b: usize,
    e: usize,
    start: usize,
    came: u16,
    store: &mut [u16],
    cells: &mut [u16],
) -> Reached
    requires { At emitter m b e store.old cells.old b (first_delay emitter m) start × (b < e) }
    ensures { Passes (end_delay emitter m) b store.old cells.old start came e store.new cells.new result.at result.last }
{
    let d = first_delay(emitter, m);
    let from = Reached {
        p: b,
        d: d,
        at: start,
        last: came,
    };
    let even = pass_one(emitter, m, b, e, b + b % 2, from, store, cells);
    let most = pass_pairs(emitter, m, b, e, even, store, cells);
    pass_one(emitter, m, b, e, e, most, store, cells)
}
