// The pass of crate exchange over a store of two-byte cells, high byte first.
#![tactic(auto)]

ghost use Rattle.std.specs.Prelude.{◌≡◌, ◌+◌, ◌*◌, ◌≤◌, ◌<◌, length, get_or, set};
ghost use Rattle.bytecells.specs.Octets.{cells_of, bytes_of, Whole};
ghost use Rattle.exchange.specs.Exchange.{end_delay, first_delay, Passes, At};

use exchange::{Reached, first_delay, next_delay};

// Cell i of the store.
fn cell_at(store: &[u8], i: usize) -> u16
    requires { 2 * i + 2 ≤ length store.now }
    ensures { result ≡ get_or (cells_of store.now) i 0 }
{
    bytecells::join(store[2 * i], store[2 * i + 1])
}

// The cell x goes into cell i of the store.
pub fn put(store: &mut [u8], i: usize, x: u16)
    requires { Whole store.old × (2 * i + 2 ≤ length store.old) }
    ensures { store.new ≡ bytes_of (set (cells_of store.old) i x) }
{
    store[2 * i] = bytewrite::high_byte(x);
    store[2 * i + 1] = bytewrite::low_byte(x);
}

// The oldest cell, at place `at`, goes out as cell p, and the cell that came in before takes its place. The answer is the cell p that comes in.
fn exchange_one(at: usize, p: usize, last: u16, store: &mut [u8], cells: &mut [u16]) -> u16
    requires { Whole store.old × (2 * at + 2 ≤ length store.old) × (p < length cells.old) }
    ensures came { result ≡ get_or cells.old p 0 }
    ensures stored { store.new ≡ bytes_of (set (cells_of store.old) at last) }
    ensures sent { cells.new ≡ set cells.old p (get_or (cells_of store.old) at 0) }
{
    let oldest = cell_at(store, at);
    put(store, at, last);
    let newest = cells[p];
    cells[p] = oldest;
    newest
}

// Two cells at once, with their oldest at `at` and `next`. All four are read before any is stored, and neighbours stored together: that is quicker.
fn exchange_two(
    at: usize,
    next: usize,
    p: usize,
    last: u16,
    store: &mut [u8],
    cells: &mut [u16],
) -> u16
    requires { Whole store.old × (2 * at + 2 ≤ length store.old) × (2 * next + 2 ≤ length store.old) × (p + 1 < length cells.old) }
    ensures came { result ≡ get_or cells.old (p + 1) 0 }
    ensures stored { store.new ≡ bytes_of (set (set (cells_of store.old) at last) next (get_or cells.old p 0)) }
    ensures sent { cells.new ≡ set (set cells.old p (get_or (cells_of store.old) at 0)) (p + 1) (get_or (cells_of store.old) next 0) }
{
    let oldest = cell_at(store, at);
    let oldest_next = cell_at(store, next);
    let came = cells[p];
    let newest = cells[p + 1];
    put(store, at, last);
    put(store, next, came);
    cells[p] = oldest;
    cells[p + 1] = oldest_next;
    newest
}

// The next cell, if it comes before cell k.
fn pass_one(
    emitter: bool,
    m: usize,
    b: usize,
    e: usize,
    k: usize,
    from: Reached,
    store: &mut [u8],
    cells: &mut [u16],
) -> Reached
    requires { Whole store.old × At emitter m b e (cells_of store.old) cells.old from.p from.d from.at × (k ≤ from.p + 1) × (k ≤ e) }
    ensures at { Whole store.new × At emitter m b e (cells_of store.new) cells.new result.p result.d result.at × (k ≤ result.p) }
    ensures passed { Passes (end_delay emitter m) from.p (cells_of store.old) cells.old from.at from.last result.p (cells_of store.new) cells.new result.at result.last }
{
    let p = from.p;
    if k <= p {
        return from;
    }
    let d = from.d;
    let at = from.at;
    let newest = exchange_one(at, p, from.last, store, cells);
    let next = next_delay(emitter, d);
    let after = at + d;
    Reached {
        p: p + 1,
        d: next,
        at: after,
        last: newest,
    }
}

// The next cells, two by two.
fn pass_pairs(
    emitter: bool,
    m: usize,
    b: usize,
    e: usize,
    from: Reached,
    store: &mut [u8],
    cells: &mut [u16],
) -> Reached
    requires { Whole store.old × At emitter m b e (cells_of store.old) cells.old from.p from.d from.at }
    ensures at { Whole store.new × At emitter m b e (cells_of store.new) cells.new result.p result.d result.at × (e ≤ result.p + 1) }
    ensures passed { Passes (end_delay emitter m) from.p (cells_of store.old) cells.old from.at from.last result.p (cells_of store.new) cells.new result.at result.last }
{
    let mut to = from;
    for _ in 0..(e - from.p) / 2 {
        let second = to.at + to.d;
        let next = next_delay(emitter, to.d);
        let newest = exchange_two(to.at, second, to.p, to.last, store, cells);
        to = Reached {
            p: to.p + 2,
            d: next_delay(emitter, next),
            at: second + next,
            last: newest,
        };
    }
    to
}

// The pass over cells b to e - 1, of one group of m, which all have places. They begin at place `start`, and `came` came in before them. Pairs begin
// with an even cell.
pub fn pass_group(
    emitter: bool,
    m: usize,
    b: usize,
    e: usize,
    start: usize,
    came: u16,
    store: &mut [u8],
    cells: &mut [u16],
) -> Reached
    requires { Whole store.old × At emitter m b e (cells_of store.old) cells.old b (first_delay emitter m) start × (b < e) }
    ensures whole { Whole store.new }
    ensures passed { Passes (end_delay emitter m) b (cells_of store.old) cells.old start came e (cells_of store.new) cells.new result.at result.last }
{
    let d = first_delay(emitter, m);
    let from = Reached {
        p: b,
        d: d,
        at: start,
        last: came,
    };
    let even = pass_one(emitter, m, b, e, b + b % 2, from, store, cells);
    let most = pass_pairs(emitter, m, b, e, even, store, cells);
    pass_one(emitter, m, b, e, e, most, store, cells)
}
