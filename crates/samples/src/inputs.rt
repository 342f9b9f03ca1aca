// The data of linkcheck's input symbols, which can be worked out again when it comes out of the receiver (docs/LINKCHECK.md). A cell has a
// limit, that of its load; `limits` are those of the data cells in their order.
ghost use Rattle.std.specs.Prelude.{◌≡◌, ◌+◌, ◌%◌, min, eqb, length, get_or};
ghost use Rattle.samples.specs.Drawn.{filled};
ghost use Rattle.samples.specs.Inputs.{is_flush, seed_of, data_cell, wanted_at, is_other, is_placeholder, is_data, first_of};

use crate::at;

// The mark of filler.
const FILLER: u16 = 0x8001;

// The mark of a scattered placeholder.
const PLACEHOLDER: u16 = 0x8000;

// What stands in the data buffer before a step; it is neither data nor a mark.
const UNTOUCHED: u16 = 43981;

// Which input symbols are flushes.
pub fn is_flush(t: u32) -> bool
    ensures { result ≡ is_flush t }
{
    t % 3 == 2
}

// The number from which the data of input t is made, in the run that starts at a phase.
pub fn seed(start: u32, t: u32) -> u32
    ensures { result ≡ seed_of start t }
{
    (((start as u64) * 131 + t as u64) * 4099 % 2147483647) as u32
}

// A number brought within a limit.
fn within(limit: u16, x: u32) -> u16
    ensures { result ≡ x % (limit + 1) }
{
    (x % (limit as u32 + 1)) as u16
}

// The data cell at a position, up to its limit; a position past the last limit has the limit 0.
fn cell(seed: u32, limits: &[u16], place: usize) -> u16
    ensures { result ≡ data_cell seed limits.now place }
{
    let x = ((seed as u64 + (place % 65536) as u64) * 48271 % 2147483647) as u32;
    within(at(limits, place), x)
}

// Fills the first n cells with the data of a seed, all where there are fewer.
pub fn draw(seed: u32, n: usize, limits: &[u16], cells: &mut [u16])
    ensures { cells.new ≡ filled (data_cell seed limits.now) (min n (length cells.old)) cells.old }
{
    for i in 0..n.min(cells.len()) {
        cells[i] = cell(seed, limits, i);
    }
}

// What stands at a position when the first `count` cells of input t have come out: data, filler for a flush, else nothing new.
pub fn wanted(start: u32, t: u32, count: usize, limits: &[u16], place: usize) -> u16
    ensures { result ≡ wanted_at start t count limits.now place }
{
    if count <= place {
        return UNTOUCHED;
    }
    if is_flush(t) {
        return FILLER;
    }
    cell(seed(start, t), limits, place)
}

// The first position at which something else stands; the length where there is none.
pub fn first_other(start: u32, t: u32, count: usize, limits: &[u16], cells: &[u16]) -> usize
    ensures { result ≡ first_of (is_other start t count limits.now cells.now) (length cells.now) }
{
    for (i, x) in cells.iter().enumerate() {
        if *x != wanted(start, t, count, limits, i) {
            return i;
        }
    }
    cells.len()
}

// The lowest place at which a scattered placeholder stands; the length where there is none.
pub fn first_placeholder(symbol: &[u16]) -> usize
    ensures { result ≡ first_of (λ k. is_placeholder (get_or symbol.now k 0)) (length symbol.now) }
{
    symbol
        .iter()
        .position(|cell| *cell == PLACEHOLDER)
        .unwrap_or(symbol.len())
}

// Whether a cell is data, of whatever load, or filler.
fn is_data(cell: u16) -> bool
    ensures { result ≡ is_data cell }
{
    cell == FILLER || cell < 16384
}

// The lowest place at which data or filler stands; the length where there is none.
pub fn first_data(symbol: &[u16]) -> usize
    ensures { result ≡ first_of (λ k. is_data (get_or symbol.now k 0)) (length symbol.now) }
{
    symbol
        .iter()
        .position(|cell| is_data(*cell))
        .unwrap_or(symbol.len())
}
