// Cells placed on the line by the walk of crate `walk`, row after row: number r of the walk goes to the subcarrier of rank r.
#![tactic(auto)]

ghost use Rattle.std.specs.Prelude.{◌≡◌, List, ℕ, ◌+◌, ◌^◌, ◌≤◌, ◌<◌, length, get_or};
ghost use Rattle.rules.specs.Fits.{capacity, row_bits_max};
ghost use Rattle.rules.specs.Frame.{reversed};
ghost use Rattle.frame.specs.Rows.{rows_before};
ghost use Rattle.rows.specs.Loops.{placed_up_to};

use counting::wide;
use fourcells::place_four;
use rows::{power, table};

// The cells of the i-th row read, which begins with cell `row` and rank `first`, go to the subcarriers of their ranks; the rank after them.
fn place_row(
    bits: usize,
    car: &[u16],
    cells: &[u16],
    i: usize,
    row: usize,
    first: usize,
    out: &mut [u16],
) -> usize
    requires { (bits ≤ row_bits_max) × (length cells.now ≤ capacity) × (length cells.now ≤ length car.now) × ((r : ℕ) → r < length cells.now → get_or car.now r 0 < length out.old) × (i < 2 ^ bits) × (row ≡ reversed bits i) × (first ≡ rows_before bits (length cells.now) i) }
    ensures rank { result ≡ rows_before bits (length cells.now) (i + 1) }
    ensures stored { (l : List ℕ) → out.old ≡ placed_up_to bits car.now cells.now first l → out.new ≡ placed_up_to bits car.now cells.now result l }
{
    let rows = power(bits);
    // A row has so many cells; the shift divides by the number of rows.
    let count = (cells.len() + rows - 1 - row) >> bits;
    let mut rank = first;
    let mut p = row;
    for _ in 0..count / 4 {
        place_four(car, rank, cells, p, rows, out);
        rank += 4;
        p += 4 * rows;
    }
    for _ in 0..count % 4 {
        let k = wide(car[rank]);
        out[k] = cells[p];
        rank += 1;
        p += rows;
    }
    rank
}

// The cells go to the subcarriers of their ranks, in the order of the walk.
pub fn place_rows(bits: usize, car: &[u16], cells: &[u16], out: &mut [u16])
    requires { (bits ≤ row_bits_max) × (length cells.now ≤ capacity) × (length cells.now ≤ length car.now) × ((r : ℕ) → r < length cells.now → get_or car.now r 0 < length out.old) }
    ensures { out.new ≡ placed_up_to bits car.now cells.now (length cells.now) out.old }
{
    let order = table::ROWS;
    let rows = power(bits);
    let step = power(table::BITS - bits);
    let mut rank: usize = 0;
    for i in 0..rows {
        let row = table::octet(order[i * step]);
        rank = place_row(bits, car, cells, i, row, rank, out);
    }
}
