// The walk of crate `walk` as code: rows of cells in the order of reversed bits, any number of rows up to 256, each cell of a row after the
// one before it, so that no rank is computed and nothing is divided for a cell. Here the subcarriers by cell (`kc`) come from those by rank
// (`car`); crate `placing` goes the same way, with the same table and the same laws.
#![tactic(auto)]

ghost use Rattle.std.specs.Prelude.{◌≡◌, List, ℕ, ◌+◌, ◌^◌, ◌≤◌, ◌<◌, length, get_or};
ghost use Rattle.rules.specs.Fits.{capacity, row_bits_max};
ghost use Rattle.rules.specs.Frame.{reversed};
ghost use Rattle.frame.specs.Rows.{rows_before};
ghost use Rattle.rows.specs.Loops.{carried_up_to};

pub mod table;

use fourcells::carry_four;

// 2 to the number of bits: so many rows have that many bits.
pub fn power(bits: usize) -> usize
    requires { bits ≤ row_bits_max }
    ensures { result ≡ 2 ^ bits }
{
    1 << bits
}

// The cells of the i-th row read, which begins with cell `row` and rank `first`, are given the subcarriers of their ranks; the rank after
// them.
fn carry_row(bits: usize, car: &[u16], i: usize, row: usize, first: usize, kc: &mut [u16]) -> usize
    requires { (bits ≤ row_bits_max) × (length kc.old ≤ capacity) × (length kc.old ≤ length car.now) × (i < 2 ^ bits) × (row ≡ reversed bits i) × (first ≡ rows_before bits (length kc.old) i) }
    ensures rank { result ≡ rows_before bits (length kc.old) (i + 1) }
    ensures stored { (l : List ℕ) → kc.old ≡ carried_up_to bits (length kc.old) car.now first l → kc.new ≡ carried_up_to bits (length kc.old) car.now result l }
{
    let rows = power(bits);
    // A row has so many cells; the shift divides by the number of rows.
    let count = (kc.len() + rows - 1 - row) >> bits;
    let mut rank = first;
    let mut cell = row;
    for _ in 0..count / 4 {
        carry_four(car, rank, cell, rows, kc);
        rank += 4;
        cell += 4 * rows;
    }
    for _ in 0..count % 4 {
        kc[cell] = car[rank];
        rank += 1;
        cell += rows;
    }
    rank
}

// The subcarrier of each cell, from the subcarriers by rank, in the order of the walk.
pub fn cell_carriers(bits: usize, car: &[u16], kc: &mut [u16])
    requires { (bits ≤ row_bits_max) × (length kc.old ≤ capacity) × (length kc.old ≤ length car.now) }
    ensures { kc.new ≡ carried_up_to bits (length kc.old) car.now (length kc.old) kc.old }
{
    let order = table::ROWS;
    let rows = power(bits);
    let step = power(table::BITS - bits);
    let mut rank: usize = 0;
    for i in 0..rows {
        let row = table::octet(order[i * step]);
        rank = carry_row(bits, car, i, row, rank, kc);
    }
}
