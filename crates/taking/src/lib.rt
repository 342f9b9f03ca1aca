// The data of an input symbol taken out of it again: the cells whose flag is 0, in rising order. It is taken by blocks of sixteen cells: a
// block without a placeholder is copied whole, any other is taken cell by cell.
#![tactic(auto)]

ghost use Rattle.std.specs.Prelude.{◌≡◌, List, ℕ, ◌+◌, ◌≤◌, length, take};
ghost use Rattle.std.proofs.lemmas.List.Edits.{sets};
ghost use Rattle.counting.specs.Search.{count, is_zero};
ghost use Rattle.fill.specs.Flags.{taken_data};

use fill::{all_data, copy_block};

// The data cells among the k cells from cell p on, cell by cell. Those below cell p fill the first d places of the buffer; answers how many
// those below cell p + k fill.
fn take_cells(cells: &[u16], flag: &[u8], p: usize, k: usize, buffer: &mut [u16], d: usize) -> usize
    requires { (p + k ≤ length cells.now) × (p + k ≤ length flag.now) × (d ≡ count (is_zero flag.now) p) × (count (is_zero flag.now) (p + k) ≤ length buffer.old) }
    ensures number { result ≡ count (is_zero flag.now) (p + k) }
    ensures stored { (b : List ℕ) → buffer.old ≡ sets b 0 (take d (taken_data flag.now cells.now)) → buffer.new ≡ sets b 0 (take result (taken_data flag.now cells.now)) }
{
    let mut taken = d;
    for i in 0..k {
        if flag[p + i] == 0 {
            buffer[taken] = cells[p + i];
            taken += 1;
        }
    }
    taken
}

// The data cells of an input symbol go to the start of the buffer, in rising order.
pub fn take_data(cells: &[u16], flag: &[u8], buffer: &mut [u16])
    requires { (length cells.now ≤ 4096) × (length cells.now ≤ length flag.now) × (count (is_zero flag.now) (length cells.now) ≤ length buffer.old) }
    ensures { buffer.new ≡ sets buffer.old 0 (taken_data flag.now cells.now) }
{
    let n = cells.len();
    let blocks = n / 16;
    let mut taken: usize = 0;
    for b in 0..blocks {
        let p = 16 * b;
        if all_data(flag, p) {
            copy_block(cells, p, buffer, taken);
            taken += 16;
        } else {
            taken = take_cells(cells, flag, p, 16, buffer, taken);
        }
    }
    take_cells(cells, flag, 16 * blocks, n - 16 * blocks, buffer, taken);
}
