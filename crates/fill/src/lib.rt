// Input symbols from flags: data or filler in the cells whose flag is 0, placeholders in the others. Data goes in by blocks of sixteen cells:
// a block without a placeholder is copied whole, any other is filled cell by cell.
#![tactic(auto)]

ghost use Rattle.std.specs.Prelude.{◌≡◌, ◌+◌, ◌≤◌, length, get_or};
ghost use Rattle.std.proofs.lemmas.List.Edits.{sets};
ghost use Rattle.counting.specs.Search.{count, tabulate, is_zero};
ghost use Rattle.fill.specs.Flags.{all_data, data_cell, filler_cell};

// The mark of a scattered placeholder.
const PLACEHOLDER: u16 = 0x8000;

// The mark of filler.
const FILLER: u16 = 0x8001;

// Whether the sixteen cells from cell p on are all data cells.
pub fn all_data(flag: &[u8], p: usize) -> bool
    requires { p + 16 ≤ length flag.now }
    ensures { result ≡ all_data flag.now p 16 }
{
    let mut held: u8 = 0;
    for f in &flag[p..p + 16] {
        held |= *f;
    }
    held == 0
}

// The eight numbers of x from place a on go to y from place b on. All are read before any is stored, so that they are moved as one;
// `copy_from_slice` would first ask whether x and y overlap.
fn copy_eight(x: &[u16], a: usize, y: &mut [u16], b: usize)
    requires { (a + 8 ≤ length x.now) × (b + 8 ≤ length y.old) }
    ensures { y.new ≡ sets y.old b (tabulate (λ i. get_or x.now (a + i) 0) 8) }
{
    let mut eight = [0u16; 8];
    for i in 0..8 {
        eight[i] = x[a + i];
    }
    for j in 0..8 {
        y[b + j] = eight[j];
    }
}

// The sixteen numbers of x from place a on go to y from place b on.
pub fn copy_block(x: &[u16], a: usize, y: &mut [u16], b: usize)
    requires { (a + 16 ≤ length x.now) × (b + 16 ≤ length y.old) }
    ensures { y.new ≡ sets y.old b (tabulate (λ i. get_or x.now (a + i) 0) 16) }
{
    copy_eight(x, a, y, b);
    copy_eight(x, a + 8, y, b + 8);
}

// The k cells from cell p on, cell by cell. The data cells below cell p have used d of the data; answers how many those below cell p + k have.
fn fill_cells(cells: &mut [u16], flag: &[u8], ds: &[u16], p: usize, k: usize, d: usize) -> usize
    requires { (p + k ≤ length cells.old) × (p + k ≤ length flag.now) × (d ≡ count (is_zero flag.now) p) × (count (is_zero flag.now) (p + k) ≤ length ds.now) }
    ensures used { result ≡ count (is_zero flag.now) (p + k) }
    ensures filled { cells.new ≡ sets cells.old p (tabulate (λ i. data_cell flag.now ds.now (p + i)) k) }
{
    let mut used = d;
    for i in 0..k {
        if flag[p + i] != 0 {
            cells[p + i] = PLACEHOLDER;
        } else {
            cells[p + i] = ds[used];
            used += 1;
        }
    }
    used
}

// The input symbol of the data ds.
pub fn fill_data(cells: &mut [u16], flag: &[u8], ds: &[u16])
    requires { (length cells.old ≤ 4096) × (length cells.old ≤ length flag.now) × (count (is_zero flag.now) (length cells.old) ≤ length ds.now) }
    ensures { cells.new ≡ tabulate (data_cell flag.now ds.now) (length cells.old) }
{
    let n = cells.len();
    let blocks = n / 16;
    let mut d: usize = 0;
    for b in 0..blocks {
        let p = 16 * b;
        if all_data(flag, p) {
            copy_block(ds, d, cells, p);
            d += 16;
        } else {
            d = fill_cells(cells, flag, ds, p, 16, d);
        }
    }
    fill_cells(cells, flag, ds, 16 * blocks, n - 16 * blocks, d);
}

// The input symbol of a flush.
pub fn fill_filler(cells: &mut [u16], flag: &[u8])
    requires { length cells.old ≤ length flag.now }
    ensures { cells.new ≡ tabulate (filler_cell flag.now) (length cells.old) }
{
    for (p, cell) in cells.iter_mut().enumerate() {
        *cell = if flag[p] != 0 { PLACEHOLDER } else { FILLER };
    }
}
