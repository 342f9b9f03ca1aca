// Cells as two bytes, high byte first: bytes of whole cells told from others, and cells read; crate bytewrite writes them. specs/ByteSteps says
// what an entry over such cells answers and leaves.
#![tactic(auto)]

ghost use Rattle.std.specs.Prelude.{◌≡◌, false, ◌+◌, ◌*◌, ◌≤◌, ◌<◌, length, get_or, take};
ghost use Rattle.counting.specs.Search.{tabulate};
ghost use Rattle.counting.specs.Bytes.{Octets};
ghost use Rattle.bytecells.specs.Octets.{cells_of, odd, Whole};
ghost use Rattle.bytecells.specs.Swapped.{low_first, swapped};

use counting::octets;

// The cell of two bytes.
pub fn join(high: u8, low: u8) -> u16
    ensures { result ≡ high * 256 + low }
{
    (high as u16) * 256 + (low as u16)
}

// Whether the bytes have odd length (ground 21); else they are those of whole cells.
pub fn halved(b: &[u8]) -> bool
    ensures { (result ≡ odd b.now) × (result ≡ false → Whole b.now) }
{
    octets(b);
    b.len() % 2 == 1
}

// Reads each two bytes as a number, low byte first: as the machine has them, so that the compiler copies.
fn read_pairs(b: &[u8], cells: &mut [u16])
    requires { length b.now ≡ 2 * length cells.old }
    ensures { cells.new ≡ tabulate (low_first b.now) (length cells.old) }
{
    for (i, cell) in cells.iter_mut().enumerate() {
        *cell = join(b[2 * i + 1], b[2 * i]);
    }
}

// A cell with its bytes swapped.
fn swap(x: u16) -> u16
    ensures { result ≡ swapped x }
{
    (x % 256) * 256 + x / 256
}

// Swaps the bytes of each cell.
fn swap_cells(cells: &mut [u16])
    ensures { cells.new ≡ tabulate (λ i. swapped (get_or cells.old i 0)) (length cells.old) }
{
    for cell in cells.iter_mut() {
        *cell = swap(*cell);
    }
}

// Reads each cell of the bytes, in two passes that go over many cells at once: one pass would take the bytes one by one.
pub fn read_cells(b: &[u8], cells: &mut [u16])
    requires { length b.now ≡ 2 * length cells.old }
    ensures { cells.new ≡ cells_of b.now }
{
    octets(b);
    read_pairs(b, cells);
    swap_cells(cells);
}

// Reads the cells of the bytes into the first places, if there are places enough for all of them; and how many cells there are.
pub fn read_first(b: &[u8], cells: &mut [u16]) -> usize
    requires { Whole b.now }
    ensures number { result ≡ length (cells_of b.now) }
    ensures read { result ≤ length cells.old → take result cells.new ≡ cells_of b.now }
{
    let n = b.len() / 2;
    if n <= cells.len() {
        read_cells(b, &mut cells[..n]);
    }
    n
}
