// Cells written as two bytes, high byte first: a list of them from a cell on, or one into the first cells.
#![tactic(auto)]

ghost use Rattle.std.specs.Prelude.{◌≡◌, ◌+◌, ◌*◌, ◌/◌, ◌%◌, ◌≤◌, length, replicate};
ghost use Rattle.std.proofs.lemmas.List.Edits.{sets};
ghost use Rattle.bytecells.specs.Octets.{bytes_of};

// The high byte of a cell.
pub fn high_byte(x: u16) -> u8
    ensures { result ≡ x / 256 }
{
    (x / 256) as u8
}

// The low byte of a cell.
pub fn low_byte(x: u16) -> u8
    ensures { result ≡ x % 256 }
{
    (x % 256) as u8
}

// Writes the cells x as bytes, from cell `at` on.
pub fn write_cells(b: &mut [u8], at: usize, x: &[u16])
    requires { 2 * (at + length x.now) ≤ length b.old }
    ensures { b.new ≡ sets b.old (2 * at) (bytes_of x.now) }
{
    for (i, cell) in x.iter().enumerate() {
        b[2 * (at + i)] = high_byte(*cell);
        b[2 * (at + i) + 1] = low_byte(*cell);
    }
}

// Writes the cell x as bytes into the first n cells.
pub fn write_same(b: &mut [u8], n: usize, x: u16)
    requires { 2 * n ≤ length b.old }
    ensures { b.new ≡ sets b.old 0 (bytes_of (replicate n x)) }
{
    for i in 0..n {
        b[2 * i] = high_byte(x);
        b[2 * i + 1] = low_byte(x);
    }
}
