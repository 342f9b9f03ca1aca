// The bits of four cells as one number, for the way back (crate bitunfill), which writes them at once.
#![tactic(auto)]

ghost use Rattle.std.specs.Prelude.{◌≡◌, ℕ, ◌+◌, ◌*◌, ◌%◌, ◌^◌, ◌≤◌, ◌<◌, length, get_or, take, drop};
ghost use Rattle.rules.specs.Bits.{value, total, cell_bits};

use bits::number;

// What the loads of two cells add up to.
fn two_loads(loads: &[u16], c: usize) -> u32
    requires { (c + 2 ≤ length loads.now) × ((i : ℕ) → i < length loads.now → get_or loads.now i 0 ≤ 14) }
    ensures { (result ≡ total (take 2 (drop c loads.now))) × (result ≤ 28) }
{
    number(loads[c]) + number(loads[c + 1])
}

// What the loads of four cells add up to.
pub fn four_loads(loads: &[u16], c: usize) -> u32
    requires { (c + 4 ≤ length loads.now) × ((i : ℕ) → i < length loads.now → get_or loads.now i 0 ≤ 14) }
    ensures { (result ≡ total (take 4 (drop c loads.now))) × (result ≤ 56) }
{
    two_loads(loads, c) + two_loads(loads, c + 2)
}

// The l lowest bits of x.
fn lowest(x: u16, l: u16) -> u32
    requires { l ≤ 14 }
    ensures { (result ≡ x % 2 ^ l) × (result < 16384) }
{
    number(x) % (1 << number(l))
}

// The bits of two cells as a number, the first the lowest.
fn two_cells(loads: &[u16], cells: &[u16], c: usize) -> u64
    requires { (length loads.now ≡ length cells.now) × (c + 2 ≤ length loads.now) × ((i : ℕ) → i < length loads.now → get_or loads.now i 0 ≤ 14) }
    ensures { (result ≡ value (cell_bits (take 2 (drop c loads.now)) (take 2 (drop c cells.now)))) × (result < 2 ^ 28) }
{
    let x = lowest(cells[c], loads[c]);
    let y = lowest(cells[c + 1], loads[c + 1]);
    ((y << number(loads[c])) + x) as u64
}

// The bits of four cells as a number, the first the lowest, above the `bit` bits that are held.
pub fn four_cells(loads: &[u16], cells: &[u16], c: usize, bit: u32, held: u64) -> u64
    requires { (length loads.now ≡ length cells.now) × (c + 4 ≤ length loads.now) × ((i : ℕ) → i < length loads.now → get_or loads.now i 0 ≤ 14) × (bit < 8) × (held < 256) }
    ensures { result ≡ value (cell_bits (take 4 (drop c loads.now)) (take 4 (drop c cells.now))) * 2 ^ bit + held }
{
    let x = two_cells(loads, cells, c);
    let y = two_cells(loads, cells, c + 2);
    (((y << two_loads(loads, c)) + x) << bit) + held
}
