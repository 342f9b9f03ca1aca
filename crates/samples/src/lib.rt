// The data that the programs send, worked out by rule: `draw` is the generator of the executed cases, module `inputs` the data of
// linkcheck's input symbols. Beside them the cell at a place, and M of a plan.
#![tactic(auto)]

ghost use Rattle.std.specs.Prelude.{◌≡◌, min, length, get_or, set};
ghost use Rattle.samples.specs.Drawn.{nth, drawn_at, filled};
ghost use Rattle.samples.specs.Drawn.{next as following};

pub mod inputs;

// The cell at a place, 0 past the end.
pub fn at(cells: &[u16], place: usize) -> u16
    ensures { result ≡ get_or cells.now place 0 }
{
    if place < cells.len() {
        return cells[place];
    }
    0
}

// Puts x into a cell, if there is such a cell, and gives what stood there, 0 past the end.
pub fn swap(cells: &mut [u16], place: usize, x: u16) -> u16
    ensures value { result ≡ get_or cells.old place 0 }
    ensures cells_after { cells.new ≡ set cells.old place x }
{
    if place < cells.len() {
        let old = cells[place];
        cells[place] = x;
        return old;
    }
    0
}

// The generator's next number.
fn drawn(x: u32) -> u32
    ensures { result ≡ following x }
{
    (((x as u64) * 48271) % 2147483647) as u32
}

// Fills the first n cells with data, all where there are fewer, and gives the generator's last number.
pub fn draw(x: u32, n: usize, cells: &mut [u16]) -> u32
    ensures value { result ≡ nth x (min n (length cells.old)) }
    ensures cells_after { cells.new ≡ filled (drawn_at x) (min n (length cells.old)) cells.old }
{
    let mut last = x;
    for i in 0..n.min(cells.len()) {
        last = drawn(last);
        cells[i] = (last % 16384) as u16;
    }
    last
}

// M of a plan, its byte 7; 0 where there is none.
pub fn depth_of(plan: &[u8]) -> u32
    ensures { result ≡ get_or plan.now 7 0 }
{
    if plan.len() < 8 {
        return 0;
    }
    u32::from(plan[7])
}
