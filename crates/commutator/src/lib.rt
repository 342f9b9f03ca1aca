// The second emitter's time interleaver, the figure of document 003 taken literally (document 02, request 09; crate figure has the
// definitions): M delay lines side by side in one store, line r holding r * J cells, the oldest first, and a commutator that goes round
// them. For each place of the commutator one cell goes in and one comes out. The definition shifts a line at every cell. The code does
// not: within a symbol a line is a ring in its own part of the store, where in turn q the oldest cell stands at place q and the cell
// that goes in takes its place; after the symbol the line is rotated by J places, so that the oldest stands first (crate rotatedlines).
// The code is proved equal to the definition, and its time is linear in the store and the symbol.
#![tactic(auto)]

ghost use Rattle.std.specs.Prelude.{◌≡◌, ◌+◌, ◌*◌, ◌≤◌, ◌<◌, length, get_or, set};
ghost use Rattle.rules.specs.Fits.{capacity};
ghost use Rattle.figure.specs.Figure.{ceiling, line_begins, cell_in, figure_store, figure_cells};
ghost use Rattle.commutator.specs.Round.{with_sent, Goes};

// The mark of filler.
const FILLER: u16 = 0x8001;

// Cell p goes in: after the symbol's cells come filler dummies.
fn cell_in(cells: &[u16], p: usize) -> u16
    ensures { result ≡ cell_in (length cells.now) cells.now p }
{
    if p < cells.len() { cells[p] } else { FILLER }
}

// The cell v comes out in the place of cell p. What comes out for a dummy is thrown away.
fn cell_out(cells: &mut [u16], p: usize, v: u16)
    ensures { cells.new ≡ with_sent cells.old p v }
{
    let n = cells.len();
    if p < n {
        cells[p] = v;
    }
}

// One place of the commutator: cell p goes in, and the oldest cell of the line, at place `at` of the store, comes out.
fn exchange(at: usize, p: usize, store: &mut [u16], cells: &mut [u16])
    requires { at < length store.old }
    ensures stored { store.new ≡ set store.old at (cell_in (length cells.old) cells.old p) }
    ensures sent { cells.new ≡ with_sent cells.old p (get_or store.old at 0) }
{
    let oldest = store[at];
    let newest = cell_in(cells, p);
    store[at] = newest;
    cell_out(cells, p, oldest);
}

// Turn q of the commutator, over m lines. Line 0 holds nothing, and its cell goes straight through.
fn turn(m: usize, j: usize, q: usize, store: &mut [u16], cells: &mut [u16])
    requires { (0 < m) × (m ≤ capacity) × (j ≤ capacity) × (q < j) × (line_begins j m ≤ length store.old) }
    ensures { Goes j m (q * m) store.old cells.old ((q + 1) * m) store.new cells.new }
{
    let first = q * m;
    let mut at = q;
    let mut len = j;
    for r in 1..m {
        exchange(at, first + r, store, cells);
        at += len;
        len += j;
    }
}

// A symbol goes through the lines, in j turns of the commutator: its cells go in, and the delayed cells come out in their place. Then
// the lines are rotated.
pub fn pass(m: usize, store: &mut [u16], cells: &mut [u16])
    requires { (0 < m) × (m ≤ capacity) × (length cells.old ≤ capacity) × (line_begins (ceiling (length cells.old) m) m ≤ length store.old) }
    ensures stored { store.new ≡ figure_store m (length cells.old) store.old cells.old }
    ensures sent { cells.new ≡ figure_cells m (length cells.old) store.old cells.old }
{
    let j = figure::ceiling(cells.len(), m);
    for q in 0..j {
        turn(m, j, q, store, cells);
    }
    rotatedlines::rotate_lines(m, j, store);
}
