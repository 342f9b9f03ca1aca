// Delay lines rotated once a symbol is through (document 02, request 09): in each line the J cells that came in stand first, where the
// commutator left them, and go to the end, so that the oldest stands first again. A line is rotated by moves of memory.
#![tactic(auto)]

ghost use Rattle.std.specs.Prelude.{◌+◌, ◌≤◌, ◌<◌, length, get_or};
ghost use Rattle.rules.specs.Fits.{capacity};
ghost use Rattle.figure.specs.Figure.{line_begins};
ghost use Rattle.rotatedlines.specs.Rotated.{Replaced, LineRotated, LinesRotated};

// The n cells of `from` that begin at place a go to the n places of `to` that begin at place b.
fn copy_cells(from: &[u16], a: usize, to: &mut [u16], b: usize, n: usize)
    requires { (a + n ≤ length from.now) × (b + n ≤ length to.old) }
    ensures { Replaced b n (λ i. get_or from.now (a + i) 0) to.old to.new }
{
    to[b..b + n].copy_from_slice(&from[a..a + n]);
}

// The n places from `at` on take the cells that stand j places further on.
fn shift_down(at: usize, n: usize, j: usize, store: &mut [u16])
    requires { at + n + j ≤ length store.old }
    ensures { Replaced at n (λ i. get_or store.old (at + j + i) 0) store.old store.new }
{
    let from = at + j;
    store.copy_within(from..from + n, at);
}

// The line of len cells from `at` on is rotated by j places: the j newest cells, which stand first, go to the end. `front` is
// lent to hold them meanwhile.
fn rotate_line(at: usize, len: usize, j: usize, front: &mut [u16], store: &mut [u16])
    requires { (j ≤ len) × (at + len ≤ length store.old) × (j ≤ length front.old) }
    ensures { LineRotated at len j store.old store.new }
{
    let n = len - j;
    copy_cells(store, at, front, 0, j);
    shift_down(at, n, j, store);
    copy_cells(front, 0, store, at + n, j);
}

// Each of the m lines is rotated, from line 2 on: line 0 has no cells, and line 1 has only the newest.
pub fn rotate_lines(m: usize, j: usize, store: &mut [u16])
    requires { (0 < m) × (m ≤ capacity) × (j ≤ capacity) × (line_begins j m ≤ length store.old) }
    ensures { LinesRotated j m store.old store.new }
{
    let mut front = [0u16; 4096];
    let mut begin = j;
    let mut len = j + j;
    for _ in 2..m {
        rotate_line(begin, len, j, &mut front, store);
        begin += len;
        len += j;
    }
}
