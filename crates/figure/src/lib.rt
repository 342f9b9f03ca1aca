// The time interleaver as document 003 draws it, taken literally (document 02, request 09). specs/Figure has the delay lines and the commutator,
// specs/Steps what the second emitter's entries answer and leave. The functions here are J, the length of the literal store, and the places that
// the store of either emitter needs (specs/Needs).
#![tactic(auto)]

ghost use Rattle.std.specs.Prelude.{◌≡◌, ◌≤◌, ◌<◌};
ghost use Rattle.counting.specs.Search.{pick};
ghost use Rattle.rules.specs.Fits.{capacity};
ghost use Rattle.rules.specs.Places.{emitter_delay, places_before};
ghost use Rattle.figure.specs.Figure as figure;

// n / m, rounded up: of n cells and m lines, J.
pub fn ceiling(n: usize, m: usize) -> usize
    requires { (0 < m) × (m ≤ capacity) × (n ≤ capacity) }
    ensures { (result ≡ figure.ceiling n m) × (result ≤ capacity) }
{
    (n + (m - 1)) / m
}

// The length of the literal store of n cells, at depth m: the lengths of the lines, 0 to m - 1 times J.
pub fn literal_places(m: usize, n: usize) -> usize
    requires { (0 < m) × (m ≤ capacity) × (n ≤ capacity) }
    ensures { result ≡ figure.line_begins (figure.ceiling n m) m }
{
    ceiling(n, m) * places::triangle(m)
}

// The places that an emitter's store needs by ground 17: a literal store none.
pub fn places_17(literal: bool, m: usize, n: usize) -> usize
    requires { (0 < m) × (m ≤ capacity) × (n ≤ capacity) }
    ensures { result ≡ pick literal 0 (places_before (emitter_delay m) n) }
{
    if literal {
        0
    } else {
        places::emitter_places(m, n)
    }
}

// The places that an emitter's store needs by ground 27: only a literal store does.
pub fn places_27(literal: bool, m: usize, n: usize) -> usize
    requires { (0 < m) × (m ≤ capacity) × (n ≤ capacity) }
    ensures { result ≡ pick literal (figure.line_begins (figure.ceiling n m) m) 0 }
{
    if literal { literal_places(m, n) } else { 0 }
}
