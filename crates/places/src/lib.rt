// How many places a store has: p mod m for an emitter's cell p, m - 1 - (p mod m) for a receiver's (document 02, request 03).
#![tactic(auto)]

ghost use Rattle.std.specs.Prelude.{◌≡◌, ◌≤◌, ◌<◌};
ghost use Rattle.counting.specs.Search.{sum};
ghost use Rattle.rules.specs.Fits.{capacity};
ghost use Rattle.rules.specs.Places.{emitter_delay, receiver_delay, places_before};

// 0 + 1 + .. + (n - 1).
pub fn triangle(n: usize) -> usize
    requires { n ≤ capacity }
    ensures { result ≡ sum (λ i. i) n }
{
    (n * n - n) / 2
}

// The length of an emitter's store of n cells, at depth m.
pub fn emitter_places(m: usize, n: usize) -> usize
    requires { (0 < m) × (m ≤ capacity) × (n ≤ capacity) }
    ensures { result ≡ places_before (emitter_delay m) n }
{
    let whole = n / m;
    let rest = n % m;
    whole * triangle(m) + triangle(rest)
}

// The length of a receiver's store of n cells, at depth m.
pub fn receiver_places(m: usize, n: usize) -> usize
    requires { (0 < m) × (m ≤ capacity) × (n ≤ capacity) }
    ensures { result ≡ places_before (receiver_delay m) n }
{
    let sent = emitter_places(m, n);
    n * (m - 1) - sent
}
