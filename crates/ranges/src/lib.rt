// Ranges noted in a table and swept into runs, in one pass whatever the ranges' number and overlaps.
// `reach[first]` is one past the farthest end of the ranges that begin at `first`, 0 if none does; `hot` flags blocks of 16.
// Numbers lie below `size`, at most 4,096.
#![tactic(auto)]

ghost use Rattle.std.specs.Prelude.{◌≡◌, true, length, ◌+◌, ◌*◌, ◌%◌, ◌≤◌, ◌<◌};
ghost use Rattle.counting.specs.Runs.{Runs};
ghost use Rattle.ranges.specs.Reach.{hit, Table, Flags, NotedIf};
ghost use Rattle.ranges.specs.Swept.{Sweep, Closed};

use counting::wide;

// The range low to end - 1 noted, if `on`.
pub fn note_if(
    on: bool,
    low: usize,
    end: usize,
    size: usize,
    reach: &mut [u16; 4096],
    hot: &mut [u8; 256],
)
    requires { Table reach.old size × Flags reach.old hot.old × (size ≤ 4096) × (on ≡ true → (low < end) × (end ≤ size)) }
    ensures { NotedIf on size low end reach.old reach.new hot.new }
{
    if !on {
        return;
    }
    let old = wide(reach[low]);
    hot[low / 16] = 1;
    if end <= old {
        return;
    }
    reach[low] = end as u16;
}

// How many runs are written, and the one that may still grow: s to e - 1.
#[derive(Clone, Copy)]
struct Open {
    n: usize,
    s: usize,
    e: usize,
}

// The run that may still grow is written.
fn close(
    reach: &[u16; 4096],
    size: usize,
    k: usize,
    lo: &mut [u16; 2048],
    hi: &mut [u16; 2048],
    n: usize,
    s: usize,
    e: usize,
) -> usize
    requires { Table reach.now size × Sweep reach.now size lo.old hi.old n s e k × (length lo.old ≡ 2048) × (length hi.old ≡ 2048) × (size ≤ 4096) }
    ensures { Closed reach.now size lo.new hi.new result e × (length lo.new ≡ 2048) × (length hi.new ≡ 2048) }
{
    if s < e {
        lo[n] = s as u16;
        hi[n] = e as u16;
        return n + 1;
    }
    n
}

// One first number passed.
fn step(
    reach: &[u16; 4096],
    size: usize,
    k: usize,
    lo: &mut [u16; 2048],
    hi: &mut [u16; 2048],
    o: Open,
) -> Open
    requires { Table reach.now size × Sweep reach.now size lo.old hi.old o.n o.s o.e k × (length lo.old ≡ 2048) × (length hi.old ≡ 2048) × (size ≤ 4096) × (k < size) }
    ensures { Sweep reach.now size lo.new hi.new result.n result.s result.e (k + 1) × (length lo.new ≡ 2048) × (length hi.new ≡ 2048) }
{
    let q = wide(reach[k]);
    if q == 0 {
        return o;
    }
    let n = o.n;
    let s = o.s;
    let e = o.e;
    if e < k {
        let m = close(reach, size, k, lo, hi, n, s, e);
        return Open { n: m, s: k, e: q };
    }
    if e < q {
        return Open { n: n, s: s, e: q };
    }
    o
}

// A block of 16 first numbers passed.
fn block(
    reach: &[u16; 4096],
    size: usize,
    from: usize,
    lo: &mut [u16; 2048],
    hi: &mut [u16; 2048],
    o: Open,
) -> Open
    requires { Table reach.now size × Sweep reach.now size lo.old hi.old o.n o.s o.e from × (length lo.old ≡ 2048) × (length hi.old ≡ 2048) × (size ≤ 4096) × (from + 16 ≤ size) }
    ensures { Sweep reach.now size lo.new hi.new result.n result.s result.e (from + 16) × (length lo.new ≡ 2048) × (length hi.new ≡ 2048) }
{
    let mut p = o;
    for k in from..from + 16 {
        p = step(reach, size, k, lo, hi, p);
    }
    p
}

// The runs of what the noted ranges cover: run i is lo[i] to hi[i] - 1. The answer is how many there are.
pub fn runs(
    reach: &[u16; 4096],
    hot: &[u8; 256],
    size: usize,
    lo: &mut [u16; 2048],
    hi: &mut [u16; 2048],
) -> usize
    requires { Table reach.now size × Flags reach.now hot.now × (length lo.old ≡ 2048) × (length hi.old ≡ 2048) × (size ≤ 4096) × (size % 16 ≡ 0) }
    ensures { Runs (hit reach.now) size lo.new hi.new result × (result ≤ 2048) × (length lo.new ≡ 2048) × (length hi.new ≡ 2048) }
{
    let mut o = Open { n: 0, s: 0, e: 0 };
    for b in 0..size / 16 {
        if hot[b] == 0 {
            continue;
        }
        o = block(reach, size, 16 * b, lo, hi, o);
    }
    close(reach, size, size, lo, hi, o.n, o.s, o.e)
}
