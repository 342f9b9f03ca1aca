// The flags of the placeholders of an input symbol, and their number. A cell is a placeholder where its subcarrier is, modulo 128, the
// one of the pattern at the phase at which the cell is sent. That repeats after m cells: the cells are compared in order with a block of
// whole turns.
#![tactic(auto)]

ghost use Rattle.std.specs.Prelude.{◌≡◌, ℕ, ◌+◌, ◌%◌, ◌≤◌, ◌<◌, eqb, length, get_or, take};
ghost use Rattle.std.proofs.lemmas.List.Edits.{sets};
ghost use Rattle.counting.specs.Search.{bit, count, tabulate};
ghost use Rattle.rules.specs.Device.{phases};
ghost use Rattle.placeholders.specs.Meets.{meets, like, Wanted};

use counting::wide;

// 1 where the subcarrier is the wanted one modulo 128.
fn one_if_like(k: u16, want: u16) -> u16
    ensures { (result ≡ bit (eqb (k % phases) want)) × (result ≤ 1) }
{
    u16::from(k % 128 == want)
}

// Flags the k cells from b on whose subcarrier is the wanted one modulo 128, and counts them.
fn meet(want: &[u16; 256], kc: &[u16], b: usize, k: usize, flag: &mut [u8]) -> u16
    requires { (length want.now ≡ 256) × (k ≤ 256) × (length kc.now ≤ 4096) × (b + k ≤ length kc.now) × (length kc.now ≤ length flag.old) }
    ensures flags { flag.new ≡ sets flag.old b (tabulate (λ i. bit (like want.now kc.now b i)) k) }
    ensures number { result ≡ count (like want.now kc.now b) k }
{
    let mut n: u16 = 0;
    for i in 0..k {
        let one = one_if_like(kc[b + i], want[i]);
        flag[b + i] = one as u8;
        n += one;
    }
    n
}

// The wanted subcarriers modulo 128 of a block of cells, and its length: the first m, then as many again until there are 128 or more.
fn pattern(m: usize, base: usize, want: &mut [u16; 256]) -> usize
    requires { (length want.old ≡ 256) × (0 < m) × (m ≤ 128) × (base ≤ 65535) }
    ensures { Wanted m base result want.new }
{
    for d in 0..m {
        want[d] = ((base + d) % 128) as u16;
    }
    let mut len = m;
    // Counted by hand: the length doubles from turn to turn.
    while len < 128 {
        want.copy_within(..len, len);
        len *= 2;
    }
    len
}

// Flags the cells whose subcarrier is scattered when they are sent, and counts them. At the symbol's own phase the pattern stands on the
// subcarriers that are `base` modulo 128.
pub fn holders(m: usize, base: usize, kc: &[u16], flag: &mut [u8]) -> usize
    requires { (0 < m) × (m ≤ 128) × (base ≤ 65535) × (length kc.now ≤ 4096) × (length kc.now ≤ length flag.old) }
    ensures flags { (p : ℕ) → p < length kc.now → get_or flag.new p 0 ≡ bit (meets base m kc.now p) }
    ensures number { result ≡ count (meets base m kc.now) (length kc.now) }
{
    let ni = kc.len();
    let mut want = [0u16; 256];
    let len = pattern(m, base, &mut want);
    let mut n: usize = 0;
    for b in (0..ni).step_by(len) {
        let k = len.min(ni - b);
        let more = meet(&want, kc, b, k, flag);
        n += wide(more);
    }
    n
}
