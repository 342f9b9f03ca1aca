// The subcarriers with a rank, those whose mark is 0, in rising order, and their number. The marks are read in blocks of 8: a block of
// ranked subcarriers is stored as it comes, a block with none is passed over, and only a mixed one is read mark by mark.
#![tactic(auto)]

ghost use Rattle.std.specs.Prelude.{◌≡◌, ℕ, ◌+◌, ◌≤◌, ◌<◌, eqb, length, get_or};
ghost use Rattle.counting.specs.Search.{bit, count, select, is_zero};
ghost use Rattle.carriers.specs.Listed.{Listed};

use counting::wide;

// 1 where the mark is 0.
fn one_if_zero(x: u16) -> u16
    ensures { (result ≡ bit (eqb x 0)) × (result ≤ 1) }
{
    u16::from(x == 0)
}

// How many of the 8 marks from k on are 0.
fn zeros(mark: &[u16], k: usize) -> u16
    requires { (k ≤ 4096) × (k + 8 ≤ length mark.now) }
    ensures { result ≡ count (λ i. is_zero mark.now (k + i)) 8 }
{
    let mut n: u16 = 0;
    for x in &mark[k..k + 8] {
        n += one_if_zero(*x);
    }
    n
}

// Stores 8 subcarriers from k on behind the n that are listed, all of them ranked.
fn take_all(mark: &[u16], k: usize, n: usize, car: &mut [u16])
    requires { (k + 8 ≤ 4096) × (k + 8 ≤ length car.old) × (count (λ i. is_zero mark.now (k + i)) 8 ≡ 8) × Listed mark.now k n car.old }
    ensures { Listed mark.now (k + 8) (n + 8) car.new }
{
    for i in 0..8 {
        car[n + i] = (k + i) as u16;
    }
}

// Stores the ranked subcarriers from `from` to `to` behind the n that are listed, and says how many there are then. Each is stored; the
// next one takes its place where it has no rank.
fn take_some(mark: &[u16], from: usize, to: usize, n: usize, car: &mut [u16]) -> usize
    requires { (from ≤ to) × (to ≤ 4096) × (to ≤ length mark.now) × (to ≤ length car.old) × Listed mark.now from n car.old }
    ensures { Listed mark.now to result car.new }
{
    let mut m = n;
    for k in from..to {
        car[m] = k as u16;
        m += wide(one_if_zero(mark[k]));
    }
    m
}

// The ranked ones of the 8 subcarriers from k on, behind the n that are listed.
fn block(mark: &[u16], k: usize, n: usize, car: &mut [u16]) -> usize
    requires { (k + 8 ≤ 4096) × (k + 8 ≤ length mark.now) × (k + 8 ≤ length car.old) × Listed mark.now k n car.old }
    ensures { Listed mark.now (k + 8) result car.new }
{
    let z = zeros(mark, k);
    if z == 8 {
        take_all(mark, k, n, car);
        return n + 8;
    }
    if z == 0 {
        return n;
    }
    take_some(mark, k, k + 8, n, car)
}

// The subcarriers with a rank in rising order, and their number.
pub fn carriers(mark: &[u16], width: usize, car: &mut [u16]) -> usize
    requires { (width ≤ 4096) × (width ≤ length mark.now) × (width ≤ length car.old) }
    ensures number { result ≡ count (is_zero mark.now) width }
    ensures listed { (i : ℕ) → i < result → get_or car.new i 0 ≡ select (is_zero mark.now) width i }
{
    let mut n: usize = 0;
    let blocks = width / 8;
    for b in 0..blocks {
        n = block(mark, 8 * b, n, car);
    }
    take_some(mark, 8 * blocks, width, n, car)
}
