// N_I, the number of subcarriers with a rank, from the marks, and ground 15. The plan's bytes are not read here: they are lent so that the
// contracts can speak of the plan.
#![tactic(auto)]

ghost use Rattle.std.specs.Prelude.{◌≡◌, eqb, ◌+◌, ◌≤◌};
ghost use Rattle.counting.specs.Search.{bit, count, is_zero};
ghost use Rattle.rules.specs.Plan.{plan_of};
ghost use Rattle.rules.specs.Roles.{ranked_count};
ghost use Rattle.rules.specs.Grounds.{answer};
ghost use Rattle.rules.specs.Fits.{Fits};
ghost use Rattle.marks.specs.Marked.{Marked};
ghost use Rattle.ranked.specs.Ground15.{ground15};

use rules::{Device, Refusal};

// A count of zeros with one cell more. The counter has sixteen bits so that the loop over 4,096 cells is vectorised.
fn one_more(x: u16, n: u16) -> u16
    requires { n ≤ 4096 }
    ensures { result ≡ n + bit (eqb x 0) }
{
    if x == 0 {
        return n + 1;
    }
    n
}

// How many of the first `size` cells are 0.
fn zeros(m: &[u16; 4096], size: usize) -> usize
    requires { size ≤ 4096 }
    ensures { (result ≡ count (is_zero m.now) size) × (result ≤ 4096) }
{
    let mut n: u16 = 0;
    for x in &m[..size] {
        n = one_more(*x, n);
    }
    usize::from(n)
}

// Ground 15, and N_I.
pub fn ground_15(d: Device, plan: &[u8], m: &[u16; 4096]) -> Result<u32, Refusal>
    requires { Fits d × Marked d (plan_of plan.now) m.now }
    ensures { result ≡ answer (ground15 d (plan_of plan.now)) (ranked_count d (plan_of plan.now)) }
{
    let ni = zeros(m, d.subcarriers);
    if d.ranked_max < ni {
        return Err(Refusal {
            number: 15,
            place: 0,
        });
    }
    Ok(ni as u32)
}
