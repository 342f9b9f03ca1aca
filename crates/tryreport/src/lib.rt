// The line that trycheck prints for a plan and a range, as proved text: specs/TryLine.antt says which.
#![tactic(auto)]

ghost use Rattle.std.specs.Prelude.{◌≡◌};
ghost use Rattle.io.specs.Counts.{IsPrefixLen};
ghost use Rattle.text.specs.Bytes.{written};
ghost use Rattle.tryreport.specs.TryLine.{try_line};

use copies::COPY_MAX;
use text::Line;

// The line of a plan and a range: that of a refusal, or else of the copy.
pub fn try_line(plan: &[u8], first: u16, last: u16) -> Line
    ensures result_value { written result ≡ try_line plan.now first last }
    ensures prefix_len { IsPrefixLen result.len result.text }
{
    let mut copy = [0u8; COPY_MAX];
    let trial = exclusion::try_range(rules::khz50_device(), plan, first, last, &mut copy);
    match trial.verdict {
        Err(refusal) => text::refused_line(refusal.number, refusal.place),
        Ok(n) => report::counted_line(&copy[..trial.length], n),
    }
}
