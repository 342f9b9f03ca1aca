// The line that whycheck prints for a plan, a subcarrier and a phase, as proved text: specs/WhyLine.antt says which.
#![tactic(auto)]

ghost use Rattle.std.specs.Prelude.{◌≡◌};
ghost use Rattle.io.specs.Counts.{IsPrefixLen};
ghost use Rattle.text.specs.Bytes.{written};
ghost use Rattle.whyreport.specs.WhyLine.{answer_line, why_line};

use rules::{Reason, Refusal};
use text::Line;

// The line of an answer of `why`.
#[tactic(auto, unfolding(crate::specs::WhyLine::answer_line))]
pub fn answer_line(answer: Result<Reason, Refusal>) -> Line
    ensures result_value { written result ≡ answer_line answer }
    ensures prefix_len { IsPrefixLen result.len result.text }
{
    match answer {
        Ok(Reason::ExcludedBy(i)) => text::number_line(b"excluded record ", i),
        Ok(Reason::PlcBy(i)) => text::number_line(b"plc record ", i),
        Ok(Reason::PilotBelow(x)) => text::number_line(b"continuous below ", x),
        Ok(Reason::PilotAbove(x)) => text::number_line(b"continuous above ", x),
        Ok(Reason::PilotBy(i)) => text::number_line(b"continuous record ", i),
        Ok(Reason::ScatteredOnly(q)) => text::number_line(b"scattered phase ", q),
        Ok(Reason::DataBut(q)) => text::number_line(b"data phase ", q),
        Err(refusal) => text::refused_line(refusal.number, refusal.place),
    }
}

// The line of a subcarrier at a phase: what whycheck prints for any bytes as a plan.
pub fn why_line(plan: &[u8], subcarrier: u32, phase: u32) -> Line
    ensures result_value { written result ≡ why_line plan.now subcarrier phase }
    ensures prefix_len { IsPrefixLen result.len result.text }
{
    answer_line(why::why(plan, subcarrier, phase))
}
