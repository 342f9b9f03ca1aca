// The line that plancheck prints for a plan, as proved text: specs/PlanLine.antt says which.
#![tactic(auto)]

ghost use Rattle.std.specs.Prelude.{◌≡◌, Ok, Err};
ghost use Rattle.io.specs.Counts.{IsPrefixLen};
ghost use Rattle.rules.specs.Device.{khz50};
ghost use Rattle.rules.specs.Grounds.{verdict};
ghost use Rattle.text.specs.Bytes.{written};
ghost use Rattle.report.specs.PlanLine.{plan_line};

use text::Line;

// The line of a plan: what plancheck prints for any bytes.
#[tactic(auto, unfolding(crate::specs::PlanLine::plan_line, crate::specs::PlanLine::line_for))]
pub fn plan_line(plan: &[u8]) -> Line
    ensures result_value { written result ≡ plan_line plan.now }
    ensures prefix_len { IsPrefixLen result.len result.text }
{
    match judge::judge(plan) {
        Err(refusal) => text::refused_line(refusal.number, refusal.place),
        Ok(n) => counted_line(plan, n),
    }
}

// The line of an accepted plan, whose N_I is n.
#[tactic(auto, using(crate::proofs::PlanLines::ok_plan, crate::proofs::PlanLines::not_refused))]
pub fn counted_line(plan: &[u8], n: u32) -> Line
    requires { Ok n ≡ verdict khz50 plan.now }
    ensures result_value { written result ≡ plan_line plan.now }
    ensures prefix_len { IsPrefixLen result.len result.text }
{
    match judge::scattered_count(plan, 0) {
        Ok(scattered) => text::ok_line(n, scattered),
        Err(refusal) => text::refused_line(refusal.number, refusal.place),
    }
}
