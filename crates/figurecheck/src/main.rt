// Reads a plan on standard input and runs both emitters side by side under it: the first, and the second, which takes the commutator and the
// delay lines of document 003 literally. From each of the 128 starting phases both are given the same steps, with steps mixed in that have to
// be refused, and after each step the answers and the symbols of both are compared. Prints one line: `same 128 phases ..`, or the first
// difference, `differs ..`; for a refused plan plancheck's line. Every load is 14. Where the first 65,536 bytes of the plan cannot be read, or
// the line cannot be written, standard error is told. A longer input than any plan is read on, up to 64 MiB, so that its writer can finish.
#![tactic(auto)]

ghost use Rattle.std.specs.Prelude.{◌≡◌};
ghost use Rattle.rules.specs.Device.{khz50};
ghost use Rattle.rules.specs.Plan.{plan_of};
ghost use Rattle.rules.specs.Grounds.{verdict};
ghost use Rattle.rules.specs.Frame.{frame_of};
ghost use Rattle.figure.specs.Steps.{J};
ghost use Rattle.trials.specs.Parts.{needed};

mod pair;
mod pair_steps;

use console::Standard;
use pair::{Pair, SENT, STORE, more};
use pair_steps::StepKind;

// The pair with fresh emitters, if its next symbol is the first of a run.
fn fresh(
    streams: &mut Standard,
    pair: Pair,
    plan: &[u8],
    first: &mut [u16; STORE],
    second: &mut [u16; STORE],
) -> Pair {
    if pair.t != 0 {
        return pair;
    }
    let one = trials::fresh_emitter(plan, pair.start, STORE, first);
    let other = figuretrials::fresh_emitter(plan, pair.start, STORE, second);
    pair::answered(
        streams,
        pair,
        SENT,
        SENT,
        pair::start_of(one),
        pair::start_of(other),
    )
}

// The pair with a symbol counted; a run has 2 M + 3 symbols.
fn counted(pair: Pair) -> Pair {
    let mut next = pair;
    next.t = more(pair.t);
    next.symbols = more(pair.symbols);
    if next.t as u64 == 2 * (pair.depth as u64) + 3 {
        next.t = 0;
        next.start = more(pair.start);
        next.phases = more(pair.phases);
    }
    next
}

// The pair after the two steps of a symbol: a wrong one, and the right one.
fn one_symbol(
    streams: &mut Standard,
    pair: Pair,
    plan: &[u8],
    first: &mut [u16; STORE],
    second: &mut [u16; STORE],
) -> Pair {
    let sum = std::num::wrapping_add_u32(pair.start, pair.t);
    let nd = trials::data_count(plan, sum % 128);
    let wrong = StepKind::wrong(sum);
    let tried = pair_steps::step(streams, pair, wrong, nd, plan, first, second);
    counted(pair_steps::step(streams, tried, StepKind::Right, nd, plan, first, second))
}

// The pair after the runs from all starting phases, or after the symbol with the first difference.
fn runs(streams: &mut Standard, begun: Pair, plan: &[u8]) -> Pair {
    let mut first = [0u16; STORE];
    let mut second = [0u16; STORE];
    let mut pair = begun;
    for _ in 0..(2 * (begun.depth as u64) + 3) * 128 {
        let fresh_pair = fresh(streams, pair, plan, &mut first, &mut second);
        let next = one_symbol(streams, fresh_pair, plan, &mut first, &mut second);
        pair = next;
        if !pair.same {
            return pair;
        }
    }
    pair
}

// The pair under an accepted plan before its first run.
fn new_pair(plan: &[u8]) -> Pair {
    Pair {
        depth: samples::depth_of(plan),
        first_need: trials::emitter_need(plan),
        second_need: figuretrials::literal_need(plan),
        start: 0,
        t: 0,
        phase: 0,
        same: true,
        phases: 0,
        symbols: 0,
        refused: 0,
    }
}

// J under an accepted plan, the turns of the commutator in a symbol; 0 under another.
fn turns(plan: &[u8]) -> usize
    ensures { result ≡ needed (J (frame_of khz50 (plan_of plan.now))) (verdict khz50 plan.now) }
{
    match judge::judge(plan) {
        Ok(n) => figure::ceiling(n as usize, records::number_at(plan, 6)),
        Err(_) => 0,
    }
}

// A number of the line; all are below 65,536.
fn shown(n: usize) -> u32 {
    (n % 65536) as u32
}

// Runs both emitters under an accepted plan of N_I n, and prints the line where all was the same.
fn check_pair(streams: &mut Standard, plan: &[u8], n: u32) {
    let pair = runs(streams, new_pair(plan), plan);
    if pair.same {
        console::print_line(
            streams,
            b"figurecheck",
            b"same # phases # symbols # refused # cells a symbol # lines # turns a symbol # cells in lines\n",
            [
                pair.phases,
                pair.symbols,
                pair.refused,
                n,
                pair.depth,
                shown(turns(plan)),
                shown(pair.second_need),
            ],
        );
    }
}

// Judges a plan, and runs both emitters under an accepted one.
fn check_plan(streams: &mut Standard, plan: &[u8]) {
    match judge::judge(plan) {
        Err(refusal) => {
            console::print_line(
                streams,
                b"figurecheck",
                b"refused # #\n",
                [refusal.number, refusal.place, 0, 0, 0, 0, 0],
            );
        }
        Ok(n) => check_pair(streams, plan, n),
    }
}

fn main(rt: HostRuntime) {
    let mut streams = console::standard(&rt);
    let mut buf = io::large_buffer();
    let Some(n) = console::read(&mut streams, &mut buf) else {
        console::tell_unread(&mut streams, b"figurecheck");
        return;
    };
    check_plan(&mut streams, &buf[..n]);
    if n == 65536 {
        console::read_on(&mut streams, &mut buf);
    }
}
