// The calls for a C host, numbers and buffers of bytes or single-precision numbers only: include/headend.h, docs/C-HOST.md. Each is thin:
// it tries the length of the answer buffer, calls the proved entry over plan bytes or two-byte cells, and has crates answers and
// answerbytes lay its answer out in the buffer. Crate headend_c exports them under the same names.
#![tactic(auto)]

ghost use Rattle.std.specs.Prelude.{◌≡◌};
ghost use Rattle.rules.specs.Device.{khz50};
ghost use Rattle.headend.specs.Calls.{says, says_store, says_step, says_fill, says_lamp, says_numbers, judge_call, try_call, role_call, why_call, count_call, start_call, listen_call, emit_call, flush_call, receive_call, fill_call, unfill_call, pilots_call, lamp_call, modulate_call};

use rules::{EmitterState, ReceiverState};

// The bytes of an answer.
const ANSWER: usize = 16;

// Judges a plan.
pub fn headend_judge(plan: &[u8], answer: &mut [u8]) -> u32
    ensures { says result answer.new ≡ judge_call khz50 plan.now answer.old }
{
    if answer.len() < ANSWER {
        return 21;
    }
    answerbytes::tell(answer, answers::told_count(judge::judge(plan)))
}

// What one more excluded range would do to a plan.
pub fn headend_try(plan: &[u8], first: u32, last: u32, answer: &mut [u8]) -> u32
    ensures { says result answer.new ≡ try_call khz50 plan.now first last answer.old }
{
    if answer.len() < ANSWER {
        return 21;
    }
    answerbytes::tell(
        answer,
        answers::told_count(exclusion::try_numbers(plan, first, last)),
    )
}

// The role of a subcarrier at a phase.
pub fn headend_role(plan: &[u8], subcarrier: u32, phase: u32, answer: &mut [u8]) -> u32
    ensures { says result answer.new ≡ role_call khz50 plan.now subcarrier phase answer.old }
{
    if answer.len() < ANSWER {
        return 21;
    }
    answerbytes::tell(
        answer,
        answers::told_role(judge::role(plan, subcarrier, phase)),
    )
}

// What a subcarrier is doing at a phase, and why.
pub fn headend_why(plan: &[u8], subcarrier: u32, phase: u32, answer: &mut [u8]) -> u32
    ensures { says result answer.new ≡ why_call khz50 plan.now subcarrier phase answer.old }
{
    if answer.len() < ANSWER {
        return 21;
    }
    answerbytes::tell(answer, answers::told_why(why::why(plan, subcarrier, phase)))
}

// N_D at a phase.
pub fn headend_data_count(plan: &[u8], phase: u32, answer: &mut [u8]) -> u32
    ensures { says result answer.new ≡ count_call khz50 plan.now phase answer.old }
{
    if answer.len() < ANSWER {
        return 21;
    }
    answerbytes::tell(answer, answers::told_count(cells::data_count(plan, phase)))
}

// Fills a store as a fresh emitter's at a phase.
pub fn headend_fresh_emitter(plan: &[u8], phase: u32, store: &mut [u8], answer: &mut [u8]) -> u32
    ensures { says_store result store.new answer.new ≡ start_call khz50 plan.now phase store.old answer.old }
{
    if answer.len() < ANSWER {
        return 21;
    }
    answerbytes::tell(
        answer,
        answers::told_start(bytefresh::fresh_emitter(plan, phase, store)),
    )
}

// Fills a store as a fresh receiver's at a phase.
pub fn headend_fresh_receiver(plan: &[u8], phase: u32, store: &mut [u8], answer: &mut [u8]) -> u32
    ensures { says_store result store.new answer.new ≡ listen_call khz50 plan.now phase store.old answer.old }
{
    if answer.len() < ANSWER {
        return 21;
    }
    answerbytes::tell(
        answer,
        answers::told_listen(bytefresh::fresh_receiver(plan, phase, store)),
    )
}

// An emit step.
pub fn headend_emit(
    plan: &[u8],
    profile: &[u8],
    phase: u32,
    store: &mut [u8],
    input: &[u8],
    symbol: &mut [u8],
    answer: &mut [u8],
) -> u32
    ensures { says_step result store.new symbol.new answer.new ≡ emit_call khz50 plan.now profile.now phase store.old input.now symbol.old answer.old }
{
    if answer.len() < ANSWER {
        return 21;
    }
    let state = EmitterState { phase };
    answerbytes::tell(
        answer,
        answers::told_send(byteemitter::emit(plan, profile, state, store, input, symbol)),
    )
}

// A flush step.
pub fn headend_flush(
    plan: &[u8],
    phase: u32,
    store: &mut [u8],
    symbol: &mut [u8],
    answer: &mut [u8],
) -> u32
    ensures { says_step result store.new symbol.new answer.new ≡ flush_call khz50 plan.now phase store.old symbol.old answer.old }
{
    if answer.len() < ANSWER {
        return 21;
    }
    let state = EmitterState { phase };
    answerbytes::tell(
        answer,
        answers::told_send(byteemitter::flush(plan, state, store, symbol)),
    )
}

// A receive step.
pub fn headend_receive(
    plan: &[u8],
    profile: &[u8],
    phase: u32,
    heard: u32,
    store: &mut [u8],
    symbol: &[u8],
    buffer: &mut [u8],
    answer: &mut [u8],
) -> u32
    ensures { says_step result store.new buffer.new answer.new ≡ receive_call khz50 plan.now profile.now phase heard store.old symbol.now buffer.old answer.old }
{
    if answer.len() < ANSWER {
        return 21;
    }
    let state = ReceiverState { phase, heard };
    answerbytes::tell(
        answer,
        answers::told_receive(bytereceiver::receive(plan, profile, state, store, symbol, buffer)),
    )
}

// Fills a data symbol from a bit stream.
pub fn headend_fill(
    plan: &[u8],
    profile: &[u8],
    phase: u32,
    stream: &[u8],
    start: usize,
    input: &mut [u8],
    answer: &mut [u8],
) -> u32
    ensures { says_fill result input.new answer.new ≡ fill_call khz50 plan.now profile.now phase stream.now start input.old answer.old }
{
    if answer.len() < ANSWER {
        return 21;
    }
    answerbytes::tell(
        answer,
        answers::told_count(bytefilling::fill(plan, profile, phase, stream, start, input)),
    )
}

// The way back: puts the bits of a data symbol into a bit stream.
pub fn headend_unfill(
    plan: &[u8],
    profile: &[u8],
    phase: u32,
    input: &[u8],
    start: usize,
    stream: &mut [u8],
    answer: &mut [u8],
) -> u32
    ensures { says_fill result stream.new answer.new ≡ unfill_call khz50 plan.now profile.now phase input.now start stream.old answer.old }
{
    if answer.len() < ANSWER {
        return 21;
    }
    answerbytes::tell(
        answer,
        answers::told_count(bytefilling::unfill(plan, profile, phase, input, start, stream)),
    )
}

// The continuous pilots of a plan, in the order of the lamp's record.
pub fn headend_pilots(plan: &[u8], list: &mut [u8], answer: &mut [u8]) -> u32
    ensures { says_fill result list.new answer.new ≡ pilots_call khz50 plan.now list.old answer.old }
{
    if answer.len() < ANSWER {
        return 21;
    }
    answerbytes::tell(answer, answers::told_count(bytelamp::pilots(plan, list)))
}

// The pilot lamp is given a symbol.
pub fn headend_lamp(
    plan: &[u8],
    symbol: &[u8],
    counts: &mut [u8],
    lights: &mut [u8],
    answer: &mut [u8],
) -> u32
    ensures { says_lamp result counts.new lights.new answer.new ≡ lamp_call khz50 plan.now symbol.now counts.old lights.old answer.old }
{
    if answer.len() < ANSWER {
        return 21;
    }
    answerbytes::tell(
        answer,
        answers::told_count(bytelamp::lamp(plan, symbol, counts, lights)),
    )
}

// Fills a modulator symbol.
pub fn headend_modulate(
    symbol: &[u8],
    loads: &[u8],
    minus: &[u8],
    out: &mut [f32],
    answer: &mut [u8],
) -> u32
    ensures { says_numbers result out.new answer.new ≡ modulate_call khz50 symbol.now loads.now minus.now out.old answer.old }
{
    if answer.len() < ANSWER {
        return 21;
    }
    answerbytes::tell(
        answer,
        answers::told_modulate(bytemodulate::modulate(symbol, loads, minus, out)),
    )
}
