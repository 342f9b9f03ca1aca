// The exports of the static library for C, libheadend.a: include/headend.h, docs/C-HOST.md. A crate is a library or a static library, not
// both, so each export calls the call of the same name in crate headend, which crates above it use too, and says the same of it.
#![tactic(auto)]

ghost use Rattle.std.specs.Prelude.{◌≡◌};
ghost use Rattle.rules.specs.Device.{khz50};
ghost use Rattle.headend.specs.Calls.{says, says_store, says_step, says_fill, says_lamp, says_numbers, judge_call, try_call, role_call, why_call, count_call, start_call, listen_call, emit_call, flush_call, receive_call, fill_call, unfill_call, pilots_call, lamp_call, modulate_call};

// Judges a plan.
#[unsafe(no_mangle)]
pub extern "C" fn headend_judge(plan: &[u8], answer: &mut [u8]) -> u32
    ensures { says result answer.new ≡ judge_call khz50 plan.now answer.old }
{
    headend::headend_judge(plan, answer)
}

// What one more excluded range would do to a plan.
#[unsafe(no_mangle)]
pub extern "C" fn headend_try(plan: &[u8], first: u32, last: u32, answer: &mut [u8]) -> u32
    ensures { says result answer.new ≡ try_call khz50 plan.now first last answer.old }
{
    headend::headend_try(plan, first, last, answer)
}

// The role of a subcarrier at a phase.
#[unsafe(no_mangle)]
pub extern "C" fn headend_role(plan: &[u8], subcarrier: u32, phase: u32, answer: &mut [u8]) -> u32
    ensures { says result answer.new ≡ role_call khz50 plan.now subcarrier phase answer.old }
{
    headend::headend_role(plan, subcarrier, phase, answer)
}

// What a subcarrier is doing at a phase, and why.
#[unsafe(no_mangle)]
pub extern "C" fn headend_why(plan: &[u8], subcarrier: u32, phase: u32, answer: &mut [u8]) -> u32
    ensures { says result answer.new ≡ why_call khz50 plan.now subcarrier phase answer.old }
{
    headend::headend_why(plan, subcarrier, phase, answer)
}

// N_D at a phase.
#[unsafe(no_mangle)]
pub extern "C" fn headend_data_count(plan: &[u8], phase: u32, answer: &mut [u8]) -> u32
    ensures { says result answer.new ≡ count_call khz50 plan.now phase answer.old }
{
    headend::headend_data_count(plan, phase, answer)
}

// Fills a store as a fresh emitter's at a phase.
#[unsafe(no_mangle)]
pub extern "C" fn headend_fresh_emitter(
    plan: &[u8],
    phase: u32,
    store: &mut [u8],
    answer: &mut [u8],
) -> u32
    ensures { says_store result store.new answer.new ≡ start_call khz50 plan.now phase store.old answer.old }
{
    headend::headend_fresh_emitter(plan, phase, store, answer)
}

// Fills a store as a fresh receiver's at a phase.
#[unsafe(no_mangle)]
pub extern "C" fn headend_fresh_receiver(
    plan: &[u8],
    phase: u32,
    store: &mut [u8],
    answer: &mut [u8],
) -> u32
    ensures { says_store result store.new answer.new ≡ listen_call khz50 plan.now phase store.old answer.old }
{
    headend::headend_fresh_receiver(plan, phase, store, answer)
}

// An emit step.
#[unsafe(no_mangle)]
pub extern "C" fn headend_emit(
    plan: &[u8],
    profile: &[u8],
    phase: u32,
    store: &mut [u8],
    input: &[u8],
    symbol: &mut [u8],
    answer: &mut [u8],
) -> u32
    ensures { says_step result store.new symbol.new answer.new ≡ emit_call khz50 plan.now profile.now phase store.old input.now symbol.old answer.old }
{
    headend::headend_emit(plan, profile, phase, store, input, symbol, answer)
}

// A flush step.
#[unsafe(no_mangle)]
pub extern "C" fn headend_flush(
    plan: &[u8],
    phase: u32,
    store: &mut [u8],
    symbol: &mut [u8],
    answer: &mut [u8],
) -> u32
    ensures { says_step result store.new symbol.new answer.new ≡ flush_call khz50 plan.now phase store.old symbol.old answer.old }
{
    headend::headend_flush(plan, phase, store, symbol, answer)
}

// A receive step.
#[unsafe(no_mangle)]
pub extern "C" fn headend_receive(
    plan: &[u8],
    profile: &[u8],
    phase: u32,
    heard: u32,
    store: &mut [u8],
    symbol: &[u8],
    buffer: &mut [u8],
    answer: &mut [u8],
) -> u32
    ensures { says_step result store.new buffer.new answer.new ≡ receive_call khz50 plan.now profile.now phase heard store.old symbol.now buffer.old answer.old }
{
    headend::headend_receive(plan, profile, phase, heard, store, symbol, buffer, answer)
}

// Fills a data symbol from a bit stream.
#[unsafe(no_mangle)]
pub extern "C" fn headend_fill(
    plan: &[u8],
    profile: &[u8],
    phase: u32,
    stream: &[u8],
    start: usize,
    input: &mut [u8],
    answer: &mut [u8],
) -> u32
    ensures { says_fill result input.new answer.new ≡ fill_call khz50 plan.now profile.now phase stream.now start input.old answer.old }
{
    headend::headend_fill(plan, profile, phase, stream, start, input, answer)
}

// The way back: puts the bits of a data symbol into a bit stream.
#[unsafe(no_mangle)]
pub extern "C" fn headend_unfill(
    plan: &[u8],
    profile: &[u8],
    phase: u32,
    input: &[u8],
    start: usize,
    stream: &mut [u8],
    answer: &mut [u8],
) -> u32
    ensures { says_fill result stream.new answer.new ≡ unfill_call khz50 plan.now profile.now phase input.now start stream.old answer.old }
{
    headend::headend_unfill(plan, profile, phase, input, start, stream, answer)
}

// The continuous pilots of a plan, in the order of the lamp's record.
#[unsafe(no_mangle)]
pub extern "C" fn headend_pilots(plan: &[u8], list: &mut [u8], answer: &mut [u8]) -> u32
    ensures { says_fill result list.new answer.new ≡ pilots_call khz50 plan.now list.old answer.old }
{
    headend::headend_pilots(plan, list, answer)
}

// The pilot lamp is given a symbol.
#[unsafe(no_mangle)]
pub extern "C" fn headend_lamp(
    plan: &[u8],
    symbol: &[u8],
    counts: &mut [u8],
    lights: &mut [u8],
    answer: &mut [u8],
) -> u32
    ensures { says_lamp result counts.new lights.new answer.new ≡ lamp_call khz50 plan.now symbol.now counts.old lights.old answer.old }
{
    headend::headend_lamp(plan, symbol, counts, lights, answer)
}

// Fills a modulator symbol.
#[unsafe(no_mangle)]
pub extern "C" fn headend_modulate(
    symbol: &[u8],
    loads: &[u8],
    minus: &[u8],
    out: &mut [f32],
    answer: &mut [u8],
) -> u32
    ensures { says_numbers result out.new answer.new ≡ modulate_call khz50 symbol.now loads.now minus.now out.old answer.old }
{
    headend::headend_modulate(symbol, loads, minus, out, answer)
}
