// The checksum of the executed cases: with a number more, with cells or singles more, and with the numbers of each answer of an entry more.
// tests/ works out the same with the second model.
#![tactic(auto)]

ghost use Rattle.std.specs.Prelude.{◌≡◌, [], ◌∷◌, take};
ghost use Rattle.std.specs.Float.{binary32};
ghost use Rattle.std.specs.Float.Ieee.{to_bits};
ghost use Rattle.sums.specs.Sums.{mix, mix_all, patterns};
ghost use Rattle.sums.specs.Numbers.{refusal_numbers, state_numbers, count_numbers, start_numbers, listen_numbers, send_numbers, receive_numbers};

use rules::{EmitterState, Heard, ReceiverState, Refusal, RefusedStep};

// The checksum with one number more.
pub fn mixed(sum: u32, x: u32) -> u32
    ensures { result ≡ mix sum x }
{
    (((sum as u64) * 48271 + x as u64) % 2147483647) as u32
}

// The checksum with two numbers more.
fn mixed_two(sum: u32, a: u32, b: u32) -> u32
    ensures { result ≡ mix_all sum (a ∷ b ∷ []) }
{
    mixed(mixed(sum, a), b)
}

// The checksum with three numbers more.
fn mixed3(sum: u32, a: u32, b: u32, c: u32) -> u32
    ensures { result ≡ mix_all sum (a ∷ b ∷ c ∷ []) }
{
    mixed(mixed(mixed(sum, a), b), c)
}

// The checksum with a refusal more.
fn mixed_refusal(sum: u32, refusal: Refusal) -> u32
    ensures { result ≡ mix_all sum (refusal_numbers refusal) }
{
    mixed3(sum, 2, refusal.number, refusal.place)
}

// The checksum with a cell more.
fn mixed_cell(sum: u32, cell: u16) -> u32
    ensures { result ≡ mix sum cell }
{
    mixed(sum, u32::from(cell))
}

// The checksum with the first n cells more, or with all where there are fewer.
pub fn mixed_cells(sum: u32, cells: &[u16], n: usize) -> u32
    ensures { result ≡ mix_all sum (take n cells.now) }
{
    let mut mix = sum;
    for x in &cells[..n.min(cells.len())] {
        mix = mixed_cell(mix, *x);
    }
    mix
}

// The 32 bits of a number in single precision; of no number those that `to_bits` has.
fn bits_of(y: f32) -> u32
    ensures { result ≡ to_bits binary32 y }
{
    if y == y {
        return f32::to_bits(y);
    }
    0x7fc00000
}

// The checksum with a number in single precision more, by its bits.
pub fn mixed_single(sum: u32, y: f32) -> u32
    ensures { result ≡ mix sum (to_bits binary32 y) }
{
    mixed(sum, bits_of(y))
}

// The checksum with numbers in single precision more.
pub fn mixed_singles(sum: u32, singles: &[f32]) -> u32
    ensures { result ≡ mix_all sum (patterns singles.now) }
{
    let mut mix = sum;
    for y in singles {
        mix = mixed_single(mix, *y);
    }
    mix
}

// The checksum with a receiver's state more.
fn mixed_state(sum: u32, state: ReceiverState) -> u32
    ensures { result ≡ mix_all sum (state_numbers state) }
{
    mixed_two(sum, state.phase, state.heard)
}

// The checksum with the answer about N_D more.
pub fn mixed_count(sum: u32, answer: Result<u32, Refusal>) -> u32
    ensures { result ≡ mix_all sum (count_numbers answer) }
{
    match answer {
        Ok(n) => mixed_two(sum, 1, n),
        Err(refusal) => mixed_refusal(sum, refusal),
    }
}

// The checksum with the answer of a fresh emitter more.
pub fn mixed_start(sum: u32, answer: Result<EmitterState, Refusal>) -> u32
    ensures { result ≡ mix_all sum (start_numbers answer) }
{
    match answer {
        Ok(state) => mixed_two(sum, 1, state.phase),
        Err(refusal) => mixed_refusal(sum, refusal),
    }
}

// The checksum with the answer of a fresh receiver more.
pub fn mixed_listen(sum: u32, answer: Result<ReceiverState, Refusal>) -> u32
    ensures { result ≡ mix_all sum (listen_numbers answer) }
{
    match answer {
        Ok(state) => mixed_state(mixed(sum, 1), state),
        Err(refusal) => mixed_refusal(sum, refusal),
    }
}

// The checksum with the answer of an emit or flush step more.
pub fn mixed_send(sum: u32, answer: Result<EmitterState, RefusedStep<EmitterState>>) -> u32
    ensures { result ≡ mix_all sum (send_numbers answer) }
{
    match answer {
        Ok(state) => mixed_two(sum, 1, state.phase),
        Err(step) => mixed(mixed_refusal(sum, step.refusal), step.state.phase),
    }
}

// The checksum with the answer of a receive step more.
pub fn mixed_receive(
    sum: u32,
    answer: Result<Heard<ReceiverState>, RefusedStep<ReceiverState>>,
) -> u32
    ensures { result ≡ mix_all sum (receive_numbers answer) }
{
    match answer {
        Ok(Heard::Warming(state)) => mixed_state(mixed(sum, 1), state),
        Ok(Heard::Data(state, count)) => mixed_state(mixed(mixed(sum, 3), count), state),
        Err(step) => mixed_state(mixed_refusal(sum, step.refusal), step.state),
    }
}
