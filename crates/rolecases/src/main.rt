// Asks `roles::predefined_pilots` and `judge::role`, and prints what tests/roles.py works out with the second model. The first line is
// the checksum of the pilots of every L from 0 to 65535. Then each case has a line: of the answers for subcarriers 0 to 4096, 66388
// and 4294967295, how many were excluded, PLC, continuous, scattered, data and refused, and the checksum of all in this order.
// Standard input holds, for each case, the plan's length and the phase as four bytes each, high byte first, and then the plan.
// tests/roles.py makes stdin and stdout.
#![tactic(auto)]

ghost use Rattle.std.specs.Prelude.{◌<◌};

use console::Standard;
use rules::{Refusal, Role};

// The kind of a role, in the order of the line.
fn kind_of_role(role: Role) -> u32
    ensures { result < 5 }
{
    match role {
        Role::Excluded => 0,
        Role::Plc => 1,
        Role::Continuous => 2,
        Role::Scattered => 3,
        Role::Data => 4,
    }
}

// The kind of an answer; 5 is refused.
fn kind_of(answer: Result<Role, Refusal>) -> u32
    ensures { result < 6 }
{
    match answer {
        Ok(role) => kind_of_role(role),
        Err(_) => 5,
    }
}

// The checksum with an answer more: its kind, counted from 1, and of a refusal also number and place.
fn mixed_answer(sum: u32, kind: u32, answer: Result<Role, Refusal>) -> u32
    requires { kind < 6 }
{
    let next = sums::mixed(sum, kind + 1);
    match answer {
        Ok(_) => next,
        Err(refusal) => sums::mixed(sums::mixed(next, refusal.number), refusal.place),
    }
}

// Counts the answer for subcarrier k in the tally: how many answers of each kind, and last their checksum. The answers are too few for a
// count to wrap.
fn ask(tally: &mut [u32; 7], plan: &[u8], k: u32, phase: u32) {
    let answer = judge::role(plan, k, phase);
    let kind = kind_of(answer);
    let at = kind as usize;
    tally[at] = std::num::wrapping_add_u32(tally[at], 1);
    tally[6] = mixed_answer(tally[6], kind, answer);
}

// The tally of a plan at a phase, over all subcarriers and three numbers that are none.
fn tally_of(plan: &[u8], phase: u32) -> [u32; 7] {
    let mut tally = [0u32; 7];
    for k in 0..4097u32 {
        ask(&mut tally, plan, k, phase);
    }
    ask(&mut tally, plan, 66388, phase);
    ask(&mut tally, plan, 4294967295, phase);
    tally
}

// Reads a plan of this length and prints the line of its roles; false where it could not be read whole or its line was not written.
fn ask_case(streams: &mut Standard, plan: &mut [u8], phase: u32) -> bool {
    if !console::fill(streams, b"rolecases", plan) {
        return false;
    }
    console::print_line(
        streams,
        b"rolecases",
        b"# # # # # # #\n",
        tally_of(plan, phase),
    )
}

// One case; false where the input has ended, or this case was not read or not printed.
fn one_case(streams: &mut Standard) -> bool {
    let mut head = [0u8; 8];
    if !console::fill(streams, b"rolecases", &mut head) {
        return false;
    }
    let length = console::number_at(&head, 0);
    let phase = console::number_at(&head, 1);
    let mut buf = io::large_buffer();
    let n = console::at_most(length as usize, &buf);
    ask_case(streams, &mut buf[..n], phase)
}

// The checksum of the predefined pilots of every L.
fn all_pilots() -> u32 {
    let mut sum: u32 = 0;
    for l in 0..65536u32 {
        let pilots = roles::predefined_pilots(l as u16);
        sum = sums::mixed_cells(sum, &pilots, 8);
    }
    sum
}

// The line of the pilots, then the lines of up to 1000 cases.
fn main(rt: HostRuntime) {
    let mut streams = console::standard(&rt);
    if !console::print_line(
        &mut streams,
        b"rolecases",
        b"#\n",
        [all_pilots(), 0, 0, 0, 0, 0, 0],
    ) {
        return;
    }
    for _ in 0..1000u32 {
        if !one_case(&mut streams) {
            return;
        }
    }
}
