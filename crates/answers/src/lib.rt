// The numbers that a C host is told of each answer of an entry: what a call returns, and the four numbers of its answer buffer. Crate
// answerbytes lays them out.
#![tactic(auto)]

ghost use Rattle.std.specs.Prelude.{◌≡◌};
ghost use Rattle.answers.specs.Answer.{role_number, valued, refused, reasoned, told_role, told_why, told_count, told_start, told_listen, told_send, told_receive, told_modulate};

use answerbytes::Told;
use modulator::RefusedPoint;
use rules::{EmitterState, Heard, Reason, ReceiverState, Refusal, RefusedStep, Role};

// A value, and no state.
fn valued(value: u32) -> Told
    ensures { result ≡ valued value }
{
    Told {
        number: 0,
        place: 0,
        phase: 0,
        heard: 0,
        value,
    }
}

// Refused, and no state.
fn refused(refusal: Refusal) -> Told
    ensures { result ≡ refused refusal }
{
    Told {
        number: refusal.number,
        place: refusal.place,
        phase: 0,
        heard: 0,
        value: 0,
    }
}

fn role_number(r: Role) -> u32
    ensures { result ≡ role_number r }
{
    match r {
        Role::Excluded => 1,
        Role::Plc => 2,
        Role::Continuous => 3,
        Role::Scattered => 4,
        Role::Data => 5,
    }
}

pub fn told_role(a: Result<Role, Refusal>) -> Told
    ensures { result ≡ told_role a }
{
    match a {
        Ok(r) => valued(role_number(r)),
        Err(refusal) => refused(refusal),
    }
}

// A role with its reason: the value says which, the place is its record or distance, the phase its phase.
fn reasoned(value: u32, place: u32, phase: u32) -> Told
    ensures { result ≡ reasoned value place phase }
{
    Told {
        number: 0,
        place,
        phase,
        heard: 0,
        value,
    }
}

pub fn told_why(a: Result<Reason, Refusal>) -> Told
    ensures { result ≡ told_why a }
{
    match a {
        Ok(Reason::ExcludedBy(i)) => reasoned(1, i, 0),
        Ok(Reason::PlcBy(i)) => reasoned(2, i, 0),
        Ok(Reason::PilotBelow(x)) => reasoned(3, x, 0),
        Ok(Reason::PilotAbove(x)) => reasoned(4, x, 0),
        Ok(Reason::PilotBy(i)) => reasoned(5, i, 0),
        Ok(Reason::ScatteredOnly(q)) => reasoned(6, 0, q),
        Ok(Reason::DataBut(q)) => reasoned(7, 0, q),
        Err(refusal) => refused(refusal),
    }
}

// A verdict, whose value is N_I, or a count.
pub fn told_count(a: Result<u32, Refusal>) -> Told
    ensures { result ≡ told_count a }
{
    match a {
        Ok(n) => valued(n),
        Err(refusal) => refused(refusal),
    }
}

pub fn told_start(a: Result<EmitterState, Refusal>) -> Told
    ensures { result ≡ told_start a }
{
    match a {
        Ok(e) => Told {
            number: 0,
            place: 0,
            phase: e.phase,
            heard: 0,
            value: 0,
        },
        Err(refusal) => refused(refusal),
    }
}

pub fn told_listen(a: Result<ReceiverState, Refusal>) -> Told
    ensures { result ≡ told_listen a }
{
    match a {
        Ok(v) => Told {
            number: 0,
            place: 0,
            phase: v.phase,
            heard: v.heard,
            value: 0,
        },
        Err(refusal) => refused(refusal),
    }
}

pub fn told_send(a: Result<EmitterState, RefusedStep<EmitterState>>) -> Told
    ensures { result ≡ told_send a }
{
    match a {
        Ok(next) => Told {
            number: 0,
            place: 0,
            phase: next.phase,
            heard: 0,
            value: 0,
        },
        Err(step) => Told {
            number: step.refusal.number,
            place: step.refusal.place,
            phase: step.state.phase,
            heard: 0,
            value: 0,
        },
    }
}

// A receiver's state after a step that no ground refused, and how many data cells it handed out.
fn told_state(v: ReceiverState, count: u32) -> Told
    ensures { result ≡ record { number = 0; place = 0; phase = v.phase; heard = v.heard; value = count } }
{
    Told {
        number: 0,
        place: 0,
        phase: v.phase,
        heard: v.heard,
        value: count,
    }
}

pub fn told_receive(a: Result<Heard<ReceiverState>, RefusedStep<ReceiverState>>) -> Told
    ensures { result ≡ told_receive a }
{
    match a {
        Ok(Heard::Warming(v)) => told_state(v, 0),
        Ok(Heard::Data(v, n)) => told_state(v, n),
        Err(away) => Told {
            number: away.refusal.number,
            place: away.refusal.place,
            phase: away.state.phase,
            heard: away.state.heard,
            value: 0,
        },
    }
}

pub fn told_modulate(a: Result<(), RefusedPoint>) -> Told
    ensures { result ≡ told_modulate a }
{
    match a {
        Ok(()) => valued(0),
        Err(point) => Told {
            number: point.refusal.number,
            place: point.refusal.place,
            phase: 0,
            heard: 0,
            value: point.subcarrier,
        },
    }
}
