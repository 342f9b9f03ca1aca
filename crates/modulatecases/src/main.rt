// Fills modulator symbols with `modulate::modulate` and prints what tests/points.py works out with its own model: a line for each case, the
// number, place and subcarrier of its refusal, or 0 0 0, and the checksum of all numbers. Each case finds the numbers as the last one left
// them.
// Standard input holds eleven numbers for each case, of four bytes each, high byte first: a seed, from which cells, loads and sign bytes
// come; how many of each are lent, and how many numbers; and two changes, each a subcarrier, its cell and its load.
// tests/points.py makes stdin and stdout.
#![tactic(auto)]

ghost use Rattle.std.specs.Prelude.{◌≤◌};

use console::Standard;
use modulator::RefusedPoint;

// The cells of the room for a symbol, as many as of the loads and of the sign bytes; and the numbers of the room for a modulator symbol.
const ROOM: usize = 4097;

const NUMBERS: usize = 8194;

// The listed loads, and the last value of each.
const LOADS: [u8; 12] = [1, 2, 4, 6, 7, 8, 9, 10, 11, 12, 13, 14];

const LAST: [u16; 12] = [1, 3, 15, 63, 127, 255, 511, 1023, 2047, 4095, 8191, 16383];

// Sign bytes: no bit, each bit alone, all bits.
const SIGNS: [u8; 10] = [0, 1, 2, 4, 8, 16, 32, 64, 128, 255];

// The load that comes from a drawn number.
fn load_of(r: u16) -> u8 {
    let at = (r % 12) as usize;
    LOADS[at]
}

// The sign byte that comes from a drawn number.
fn sign_of(r: u16) -> u8 {
    let at = (r / 108 % 10) as usize;
    SIGNS[at]
}

// The cell that comes from a drawn number: the value 0 or 1, the last, the value of its lowest bits, or one of the five marks.
fn cell_of(r: u16) -> u16 {
    let at = (r % 12) as usize;
    let kind = r / 12 % 9;
    if kind < 2 {
        return kind;
    }
    if kind == 2 {
        return LAST[at];
    }
    if kind == 3 {
        return r & LAST[at];
    }
    32764 + kind
}

// Cells, loads and sign bytes from a seed.
fn draw(x: u32, symbol: &mut [u16; ROOM], loads: &mut [u8; ROOM], minus: &mut [u8; ROOM]) {
    samples::draw(x, ROOM, symbol);
    for k in 0..ROOM {
        let r = symbol[k];
        symbol[k] = cell_of(r);
        loads[k] = load_of(r);
        minus[k] = sign_of(r);
    }
}

// The change of which the subcarrier is this number of the case's numbers, if there is such a subcarrier.
fn change(head: &[u8; 44], at: u32, symbol: &mut [u16; ROOM], loads: &mut [u8; ROOM])
    requires { at ≤ 8 }
{
    let k = console::number_at(head, at) as usize;
    if k < ROOM {
        symbol[k] = (console::number_at(head, at + 1) % 65536) as u16;
        loads[k] = (console::number_at(head, at + 2) % 256) as u8;
    }
}

// The smaller of two lengths.
fn at_most(n: u32, most: usize) -> usize
    ensures { result ≤ most }
{
    let length = n as usize;
    if length < most {
        return length;
    }
    most
}

// The answer where as many of each are lent as the case says.
fn modulated(
    head: &[u8; 44],
    symbol: &[u16],
    loads: &[u8],
    minus: &[u8],
    out: &mut [f32],
) -> Result<(), RefusedPoint> {
    let a = at_most(console::number_at(head, 1), symbol.len());
    let b = at_most(console::number_at(head, 2), loads.len());
    let c = at_most(console::number_at(head, 3), minus.len());
    let n = at_most(console::number_at(head, 4), out.len());
    modulate::modulate(&symbol[..a], &loads[..b], &minus[..c], &mut out[..n])
}

// The same of whole arrays.
fn lent(
    head: &[u8; 44],
    symbol: &[u16; ROOM],
    loads: &[u8; ROOM],
    minus: &[u8; ROOM],
    out: &mut [f32],
) -> Result<(), RefusedPoint> {
    modulated(head, symbol, loads, minus, out)
}

// The answer of a case.
fn answer_of(head: &[u8; 44], out: &mut [f32]) -> Result<(), RefusedPoint> {
    let mut symbol = [0u16; ROOM];
    let mut loads = [0u8; ROOM];
    let mut minus = [0u8; ROOM];
    draw(
        console::number_at(head, 0),
        &mut symbol,
        &mut loads,
        &mut minus,
    );
    change(head, 5, &mut symbol, &mut loads);
    change(head, 8, &mut symbol, &mut loads);
    lent(head, &symbol, &loads, &minus, out)
}

// The line of a case; false where it was not written.
fn print_answer(streams: &mut Standard, answer: Result<(), RefusedPoint>, sum: u32) -> bool {
    match answer {
        Ok(()) => console::print_line(
            streams,
            b"modulatecases",
            b"0 0 0 #\n",
            [sum, 0, 0, 0, 0, 0, 0],
        ),
        Err(point) => console::print_line(
            streams,
            b"modulatecases",
            b"# # # #\n",
            [
                point.refusal.number,
                point.refusal.place,
                point.subcarrier,
                sum,
                0,
                0,
                0,
            ],
        ),
    }
}

// One case; false where the input has ended, or this case was not read or not printed.
fn one_case(streams: &mut Standard, out: &mut [f32]) -> bool {
    let mut head = [0u8; 44];
    if !console::fill(streams, b"modulatecases", &mut head) {
        return false;
    }
    let answer = answer_of(&head, out);
    print_answer(streams, answer, sums::mixed_singles(0, out))
}

// The lines of up to 1000 cases.
fn main(rt: HostRuntime) {
    let mut streams = console::standard(&rt);
    let mut out = [0.75f32; NUMBERS];
    for _ in 0..1000u32 {
        if !one_case(&mut streams, &mut out) {
            return;
        }
    }
}
