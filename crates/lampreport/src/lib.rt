// The line that lampcheck prints after a symbol, as proved text: specs/LampLine.antt says which.
#![tactic(auto)]

ghost use Rattle.std.specs.Prelude.{◌+◌, ◌≤◌, min, ◌≡◌, [], ◌∷◌, ◌++◌, eqb, length, take};
ghost use Rattle.counting.specs.Search.{keep};
ghost use Rattle.io.specs.Counts.{IsPrefixLen};
ghost use Rattle.text.specs.Text.{decimal};
ghost use Rattle.pilots.specs.Pilots.{pilots_most};
ghost use Rattle.lampreport.specs.LampLine.{spaced, dark_pilots, lamp_line};

use pilots::PILOTS;

// The places of a line: a word, a space and up to ten digits for each pilot, and the end of the line.
const PLACES: usize = 2048;

// A line: the first len bytes of text.
#[derive(Clone, Copy)]
pub struct LampLine {
    pub text: [u8; PLACES],
    pub len: usize,
}

// Puts some bytes behind the first `at` of a line, and says how many there are then.
fn put(out: &mut [u8], at: usize, bytes: &[u8]) -> usize
    requires { (at + length bytes.now ≤ length out.old) × (length out.old ≤ 2048) }
    ensures number { result ≡ at + length bytes.now }
    ensures line { take result out.new ≡ take at out.old ++ bytes.now }
{
    let end = at + bytes.len();
    out[at..end].copy_from_slice(bytes);
    end
}

// The same of a space and a pilot, which has up to ten digits.
fn put_pilot(out: &mut [u8], at: usize, k: u16) -> usize
    requires { (at + 11 ≤ length out.old) × (length out.old ≤ 2048) }
    ensures number { (at ≤ result) × (result ≤ at + 11) }
    ensures line { take result out.new ≡ take at out.old ++ spaced (k ∷ []) }
{
    let next = put(out, at, b" ");
    let mut digits = [0; 20];
    let n = io::decimal(k as u64, &mut digits);
    put(out, next, &digits[..n])
}

// The same of a pilot if its light is dark.
fn put_dark(out: &mut [u8], at: usize, k: u16, light: u8) -> usize
    requires { (at + 11 ≤ length out.old) × (length out.old ≤ 2048) }
    ensures number { (at ≤ result) × (result ≤ at + 11) }
    ensures line { take result out.new ≡ take at out.old ++ spaced (keep (eqb light 0) k []) }
{
    if light != 0 {
        return at;
    }
    put_pilot(out, at, k)
}

// The same of the first n pilots.
fn put_all(
    out: &mut [u8],
    at: usize,
    list: &[u16; PILOTS],
    lights: &[u8; PILOTS],
    n: usize,
) -> usize
    requires { (at ≤ 4) × (n ≤ pilots_most) × (length out.old ≡ 2048) }
    ensures number { (at ≤ result) × (result ≤ 1412) }
    ensures line { take result out.new ≡ take at out.old ++ spaced (dark_pilots list.now lights.now n) }
{
    let mut end = at;
    for i in 0..n {
        end = put_dark(out, end, list[i], lights[i]);
    }
    end
}

// The line of n pilots and their lights; an accepted plan has no more pilots than places.
pub fn lamp_line(list: &[u16; PILOTS], lights: &[u8; PILOTS], n: u32) -> LampLine
    ensures text_value { take result.len result.text ≡ lamp_line list.now lights.now (min n pilots_most) }
    ensures prefix_len { IsPrefixLen result.len result.text }
{
    let mut text = [0u8; PLACES];
    let start = put(&mut text, 0, b"dark");
    let listed = (n as usize).min(PILOTS);
    let end = put_all(&mut text, start, list, lights, listed);
    if end == start {
        let len = put(&mut text, 0, b"all lit\n");
        return LampLine { text, len };
    }
    let len = put(&mut text, end, b"\n");
    LampLine { text, len }
}
