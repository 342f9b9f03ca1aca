// The layout of an answer to a C host: `tell` writes its numbers as 16 bytes. It asks for a buffer of that length: its callers have tried it.
#![tactic(auto)]

ghost use Rattle.std.specs.Prelude.{◌≡◌, ◌+◌, ◌≤◌, length};
ghost use Rattle.std.proofs.lemmas.List.Edits.{sets};
ghost use Rattle.answerbytes.specs.Layout.{four, written};

// An answer in numbers: what is returned, and what goes to the answer buffer.
#[derive(Clone, Copy)]
pub struct Told {
    pub number: u32,
    pub place: u32,
    pub phase: u32,
    pub heard: u32,
    pub value: u32,
}

// Writes a number as four bytes, high byte first.
fn put_four(a: &mut [u8], at: usize, x: u32)
    requires { at + 4 ≤ length a.old }
    ensures { a.new ≡ sets a.old at (four x) }
{
    a[at] = (x / 16777216) as u8;
    a[at + 1] = (x / 65536 % 256) as u8;
    a[at + 2] = (x / 256 % 256) as u8;
    a[at + 3] = (x % 256) as u8;
}

// Lays the answer out at the start of the buffer, and returns its number.
pub fn tell(a: &mut [u8], t: Told) -> u32
    requires { 16 ≤ length a.old }
    ensures number { result ≡ t.number }
    ensures answer { a.new ≡ written a.old t }
{
    put_four(a, 0, t.place);
    put_four(a, 4, t.phase);
    put_four(a, 8, t.heard);
    put_four(a, 12, t.value);
    t.number
}
