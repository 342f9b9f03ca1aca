// A number put into a bit stream as eight whole bytes, for the way back (crate bitunfill). The compiler makes one store of the eight.
#![tactic(auto)]

ghost use Rattle.std.specs.Prelude.{◌≡◌, ◌+◌, ◌*◌, ◌≤◌, length};
ghost use Rattle.std.proofs.lemmas.List.Edits.{sets};
ghost use Rattle.rules.specs.Bits.{digits, stream_bits};

// The four bytes of v go to the stream from byte `at` on, the lowest first.
fn put_four(stream: &mut [u8], at: usize, v: u32)
    requires { at + 4 ≤ length stream.old }
    ensures { stream_bits stream.new ≡ sets (stream_bits stream.old) (at * 8) (digits 32 v) }
{
    stream[at] = (v % 256) as u8;
    stream[at + 1] = (v / 256 % 256) as u8;
    stream[at + 2] = (v / 65536 % 256) as u8;
    stream[at + 3] = (v / 16777216 % 256) as u8;
}

// The eight bytes of v go to the stream from byte `at` on, the lowest first.
pub fn put_eight(stream: &mut [u8], at: usize, v: u64)
    requires { at + 8 ≤ length stream.old }
    ensures { stream_bits stream.new ≡ sets (stream_bits stream.old) (at * 8) (digits 64 v) }
{
    put_four(stream, at, (v % 4294967296) as u32);
    put_four(stream, at + 4, (v / 4294967296 % 4294967296) as u32);
}
