// What the programs read from standard input or a file, the lines that they print, and what they tell standard error where either fails. No
// contract can say which bytes a file or a terminal gives or takes. Those here say what is done with the bytes of any reader and any writer
// that tell them: which were read, in which order, and that a line which was printed says its text and its numbers.
#![tactic(auto)]

ghost use Rattle.std.specs.Prelude.{◌≤◌, min, ◌≡◌, length, get_or, take, IsTrue, [], ◌∷◌};
ghost use Rattle.std.specs.Io.KnownBytes.{Consumes, Appends};
ghost use Rattle.io.specs.Counts.{IsPrefixLen};
ghost use Rattle.text.specs.Text.{decimal};
ghost use Rattle.console.specs.Printed.{piece, used, printed, refused};
ghost use Rattle.console.specs.Number.{number, number_at};
ghost use Rattle.console.specs.Reading.{Holds, HoldsFrom, Takes, TakesFrom};

use std::io::{Read, Stderr, Stdin, Stdout, Write};

// The streams of a program: what it reads, what it prints to, and where it tells what failed.
#[derive(Drop)]
pub struct Streams<I, O, E> {
    pub input: I,
    pub output: O,
    pub errors: E,
}

// The three standard streams.
pub type Standard = Streams<Stdin, Stdout, Stderr>;

pub fn standard(rt: &HostRuntime) -> Standard {
    Streams {
        input: rt.stdin(),
        output: rt.stdout(),
        errors: rt.stderr(),
    }
}

// One read into the bytes from a place on: how many it put there, 0 where the input has ended; none where the read failed, as one has that
// a signal interrupts before it moves a byte.
fn read_from<R: Read>(reader: &mut R, bytes: &mut [u8], from: usize) -> Option<usize>
    requires { from ≤ length bytes.old }
    ensures holds { HoldsFrom from result bytes.new }
    ensures before { take from bytes.new ≡ take from bytes.old }
    ensures takes { TakesFrom (R.remaining reader.old) (R.remaining reader.new) from result bytes.new }
{
    reader.read(&mut bytes[from..]).ok()
}

// Reads until the bytes are full, the input ends or a read fails: how many bytes, fewer than there was room for only where the input ended,
// or none, as a read failed.
pub fn read_open<R: Read>(reader: &mut R, bytes: &mut [u8]) -> Option<usize>
    ensures holds { Holds result bytes.new }
    ensures takes { Takes (R.remaining reader.old) (R.remaining reader.new) result bytes.new }
{
    let mut done = 0;
    // Counted by hand: `done` grows by as many bytes as a read gave, and a `for` has no such step.
    while done < bytes.len() {
        let n = read_from(reader, bytes, done)?;
        if n == 0 {
            return Some(done);
        }
        done += n;
    }
    Some(done)
}

// The same of a program's input.
pub fn read<I: Read, O, E>(streams: &mut Streams<I, O, E>, bytes: &mut [u8]) -> Option<usize>
    ensures holds { Holds result bytes.new }
    ensures takes { Takes (I.remaining streams.old.input) (I.remaining streams.new.input) result bytes.new }
    ensures output { streams.new.output ≡ streams.old.output }
    ensures errors { streams.new.errors ≡ streams.old.errors }
{
    read_open(&mut streams.input, bytes)
}

// Tells what the program of this name could not do, or what it expects.
pub fn tell<I, O, E: Write>(streams: &mut Streams<I, O, E>, program: &[u8], what: &[u8])
    ensures input { streams.new.input ≡ streams.old.input }
    ensures output { streams.new.output ≡ streams.old.output }
{
    let _ = streams.errors.write_all(program);
    let _ = streams.errors.write_all(what);
}

// Tells that a read of standard input failed.
pub fn tell_unread<I, O, E: Write>(streams: &mut Streams<I, O, E>, program: &[u8])
    ensures input { streams.new.input ≡ streams.old.input }
    ensures output { streams.new.output ≡ streams.old.output }
{
    tell(streams, program, b": standard input cannot be read\n");
}

// Fills the bytes from the input; false where it ends before, or where a read fails, which is told.
pub fn fill<I: Read, O, E: Write>(
    streams: &mut Streams<I, O, E>,
    program: &[u8],
    bytes: &mut [u8],
) -> bool
    ensures takes { IsTrue result → Consumes (I.remaining streams.old.input) (I.remaining streams.new.input) bytes.new }
    ensures output { streams.new.output ≡ streams.old.output }
{
    match read(streams, bytes) {
        Some(n) => n == bytes.len(),
        None => {
            tell_unread(streams, program);
            false
        }
    }
}

// Reads on into the space; false where the input has ended or a read failed.
fn read_more<I: Read, O, E>(streams: &mut Streams<I, O, E>, space: &mut [u8]) -> bool
    ensures output { streams.new.output ≡ streams.old.output }
    ensures errors { streams.new.errors ≡ streams.old.errors }
{
    read(streams, space).is_some_and(|n| 0 < n)
}

// Reads on into the space, over and over, until the input ends, a read fails or it was filled 1,024 times.
pub fn read_on<I: Read, O, E>(streams: &mut Streams<I, O, E>, space: &mut [u8])
    ensures output { streams.new.output ≡ streams.old.output }
    ensures errors { streams.new.errors ≡ streams.old.errors }
{
    for _ in 0..1024u32 {
        if !read_more(streams, space) {
            return;
        }
    }
}

// The number of four bytes, high byte first.
fn number_of(a: u8, b: u8, c: u8, d: u8) -> u32
    ensures { result ≡ number a b c d }
{
    (a as u32) * 16777216 + (b as u32) * 65536 + (c as u32) * 256 + d as u32
}

// The byte at a place, 0 past the end.
fn byte_at(bytes: &[u8], place: usize) -> u8
    ensures { result ≡ get_or bytes.now place 0 }
{
    if place < bytes.len() {
        return bytes[place];
    }
    0
}

// The i-th number of four bytes each; bytes past the end are 0.
pub fn number_at(bytes: &[u8], i: u32) -> u32
    ensures { result ≡ number_at bytes.now i }
{
    let first = 4 * (i as usize);
    number_of(
        byte_at(bytes, first),
        byte_at(bytes, first + 1),
        byte_at(bytes, first + 2),
        byte_at(bytes, first + 3),
    )
}

// How many of the bytes to lend: n, or all where there are fewer.
pub fn at_most(n: usize, bytes: &[u8]) -> usize
    ensures prefix_len { IsPrefixLen result bytes.now }
    ensures value { result ≡ min n (length bytes.now) }
{
    if n < bytes.len() {
        return n;
    }
    bytes.len()
}

// Prints the bytes; false where they cannot be written, which is told.
pub fn print<I, O: Write, E: Write>(
    streams: &mut Streams<I, O, E>,
    program: &[u8],
    bytes: &[u8],
) -> bool
    ensures prints { IsTrue result → Appends (O.contents streams.old.output) (O.contents streams.new.output) bytes.now }
    ensures input { streams.new.input ≡ streams.old.input }
{
    match streams.output.write_all(bytes) {
        Ok(()) => true,
        Err(_) => {
            tell(streams, program, b": standard output cannot be written\n");
            false
        }
    }
}

// The number at a place, 0 past the end.
fn at(numbers: [u32; 7], place: usize) -> u32
    ensures { result ≡ get_or numbers place 0 }
{
    if place < 7 {
        return numbers[place];
    }
    0
}

// Prints a number.
fn print_number<I, O: Write, E: Write>(
    streams: &mut Streams<I, O, E>,
    program: &[u8],
    n: u32,
) -> bool
    ensures prints { IsTrue result → Appends (O.contents streams.old.output) (O.contents streams.new.output) (decimal n) }
    ensures input { streams.new.input ≡ streams.old.input }
{
    let mut digits = [0; 20];
    let k = io::decimal(n as u64, &mut digits);
    print(streams, program, &digits[..k])
}

// Prints a byte of a text, a # as the number.
fn print_piece<I, O: Write, E: Write>(
    streams: &mut Streams<I, O, E>,
    program: &[u8],
    byte: u8,
    n: u32,
) -> bool
    ensures prints { IsTrue result → Appends (O.contents streams.old.output) (O.contents streams.new.output) (piece byte n) }
    ensures input { streams.new.input ≡ streams.old.input }
{
    if byte == b'#' {
        return print_number(streams, program, n);
    }
    print(streams, program, &[byte])
}

// How many numbers a byte of a text uses up.
fn uses(byte: u8) -> usize
    ensures value { result ≡ used byte }
    ensures most { result ≤ 1 }
{
    if byte == b'#' {
        return 1;
    }
    0
}

// Prints a text in which each # stands for the next of the numbers; false where it was not written to its end, which is told.
pub fn print_line<I, O: Write, E: Write>(
    streams: &mut Streams<I, O, E>,
    program: &[u8],
    text: &[u8],
    numbers: [u32; 7],
) -> bool
    ensures prints { IsTrue result → Appends (O.contents streams.old.output) (O.contents streams.new.output) (printed text.now numbers) }
    ensures input { streams.new.input ≡ streams.old.input }
{
    let mut next = 0;
    for byte in text {
        if !print_piece(streams, program, *byte, at(numbers, next)) {
            return false;
        }
        next += uses(*byte);
    }
    true
}

// The line of a case whose fresh start is refused.
pub fn print_refused<I, O: Write, E: Write>(
    streams: &mut Streams<I, O, E>,
    program: &[u8],
    number: u32,
    place: u32,
    sum: u32,
) -> bool
    ensures prints { IsTrue result → Appends (O.contents streams.old.output) (O.contents streams.new.output) (printed refused (number ∷ place ∷ sum ∷ 0 ∷ 0 ∷ 0 ∷ 0 ∷ [])) }
    ensures input { streams.new.input ≡ streams.old.input }
{
    print_line(
        streams,
        program,
        b"refused # # #\n",
        [number, place, sum, 0, 0, 0, 0],
    )
}
