// Lines as proved text: what a line says is a definition of specs/Text.antt.
#![tactic(auto)]

ghost use Rattle.std.specs.Prelude.{◌≤◌, ◌≡◌, [], ◌∷◌, length};
ghost use Rattle.io.specs.Counts.{IsPrefixLen};
ghost use Rattle.text.specs.Text.{decimal, number_line, line_of, ok_line, refused_line};
ghost use Rattle.text.specs.Bytes.{written, words_max, Room, Longer};

// A line: the first len bytes of text.
#[derive(Clone, Copy)]
pub struct Line {
    pub text: [u8; 32],
    pub len: usize,
}

// The line of an accepted plan: N_I, and the number scattered at phase 0.
pub fn ok_line(n: u32, scattered: u32) -> Line
    ensures result_value { written result ≡ ok_line n scattered }
    ensures prefix_len { IsPrefixLen result.len result.text }
{
    line_of(b"ok ", n, scattered)
}

// The line of a refused plan: number and place.
pub fn refused_line(number: u32, place: u32) -> Line
    ensures result_value { written result ≡ refused_line number place }
    ensures prefix_len { IsPrefixLen result.len result.text }
{
    line_of(b"refused ", number, place)
}

// A line that says one thing: some words, a number and the end of the line.
pub fn number_line(words: &[u8], n: u32) -> Line
    requires { length words.now ≤ words_max }
    ensures result_value { written result ≡ number_line words.now n }
    ensures prefix_len { IsPrefixLen result.len result.text }
{
    let empty = Line {
        text: [0; 32],
        len: 0,
    };
    let begun = append(empty, words);
    let numbered = append_number(begun, n);
    push(numbered, b'\n')
}

// A word, two numbers and the end of the line.
fn line_of(word: &[u8], a: u32, b: u32) -> Line
    requires { length word.now ≤ 8 }
    ensures result_value { written result ≡ line_of word.now a b }
    ensures prefix_len { IsPrefixLen result.len result.text }
{
    let empty = Line {
        text: [0; 32],
        len: 0,
    };
    let begun = append(empty, word);
    let one = append_number(begun, a);
    let spaced = push(one, b' ');
    let two = append_number(spaced, b);
    push(two, b'\n')
}

// The line with a number more, which has up to ten digits.
fn append_number(line: Line, n: u32) -> Line
    requires { Room line 10 }
    ensures { Longer line (decimal n) result }
{
    let mut digits = [0; 20];
    let k = io::decimal(n as u64, &mut digits);
    append(line, &digits[..k])
}

// The line with some bytes more.
fn append(line: Line, bytes: &[u8]) -> Line
    requires { Room line (length bytes.now) }
    ensures { Longer line bytes.now result }
{
    let mut longer = line;
    for byte in bytes {
        longer = push(longer, *byte);
    }
    longer
}

// The line with one byte more.
fn push(mut line: Line, byte: u8) -> Line
    requires { Room line 1 }
    ensures { Longer line (byte ∷ []) result }
{
    let at = line.len;
    line.text[at] = byte;
    line.len = at + 1;
    line
}
