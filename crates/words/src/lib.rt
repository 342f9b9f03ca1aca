// Numbers given to a program as words of its arguments: what a word says is a definition of specs/Word.antt. A word may be of any length
// and may begin with zeros; a word that is no number up to `most` says none, whatever is wrong with it.
#![tactic(auto)]

ghost use Rattle.std.specs.Prelude.{ℕ, ◌+◌, ◌-◌, ◌*◌, ◌≤◌, ◌≡◌, Some};
ghost use Rattle.text.specs.Text.{decimal};
ghost use Rattle.words.specs.Word.{word_number};

// The number with one digit more. It is of 64 bits, since it may pass a u32.
fn with_digit(value: u64, byte: u8) -> u64
    requires { (value ≤ 4294967295) × (48 ≤ byte) }
    ensures { result ≡ 10 * value + (byte - 48) }
{
    10 * value + (byte - b'0') as u64
}

// The number that a word spells in decimal digits; none where it is empty, has any other byte or spells more than `most`.
pub fn word_number(word: &[u8], most: u32) -> Option<u32>
    ensures { result ≡ word_number word.now most }
{
    if word.is_empty() {
        return None;
    }
    let limit = most as u64 + 1;
    let mut value = 0;
    for byte in word {
        if !byte.is_ascii_digit() {
            return None;
        }
        let next = with_digit(value, *byte);
        if next >= limit {
            return None;
        }
        value = next;
    }
    Some(value as u32)
}

// Reading what is printed: the digits of every number up to `most` give it back.
pub fn read_back()
    ensures { (n most : ℕ) → n ≤ most → word_number (decimal n) most ≡ Some n }
{}
