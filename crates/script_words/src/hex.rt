// Data, two hexadecimal digits a byte; `-` for none.
ghost use Rattle.std.specs.Prelude.{◌≡◌, ◌+◌, ◌<◌, length, leb};
ghost use Rattle.std.specs.List.{list_all};
ghost use Rattle.std.specs.Char.{is_ascii_hexdigit};
ghost use Rattle.layout.specs.Choice.{pick};
ghost use Rattle.layout.specs.Puts.{put_at};
ghost use Rattle.script_words.specs.Data.{digit_of, bytes_said, two_by_two, is_data};

use layout::fields::inside;

// A digit's value, 0 where it is none.
#[tactic(auto, unfolding(crate::specs::Data::digit_of))]
fn digit(byte: u8) -> u8
    ensures { (result ≡ digit_of byte) × (result < 16) }
{
    match byte {
        b'0'..=b'9' => byte - b'0',
        b'A'..=b'F' => byte - b'A' + 10,
        b'a'..=b'f' => byte - b'a' + 10,
        _ => 0,
    }
}

fn all_digits(word: &[u8]) -> bool
    ensures { result ≡ list_all is_ascii_hexdigit word.now }
{
    word.iter().all(|b| b.is_ascii_hexdigit())
}

// Digits two by two.
fn two_by_two(word: &[u8]) -> bool
    ensures { result ≡ two_by_two word.now }
{
    word.len() % 2 == 0 && all_digits(word)
}

pub fn is_data(word: &[u8]) -> bool
    ensures { result ≡ is_data word.now }
{
    match word {
        [] => false,
        [letter] => *letter == b'-',
        _ => two_by_two(word),
    }
}

// Puts the bytes that a word of data says, and answers how many: nothing where they do not fit.
pub fn put_data(out: &mut [u8], at: usize, word: &[u8]) -> usize
    ensures out_after { out.new ≡ put_at out.old at (bytes_said word.now) }
    ensures value { result ≡ pick (leb (at + length (bytes_said word.now)) (length out.old)) (length (bytes_said word.now)) 0 }
{
    let n = word.len() / 2;
    if inside(out.len(), at, n) {
        for j in 0..n {
            out[at + j] = 16 * digit(word[2 * j]) + digit(word[2 * j + 1]);
        }
        return n;
    }
    0
}
