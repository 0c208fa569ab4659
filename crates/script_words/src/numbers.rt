// Decimals within their type's range: `None` where a word is no number or over the range.
ghost use Rattle.std.specs.Prelude.{◌≡◌, ◌≤◌, IfSome};
ghost use Rattle.std.specs.List.{list_all};
ghost use Rattle.std.specs.Char.{is_ascii_digit};
ghost use Rattle.script_words.specs.Numbers.{decimal_of, is_decimal, under, small_of};

// A decimal of at most max.
pub fn unsigned(word: &[u8], max: u64) -> Option<u64>
    ensures value { result ≡ decimal_of max word.now }
    ensures value_le_max { IfSome result (λ n. n ≤ max) }
{
    if word.is_empty() {
        return None;
    }
    let mut value: u64 = 0;
    for byte in word {
        let digit = match *byte {
            b'0'..=b'9' => (*byte - b'0') as u64,
            _ => return None,
        };
        value = value.checked_mul(10)?.checked_add(digit)?;
        if value > max {
            return None;
        }
    }
    Some(value)
}

// Digits alone.
fn all_digits(word: &[u8]) -> bool
    ensures { result ≡ list_all is_ascii_digit word.now }
{
    word.iter().all(|b| b.is_ascii_digit())
}

// Digits alone, one at least: a decimal of any length.
pub fn is_decimal(word: &[u8]) -> bool
    ensures { result ≡ is_decimal word.now }
{
    !word.is_empty() && all_digits(word)
}

// The number n below 0; 0 has no sign.
fn negative(n: u64) -> i16
    requires { n ≤ 32768 }
    ensures { result ≡ under n }
{
    -(n as i32) as i16
}

const MINUS: u8 = b'-';

// A decimal of -32,768 to 32,767.
pub fn signed(word: &[u8]) -> Option<i16>
    ensures { result ≡ small_of word.now }
{
    match word {
        [sign, digits @ ..] if *sign == MINUS => Some(negative(unsigned(digits, 32768)?)),
        _ => Some(unsigned(word, 32767)? as i16),
    }
}
