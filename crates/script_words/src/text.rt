// Lines of a text and their words.
ghost use Rattle.std.specs.Prelude.{◌≡◌, ◌<◌, ◌≤◌, ◌+◌, ◌≢◌, ℕ, length, drop, eqb, slice_index, MatchOption};
ghost use Rattle.std.specs.List.{position};
ghost use Rattle.script_words.specs.Texts.{is_blank, is_letter, uncommented, whole_line, line_of, lines_after, whole_lines, from_word, first_word, after_word, word_from, word_count};

// The first place of a byte.
fn find(s: &[u8], byte: u8) -> Option<usize>
    ensures { result ≡ position (λ b. eqb b byte) s.now }
{
    s.iter().position(|b| *b == byte)
}

// A line before its comment.
fn without_comment<'a>(line: &'a [u8]) -> &'a [u8]
    ensures { result.now ≡ uncommented line.now }
{
    match find(line, b'#') {
        Some(n) => &line[..n],
        None => line,
    }
}

// The line that starts here, with its comment.
pub fn whole_line_at<'a>(s: &'a [u8], at: usize) -> &'a [u8]
    ensures { result.now ≡ whole_line (drop at s.now) }
{
    let rest = &s[at.min(s.len())..];
    match find(rest, b'\n') {
        Some(n) => &rest[..n],
        None => rest,
    }
}

// The same without it.
pub fn line_at<'a>(s: &'a [u8], at: usize) -> &'a [u8]
    ensures { result.now ≡ line_of (drop at s.now) }
{
    without_comment(whole_line_at(s, at))
}

// Where the line after it starts.
pub fn next_line(s: &[u8], at: usize) -> usize
    ensures s_value { drop result s.now ≡ lines_after (drop at s.now) }
    ensures upper_bound { (result ≤ length s.now) × (at < length s.now → at < result) }
{
    if at >= s.len() {
        return s.len();
    }
    match find(&s[at..], b'\n') {
        Some(n) => at + n + 1,
        None => s.len(),
    }
}

// The last end of a line.
fn last_end(s: &[u8]) -> Option<usize>
    ensures { MatchOption result ((k : ℕ) → k < length s.now → slice_index s.now k ≢ 10)
        (λ i. (i < length s.now) × (slice_index s.now i ≡ 10) × ((k : ℕ) → i < k → k < length s.now → slice_index s.now k ≢ 10)) }
{
    s.iter().rposition(|b| *b == b'\n')
}

// Where the last line that ends in a text ends; 0 where none does.
pub fn whole_lines(s: &[u8]) -> usize
    ensures { (result ≡ whole_lines s.now) × (result ≤ length s.now) }
{
    match last_end(s) {
        Some(i) => i + 1,
        None => 0,
    }
}

// Blank, tab and carriage return stand between words.
fn is_blank(byte: u8) -> bool
    ensures { result ≡ is_blank byte }
{
    matches!(byte, b' ' | b'\t' | b'\r')
}

fn letter_at(line: &[u8]) -> Option<usize>
    ensures { result ≡ position is_letter line.now }
{
    line.iter().position(|b| !is_blank(*b))
}

fn blank_at(line: &[u8]) -> Option<usize>
    ensures { result ≡ position is_blank line.now }
{
    line.iter().position(|b| is_blank(*b))
}

// From the first word of a line on.
fn from_word<'a>(line: &'a [u8]) -> &'a [u8]
    ensures { result.now ≡ from_word line.now }
{
    match letter_at(line) {
        Some(n) => &line[n..],
        None => &[],
    }
}

fn first_word<'a>(line: &'a [u8]) -> &'a [u8]
    ensures { result.now ≡ first_word line.now }
{
    let tail = from_word(line);
    match blank_at(tail) {
        Some(n) => &tail[..n],
        None => tail,
    }
}

fn after_word<'a>(line: &'a [u8]) -> &'a [u8]
    ensures { result.now ≡ after_word line.now }
{
    let tail = from_word(line);
    match blank_at(tail) {
        Some(n) => &tail[n..],
        None => &[],
    }
}

// A word of a line, counted from 0; empty where there is none.
pub fn word<'a>(line: &'a [u8], i: usize) -> &'a [u8]
    ensures { result.now ≡ word_from line.now i }
{
    let mut rest = line;
    for _ in 0..i {
        if rest.is_empty() {
            return rest;
        }
        rest = after_word(rest);
    }
    first_word(rest)
}

// How many words a line has.
pub fn word_count(line: &[u8]) -> usize
    ensures { result ≡ word_count line.now }
{
    let mut count: usize = 0;
    let mut apart = true;
    for byte in line {
        let blank = is_blank(*byte);
        if !blank && apart {
            count += 1;
        }
        apart = blank;
    }
    count
}
