// What a line says.
ghost use Rattle.std.specs.Prelude.{◌≡◌};
ghost use Rattle.layout.specs.Lists.{same};
ghost use Rattle.frame_pool_lines.specs.PoolLines.{decoder_said, frame_said, words_said, said_by};

use frame_pool::{DecoderId, FRAMES};
use script_words::numbers::{is_decimal, unsigned};
use script_words::text::{word, word_count};

// The longest line that says a call.
pub const LINE_LIMIT: usize = 4095;

#[derive(Clone, Copy, Debug, PartialEq, Eq)]
pub enum SaidCall {
    Take(DecoderId),
    Give(DecoderId, usize),
}

#[tactic(auto, using(crate::proofs::SaysLaws::pointwise_same))]
fn is_word(word: &[u8], name: &[u8]) -> bool
    ensures { result ≡ same word.now name.now }
{
    word == name
}

#[tactic(auto, unfolding(crate::specs::PoolLines::decoder_said))]
fn decoder_said(word: &[u8]) -> Option<DecoderId>
    ensures { result ≡ decoder_said word.now }
{
    if is_word(word, b"A") {
        return Some(DecoderId::A);
    }
    if is_word(word, b"B") {
        return Some(DecoderId::B);
    }
    None
}

// A frame's number; a decimal above the last frame's, of any length, is 16.
#[tactic(auto, unfolding(crate::specs::PoolLines::frame_said))]
fn frame_said(word: &[u8]) -> Option<usize>
    ensures { result ≡ frame_said word.now }
{
    match unsigned(word, FRAMES as u64 - 1) {
        Some(n) => Some(n as usize),
        None => is_decimal(word).then_some(FRAMES),
    }
}

#[tactic(auto, unfolding(crate::specs::PoolLines::words_said))]
fn words_said(line: &[u8]) -> Option<SaidCall>
    ensures { result ≡ words_said line.now }
{
    let count = word_count(line);
    let name = word(line, 0);
    if is_word(name, b"TAKE") {
        if count == 2 {
            return Some(SaidCall::Take(decoder_said(word(line, 1))?));
        }
        return None;
    }
    if is_word(name, b"GIVE") {
        if count == 3 {
            let who = decoder_said(word(line, 1))?;
            return Some(SaidCall::Give(who, frame_said(word(line, 2))?));
        }
    }
    None
}

// The call that a line says, if it says one.
#[tactic(auto, unfolding(crate::specs::PoolLines::said_by))]
pub fn said_by(line: &[u8]) -> Option<SaidCall>
    ensures { result ≡ said_by line.now }
{
    if line.len() > LINE_LIMIT {
        return None;
    }
    words_said(line)
}
