// The fader's curve as text (document 02, Card 3): each entry computed from the rule, not from the table.
#![tactic(auto)]

ghost use Rattle.std.specs.Prelude.{◌+◌, ◌≤◌, ◌≡◌, length};
ghost use Rattle.layout.specs.Puts.{put_at};
ghost use Rattle.fader.specs.Fader.{level_limit, curve_entry};
ghost use Rattle.fader_curve.specs.CurveText.{entry_text, curve_text};

use fader::LEVELS;
use key_lines::columns::put_column;
use layout_put::put_u8;

// Eight entries to a line, in 6 columns each, and the newline.
pub const TEXT_SIZE: usize = LEVELS / 8 * (8 * 6 + 1);

fn entry(k: usize) -> u64
    requires { k ≤ level_limit }
    ensures { result ≡ curve_entry k }
{
    let square = (k * k) as u64;
    32768 * square / 1046529
}

// Puts an entry, and after the eighth of a line the newline; how many bytes.
fn put_entry(text: &mut [u8], at: usize, k: usize) -> usize
    requires { (k ≤ level_limit) × (at + 7 ≤ length text.old) }
    ensures value { result ≡ length (entry_text k) }
    ensures text_after { text.new ≡ put_at text.old at (entry_text k) }
{
    put_column(text, at, 6, entry(k));
    if k % 8 == 7 {
        put_u8(text, at + 6, b'\n');
        return 7;
    }
    6
}

fn room() -> [u8; TEXT_SIZE]
    ensures { length result ≡ 6272 }
{
    [0; TEXT_SIZE]
}

pub fn curve_text() -> [u8; TEXT_SIZE]
    ensures { result ≡ curve_text }
{
    let mut text = room();
    let mut at: usize = 0;
    for k in 0..LEVELS {
        at += put_entry(&mut text, at, k);
    }
    text
}
