// The call of a line.
ghost use Rattle.std.specs.Prelude.{◌≡◌, List, [], ◌∷◌, ℕ, ◌≤◌, length, drop};
ghost use Rattle.script_words.specs.Texts.{lines_of};
ghost use Rattle.script_lines.specs.Lines.{cue_said};
ghost use Rattle.writer.specs.Loading as Loading;
ghost use Rattle.writer.specs.Calls.{Good, push_of};
ghost use Rattle.cut_write_log.specs.WriteLog.{logging};
ghost use Rattle.cut_logged_calls.specs.LoggedCalls.{lent_of};
ghost use Rattle.script_run.specs.Script.{push_with, push_by, call_by, script_limit};
ghost use Rattle.script_run.specs.Running.{CallMade, Makes};

use cut_logged_calls::{Made, finish_logged, push_logged};
use cut_write_log::WriteLog;
use script_groups::sides_from;
use script_lines::channels::{channel_line, data_word};
use script_lines::kinds::Kind;
use script_lines::lines::{PushLine, cue_line, push_line};
use script_words::hex::put_data;
use script_words::text::line_at;
use writer::{HpsWriter, Writes};
use writer_cue::cue;
use writer_push::PushArgs;

// The most data that a line of a script of 1 MiB says.
const DATA: usize = 524288;

fn data_room() -> [u8; DATA]
    ensures { 524288 ≡ length result }
{
    [0; DATA]
}

// A push by what PUSH says and its two CHAN lines.
fn push_sides(
    p: PushLine,
    left: &[u8],
    right: &[u8],
    w: HpsWriter,
    lent: usize,
    j: WriteLog,
    logged: &mut [u8],
) -> Made
    requires good { Good w }
    requires left_len_bound { (length left.now ≤ script_limit) × (length right.now ≤ script_limit) }
    ensures { CallMade (push_of w (push_with p left.now right.now) (lent_of lent)) (logging j logged.old) result logged.new }
{
    // Both rooms first: with the second one after the first's bytes the compiler clears a room of this size once more for each push.
    let mut left_data = data_room();
    let mut right_data = data_room();
    let n = put_data(&mut left_data, 0, data_word(left));
    let m = put_data(&mut right_data, 0, data_word(right));
    push_logged(
        w,
        PushArgs {
            channels: p.channels as usize,
            left: channel_line(left),
            right: channel_line(right),
            left_data: &left_data[..n],
            right_data: &right_data[..m],
            last: p.last,
        },
        lent,
        j,
        logged,
    )
}

// A PUSH line's call; the lines after it start at next.
fn push_call(
    s: &[u8],
    next: usize,
    line: &[u8],
    w: HpsWriter,
    lent: usize,
    j: WriteLog,
    logged: &mut [u8],
) -> Made
    requires good { Good w }
    requires s_len_bound { length s.now ≤ script_limit }
    ensures { CallMade (push_of w (push_by line.now (lines_of (drop next s.now))) (lent_of lent)) (logging j logged.old) result logged.new }
{
    let p = push_line(line);
    let sides = sides_from(s, next, p.channels);
    push_sides(
        p,
        line_at(s, sides.left),
        line_at(s, sides.right),
        w,
        lent,
        j,
        logged,
    )
}

// A cue line's call, which hands out nothing.
fn cue_call(line: &[u8], kind: Kind, w: HpsWriter, j: WriteLog) -> Made
    requires { Good w }
    ensures { (logged : List ℕ) → Makes (Loading.cue (cue_said line.now kind) ∷ []) w (logging j logged) result logged }
{
    let call = cue(w, cue_line(line, kind));
    Made {
        writer: call.writer,
        answer: call.answer,
        log: j,
    }
}

// A line's call, or nothing where it makes none. The lines after it start at next.
pub(crate) fn make(
    s: &[u8],
    next: usize,
    line: &[u8],
    kind: Kind,
    w: HpsWriter,
    lent: usize,
    j: WriteLog,
    logged: &mut [u8],
) -> Made
    requires good { Good w }
    requires s_len_bound { length s.now ≤ script_limit }
    ensures { Makes (call_by kind line.now lent (lines_of (drop next s.now))) w (logging j logged.old) result logged.new }
{
    match kind {
        Kind::Push => push_call(s, next, line, w, lent, j, logged),
        Kind::Finish => finish_logged(w, lent, j, logged),
        Kind::Point | Kind::Loop | Kind::Range => cue_call(line, kind, w, j),
        _ => Made {
            writer: w,
            answer: Ok(Writes::None),
            log: j,
        },
    }
}
