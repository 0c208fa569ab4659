// What `cut` answers: a script's calls on an earlier slot, and the listings of every moment.
#![tactic(auto)]

use cut_report::{print_line, script_line};
use cut_write_log::WriteLog;
use host_io::{print_decimal, write_all};
use key_print::{print_listing, slot_room};
use layout_put::put_bytes;
use power_cut_moments::slot_at;
use script_lines::whole::wrong_line;
use script_run::loading::{LOG_SIZE, SCRIPT_LIMIT, load};
use script_run::report::Output;
use std::io::Write;

pub mod files; // files.rt: files by name
pub mod times; // times.rt: the runs of moments with the same listing

ghost use Rattle.std.specs.Prelude.{◌≡◌, ◌≤◌, length, replicate};
ghost use Rattle.layout.specs.Refusals.{key_limit};
ghost use Rattle.cut_write_log.specs.WriteLog.{logged_writes, Listed};
ghost use Rattle.script_run.specs.Script.{script_writes, script_limit};
ghost use Rattle.cut_answer.specs.Moments.{slot_of, last_moment};
ghost use Rattle.cut_answer.specs.Answers.{moment_answer, asked_answer, formed_answer, answered};
ghost use Rattle.cut_logged_calls.specs.LoggedCalls.{log_size};

use times::show_times;

// What is asked: all, or the listing of one moment.
#[derive(Clone, Copy)]
pub enum Ask {
    All,
    Moment(u64),
}

// What is answered: that the script is too long, its first wrong line, begin's refusal, that the moment is past the last, which is named, or what is asked.
#[derive(Clone, Copy)]
pub enum Answered {
    LongScript,
    WrongLine(usize),
    BeginRefused,
    PastTheLast(usize),
    Listed,
}

// Room for the bytes of all writes of a loading.
fn log_room() -> [u8; LOG_SIZE]
    ensures { result ≡ replicate log_size 0 }
{
    [0; LOG_SIZE]
}

// The listing of the slot at a moment.
fn print_slot<W: Write>(to: &mut W, earlier: &[u8], text: &[u8], moment: usize, slot: &[u8])
    requires { slot.now ≡ slot_of earlier.now text.now moment }
{
    let _ = print_listing(to, slot);
}

fn report_last<E: Write>(err: &mut E, last: usize) {
    write_all(err, b"cut: the last moment is ");
    print_decimal(err, last as u64);
    write_all(err, b"\n");
}

// The listing of one moment; the slot is a copy of the earlier one.
fn show_moment<W: Write, E: Write>(
    to: &mut W,
    err: &mut E,
    earlier: &[u8],
    text: &[u8],
    slot: &mut [u8],
    j: WriteLog,
    logged: &[u8],
    moment: u64,
) -> Answered
    requires listed { Listed j logged.now × (logged_writes j logged.now ≡ script_writes (length earlier.now) text.now) }
    requires slot_value { slot.old ≡ earlier.now }
    ensures { result ≡ moment_answer (last_moment (length earlier.now) text.now) moment }
{
    let last = j.total;
    if moment > last as u64 {
        report_last(err, last);
        return Answered::PastTheLast(last);
    }
    let places = j.places;
    let m = moment as usize;
    slot_at(slot, places, j.count, logged, m);
    print_slot(to, earlier, text, m, slot);
    Answered::Listed
}

// What is asked, of a slot that is a copy of the earlier one.
fn show<W: Write, E: Write>(
    to: &mut W,
    err: &mut E,
    earlier: &[u8],
    text: &[u8],
    slot: &mut [u8],
    j: WriteLog,
    logged: &[u8],
    ask: Ask,
) -> Answered
    requires listed { Listed j logged.now × (logged_writes j logged.now ≡ script_writes (length earlier.now) text.now) }
    requires slot_value { (slot.old ≡ earlier.now) × (length earlier.now ≤ key_limit) }
    ensures { result ≡ asked_answer (last_moment (length earlier.now) text.now) ask }
{
    match ask {
        Ask::All => {
            show_times(to, earlier, text, slot, j, logged);
            Answered::Listed
        }
        Ask::Moment(moment) => show_moment(to, err, earlier, text, slot, j, logged, moment),
    }
}

// The answer to a well-formed script. A refused begin's line is all of it.
fn answer_script<W: Write, E: Write>(
    to: &mut W,
    err: &mut E,
    earlier: &[u8],
    text: &[u8],
    ask: Ask,
) -> Answered
    requires { length text.now ≤ script_limit }
    ensures { result ≡ formed_answer (length earlier.now) text.now ask }
{
    let n = earlier.len();
    let mut logged = log_room();
    let verbose = matches!(ask, Ask::All);
    let Some(j) = load(Output { to, verbose }, text, n, &mut logged) else {
        return Answered::BeginRefused;
    };
    let mut slot = slot_room();
    put_bytes(&mut slot, 0, earlier);
    show(to, err, earlier, text, &mut slot[..n], j, &logged, ask)
}

// What is asked goes to `to`, what is said beside it to `err`.
pub fn answer<W: Write, E: Write>(
    to: &mut W,
    err: &mut E,
    earlier: &[u8],
    text: &[u8],
    ask: Ask,
) -> Answered
    ensures { result ≡ answered earlier.now text.now ask }
{
    if text.len() > SCRIPT_LIMIT {
        write_all(err, b"cut: SCRIPT is longer than 1,048,576 bytes\n");
        return Answered::LongScript;
    }
    if let Some(wrong) = wrong_line(text) {
        print_line(to, script_line(wrong));
        return Answered::WrongLine(wrong);
    }
    answer_script(to, err, earlier, text, ask)
}
