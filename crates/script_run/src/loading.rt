// A script's lines one after the other.
ghost use Rattle.std.specs.Prelude.{◌≡◌, ◌≤◌, ◌<◌, length, drop};
ghost use Rattle.script_words.specs.Texts.{lines_after, lines_of};
ghost use Rattle.writer.specs.Calls.{Good};
ghost use Rattle.cut_write_log.specs.WriteLog.{logging};
ghost use Rattle.script_run.specs.Script.{begun_length, calls_in, script_limit};
ghost use Rattle.script_run.specs.Running.{log_run, all_of, Follows, begin_refused, accepted_log, begun_log, load_log, loaded_by};

use crate::made::make;
use crate::report::{Output, report_call, report_line};
use cut_logged_calls::{LENT, Made, begin_logged};
use cut_write_log::WriteLog;
use layout::limits::{FILE_HEADER_SIZE, KEY_LIMIT, SLOT_LIMIT};
use layout::refusal::Refusal;
use script_groups::{lent_after, start_of};
use script_lines::kinds::{Kind, kind_of};
use script_lines::lines::begin_line;
use script_words::text::{line_at, next_line};
use std::io::Write;
use writer::{HpsWriter, Writes};

// The longest script.
pub const SCRIPT_LIMIT: usize = 1_048_576;

// Room for the bytes of all writes of a loading.
pub const LOG_SIZE: usize = KEY_LIMIT + FILE_HEADER_SIZE;

// A length that begin refuses with 7.
const TOO_LONG: usize = SLOT_LIMIT + 1;

// A loading under way: the record, the writes, how long the lent buffer is, and the next call's number.
#[derive(Clone, Copy)]
pub struct Loading {
    pub writer: HpsWriter,
    pub log: WriteLog,
    pub lent: usize,
    pub call: u64,
}

// The line that starts here.
fn load_line<W: Write>(
    v: &mut Output<'_, W>,
    s: &[u8],
    at: usize,
    next: usize,
    st: Loading,
    logged: &mut [u8],
) -> Loading
    requires good { Good st.writer × (length s.now ≤ script_limit) }
    requires at_in_bounds { (at < length s.now) × (drop next s.now ≡ lines_after (drop at s.now)) }
    ensures { Follows s.now at st logged.old result logged.new }
{
    let line = line_at(s, at);
    let kind = kind_of(line);
    let writer = st.writer;
    let before = st.log;
    let m = make(s, next, line, kind, writer, st.lent, before, logged);
    Loading {
        writer: m.writer,
        log: m.log,
        lent: lent_after(line, kind, st.lent),
        call: report_line(v, st.call, kind, m.answer, m.log, before.count),
    }
}

// The lines from here on.
fn load_lines<W: Write>(
    v: &mut Output<'_, W>,
    s: &[u8],
    from: usize,
    start: Loading,
    logged: &mut [u8],
) -> Loading
    requires { Good start.writer × (length s.now ≤ script_limit) }
    ensures { logging result.log logged.new ≡ all_of start logged.old (lines_of (drop from s.now)) }
{
    let mut st = start;
    let mut at = from;
    // A while: a line's call looks at the lines after it, from the place that next_line says.
    while at < s.len() {
        let next = next_line(s, at);
        st = load_line(v, s, at, next, st, logged);
        at = next;
    }
    st
}

// The length that begin is given. A slot that is too long to be listed gets 7, as from `key`.
fn begun_length(n: usize) -> usize
    ensures { result ≡ begun_length n }
{
    if n > KEY_LIMIT {
        return TOO_LONG;
    }
    n
}

// The calls after an accepted begin, of the lines from here on.
fn load_rest<W: Write>(
    v: &mut Output<'_, W>,
    s: &[u8],
    from: usize,
    m: Made,
    lent: usize,
    logged: &mut [u8],
) -> WriteLog
    requires { Good m.writer × (length s.now ≤ script_limit) }
    ensures value { result ≡ (log_run m.writer (logging m.log logged.old) (calls_in lent (lines_of (drop from s.now)))).log }
    ensures logged_after { logged.new ≡ (log_run m.writer (logging m.log logged.old) (calls_in lent (lines_of (drop from s.now)))).bytes }
{
    let writer = m.writer;
    let log = m.log;
    let start = Loading {
        writer,
        log,
        lent,
        call: 1,
    };
    load_lines(v, s, from, start, logged).log
}

// Tells begin's call: its refusal in every case, since it is the whole answer then.
fn report_begin<W: Write>(v: &mut Output<'_, W>, answer: Result<Writes, Refusal>, log: WriteLog) {
    if v.verbose || answer.is_err() {
        report_call(v.to, 0, answer, log, 0);
    }
}

// The calls of a script that is not too long; none where begin is refused.
fn load_script<W: Write>(
    v: &mut Output<'_, W>,
    s: &[u8],
    slot: usize,
    logged: &mut [u8],
) -> Option<WriteLog>
    requires { length s.now ≤ script_limit }
    ensures value { result ≡ accepted_log (begin_refused slot s.now) (begun_log slot s.now logged.old).log }
    ensures logged_after { logged.new ≡ (begun_log slot s.now logged.old).bytes }
{
    let start = start_of(s, LENT);
    let line = begin_line(line_at(s, start.at));
    let m = begin_logged(
        begun_length(slot),
        line.channels,
        line.mode,
        start.lent,
        logged,
    );
    report_begin(v, m.answer, m.log);
    if m.answer.is_err() {
        return None;
    }
    let next = next_line(s, start.at);
    Some(load_rest(v, s, next, m, start.lent, logged))
}

// The calls of a well-formed script on a slot of this length, and the writes that they leave; none where begin is refused, which ends the script, and where no
// call is made, the script being too long or the room for the writes too small.
pub fn load<W: Write>(
    mut v: Output<'_, W>,
    s: &[u8],
    slot: usize,
    logged: &mut [u8],
) -> Option<WriteLog>
    ensures value { result ≡ loaded_by slot s.now logged.old }
    ensures logged_after { logged.new ≡ (load_log slot s.now logged.old).bytes }
{
    if s.len() > SCRIPT_LIMIT {
        return None; // too long
    }
    if logged.len() < LOG_SIZE {
        return None;
    }
    load_script(&mut v, s, slot, logged)
}
