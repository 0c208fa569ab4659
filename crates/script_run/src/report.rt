// What is reported of a call.
use cut_report::{print_line, reply_line, write_line};
use cut_write_log::WriteLog;
use layout::refusal::Refusal;
use script_lines::kinds::Kind;
use std::io::Write;
use writer::Writes;

// Where calls are reported, and whether they are.
#[derive(Drop)]
pub struct Output<'a, W> {
    pub to: &'a mut W,
    pub verbose: bool,
}

// The writes logged from here on.
fn report_writes<W: Write>(to: &mut W, call: u64, log: WriteLog, from: usize) {
    for place in log.places.iter().take(log.count).skip(from) {
        print_line(to, write_line(call, *place));
    }
}

// Reports a call: its answer, and the writes that are logged from its first on.
pub(crate) fn report_call<W: Write>(
    to: &mut W,
    call: u64,
    answer: Result<Writes, Refusal>,
    log: WriteLog,
    from: usize,
) {
    print_line(to, reply_line(call, answer.map_err(|why| why.into())));
    report_writes(to, call, log, from);
}

// Whether a line makes a call: CHAN's is made at its PUSH.
fn makes_call(kind: Kind) -> bool {
    !matches!(
        kind,
        Kind::Nothing | Kind::Channel | Kind::Lent | Kind::Unknown
    )
}

// Reports a line's call, if it makes one and calls are reported; the next call's number.
pub(crate) fn report_line<W: Write>(
    v: &mut Output<'_, W>,
    call: u64,
    kind: Kind,
    answer: Result<Writes, Refusal>,
    log: WriteLog,
    from: usize,
) -> u64 {
    if !makes_call(kind) {
        return call;
    }
    if v.verbose {
        report_call(v.to, call, answer, log, from);
    }
    call.saturating_add(1)
}
