// Recorded cases of the Rust's answers, and of the estimate, held to our calls. Standard input has the cases one after the other, each a kind
// (1 slot, 2 loading, 3 estimate, 4 decoding), a length (both u32, big-endian) and so many bytes; tests/oracle/cases.py makes them and says what lies where.
// Prints each case in which something is other than recorded, with its place there, then the counts.
#![tactic(auto)]

use crate::decoding::decoding_case;
use crate::estimates::estimate_case;
use crate::loading::loading_case;
use crate::records::Records;
use crate::slot::slot_case;
use host_io::{print_decimal, read_full, write_all};
use layout_number_or_zero::word;
use replay_input::input_room;
use replay_input::report::report_case;
use std::io::Write;

mod answers; // answers.rt: how an answer is recorded
mod decoding; // decoding.rt: the blocks of a slot decoded into lent places
mod estimates; // estimates.rt: the estimate
mod loading; // loading.rt: begin, cues, pushes and finish over a slot's earlier content
mod records; // records.rt: the records of which the input and most cases are made
mod slot; // slot.rt: the listing of a slot and every block read

const CASES: usize = 100000;

// What a case holds our calls to.
#[derive(Clone, Copy, Debug, PartialEq, Eq)]
enum Kind {
    Slot,
    Loading,
    Estimate,
    Decoding,
}

// A number that says no kind.
#[derive(Clone, Copy, Debug, PartialEq, Eq)]
struct UnknownKind(u32);

impl TryFrom<u32> for Kind {
    type Error = UnknownKind;

    fn try_from(number: u32) -> Result<Kind, UnknownKind> {
        match number {
            1 => Ok(Kind::Slot),
            2 => Ok(Kind::Loading),
            3 => Ok(Kind::Estimate),
            4 => Ok(Kind::Decoding),
            _ => Err(UnknownKind(number)),
        }
    }
}

// The place of the first thing that is not as recorded.
fn other_in(number: u32, body: &[u8]) -> Option<usize> {
    match Kind::try_from(number) {
        Ok(Kind::Slot) => slot_case(body),
        Ok(Kind::Loading) => loading_case(body),
        Ok(Kind::Estimate) => estimate_case(body),
        Ok(Kind::Decoding) => decoding_case(body),
        Err(_) => Some(1),
    }
}

// The last line.
fn report_counts<W: Write>(to: &mut W, cases: usize, others: usize) {
    print_decimal(to, cases as u64);
    write_all(to, b" cases, ");
    print_decimal(to, others as u64);
    write_all(to, b" other\n");
}

fn run<W: Write>(to: &mut W, all: &[u8]) {
    let mut others: usize = 0;
    let mut recorded = Records::<4, 1>(all);
    for case in 0..CASES {
        let Some(record) = recorded.next() else {
            report_counts(to, case, others);
            return;
        };
        let place = other_in(word(record.head, 0), record.body.unwrap_or(&[]));
        others += report_case(to, case, place);
    }
    report_counts(to, CASES, others);
}

fn main(rt: HostRuntime) {
    let mut input = input_room();
    let n = read_full(&mut rt.stdin(), &mut input);
    run(&mut rt.stdout(), &input[..n]);
}
