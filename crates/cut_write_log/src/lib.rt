// Writes logged for later: their places, and their bytes one after the other.
#![tactic(auto)]

ghost use Rattle.std.specs.Prelude.{◌≡◌, ℕ, [], ◌∷◌};
ghost use Rattle.writer.specs.Calls.{places_in, reply_by};
ghost use Rattle.cut_write_log.specs.WriteLog.{empty_log, logging, log_one, log_all};

use layout::fields::inside;
use layout_put::put_bytes;
use writer::{MOST_WRITES, Place, Writes};

// As many writes as a loading hands out; in an array with their count, since the code allocates nothing.
#[derive(Clone, Copy)]
pub struct WriteLog {
    pub count: usize,
    pub total: usize,
    pub places: [Place; MOST_WRITES],
}

pub fn empty_log() -> WriteLog
    ensures { result ≡ empty_log }
{
    let nowhere = Place {
        offset: 0,
        length: 0,
    };
    WriteLog {
        count: 0,
        total: 0,
        places: [nowhere; MOST_WRITES],
    }
}

// A write more, whose bytes lie in the lent buffer from here on. Where there is no room, nothing is logged.
fn log_write(j: WriteLog, place: Place, lent: &[u8], from: usize, logged: &mut [u8]) -> WriteLog
    ensures { logging result logged.new ≡ log_one (logging j logged.old) lent.now from place }
{
    let i = j.count;
    let at = j.total;
    let n = place.length;
    if i < MOST_WRITES {
        if inside(lent.len(), from, n) {
            if inside(logged.len(), at, n) {
                let end = from + n;
                put_bytes(logged, at, &lent[from..end]);
                let mut places = j.places;
                places[i] = place;
                return WriteLog {
                    count: i + 1,
                    total: at + n,
                    places,
                };
            }
        }
    }
    j
}

// Three writes one after the other. Where the second's bytes do not lie in the lent buffer, the third's do not.
fn log_three(
    j: WriteLog,
    start: Place,
    rest: Place,
    mark: Place,
    lent: &[u8],
    logged: &mut [u8],
) -> WriteLog
    ensures { logging result logged.new ≡ log_all (logging j logged.old) lent.now 0 (start ∷ rest ∷ mark ∷ []) }
{
    if inside(lent.len(), start.length, rest.length) {
        let end = start.length + rest.length;
        let one = log_write(j, start, lent, 0, logged);
        let two = log_write(one, rest, lent, start.length, logged);
        return log_write(two, mark, lent, end, logged);
    }
    log_write(j, start, lent, 0, logged)
}

// The writes that a call hands out. A refusal hands out none, by whatever number.
pub fn log_reply<E: Copy>(
    j: WriteLog,
    answer: Result<Writes, E>,
    lent: &[u8],
    logged: &mut [u8],
) -> WriteLog
    ensures value { (number : E → ℕ) → result ≡ (log_all (logging j logged.old) lent.now 0 (places_in (reply_by number answer))).log }
    ensures logged_after { (number : E → ℕ) → logged.new ≡ (log_all (logging j logged.old) lent.now 0 (places_in (reply_by number answer))).bytes }
{
    match answer {
        Err(_) => j,
        Ok(Writes::None) => j,
        Ok(Writes::One(place)) => log_write(j, place, lent, 0, logged),
        Ok(Writes::Three(_, start, rest, mark)) => log_three(j, start, rest, mark, lent, logged),
    }
}
