// Answers as they are recorded: 0 with a value, the number of the refusal, 4,294,967,295 at the end.
use layout::refusal::Refusal;

pub(crate) const END: u32 = 4294967295;

pub(crate) fn is_value(answer: Result<u64, Refusal>, number: u32, value: u64) -> bool {
    match answer {
        Ok(given) => number == 0 && given == value,
        Err(refusal) => number == u32::from(refusal),
    }
}
