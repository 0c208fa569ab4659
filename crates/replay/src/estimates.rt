// The estimate, held to recorded answers.
use crate::answers::is_value;
use layout_number_or_zero::{long, word};
use replay_calls::estimate_at;

// 0 the number of the refusal, or 0; then what the estimate is given; 32 the estimate.
pub(crate) fn estimate_case(body: &[u8]) -> Option<usize> {
    if is_value(estimate_at(body), word(body, 0), long(body, 32)) {
        None
    } else {
        Some(1)
    }
}
