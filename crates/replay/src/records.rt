// The recorded input's records, one after the other: a head, whose last four bytes say how long the body after it is, and the body.
ghost use Rattle.std.specs.Prelude.{length};
ghost use Rattle.std.specs.Iterator.{at_most};

use replay_input::size;

// The head is what is left of the input where that is shorter; the body is there if it is wholly there.
#[derive(Clone, Copy)]
pub(crate) struct Record<'a> {
    pub head: &'a [u8],
    pub body: Option<&'a [u8]>,
}

// What is left of the input. A head's length stands at AT, and counts by EACH bytes.
#[derive(Drop)]
pub(crate) struct Records<'a, const AT: usize, const EACH: usize>(pub &'a [u8]);

impl<'a, const AT: usize, const EACH: usize> Iterator for Records<'a, AT, EACH> {
    type Item = Record<'a>;

    ghost remaining = { λ s. at_most (length s.0.now) };

    fn next(&mut self) -> Option<Record<'a>> {
        let rest = self.0;
        if rest.is_empty() {
            return None;
        }
        let end = AT.saturating_add(4);
        let head = rest.get(..end).unwrap_or(rest);
        let after = rest.get(end..).unwrap_or(&[]);
        let n = EACH.saturating_mul(size(head, AT));
        self.0 = after.get(n..).unwrap_or(&[]);
        Some(Record {
            head,
            body: after.get(..n),
        })
    }
}
