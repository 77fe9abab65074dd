//! What is chosen among.

ghost use Rattle.std.specs.Prelude.{◌≡◌, int_lt, if◌then◌else◌};

use ih_plan::Write;

/// A write, and the score of what it changes in the bill.
#[derive(Clone, Copy, Debug, PartialEq, Eq)]
pub struct Candidate {
    pub write: Write,
    pub value: i64,
}

/// The candidate of less value, and the first on a tie.
pub fn cheaper(first: Candidate, second: Candidate) -> Candidate
    ensures { result ≡ (if int_lt second.value first.value then second else first) }
{
    if second.value < first.value {
        second
    } else {
        first
    }
}
