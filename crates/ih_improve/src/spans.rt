//! What a round is to do: how many attempts each worker makes, and over which part of the search's schedule.

/// A round's part of a search. The heat falls over the whole schedule, which is counted in attempts or in time. Any
/// numbers will do: nothing that is promised rests on them.
#[derive(Clone, Copy, Debug, PartialEq, Eq)]
pub struct Span {
    /// How many attempts each worker makes.
    pub attempts: u64,
    /// Where in the schedule the round begins.
    pub from: u64,
    /// Where it ends.
    pub to: u64,
    /// How long the schedule is.
    pub whole: u64,
    /// Whether hardly anything dearer is accepted, wherever the round stands.
    pub is_cold: bool,
}

impl Span {
    /// The place in the schedule of one of the round's attempts, which are spread evenly over its part.
    pub(crate) fn place_of(&self, attempt_no: u64) -> u64 {
        let length = self.to.saturating_sub(self.from);
        let passed = if length == self.attempts {
            attempt_no
        } else {
            length.saturating_mul(attempt_no) / self.attempts.max(1)
        };
        self.from.saturating_add(passed)
    }
}
