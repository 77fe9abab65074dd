//! Why a journal is refused, and at which line.

/// What is wrong with a journal's line.
#[derive(Clone, Copy, Debug, PartialEq, Eq)]
pub enum Reason {
    /// Line 1 is no heading with its line feed.
    Heading,
    /// Every worker has made all its attempts, and bytes follow.
    Extra,
    /// The line is of no entry, or the bytes end without its line feed.
    Grammar,
    /// The place isn't that of the line.
    Place,
    /// There is no such worker, or it has made all its attempts.
    Worker,
    /// The number isn't that of the worker's next attempt.
    Number,
    /// The try isn't that of the worker's next attempt.
    Try,
    /// The worker can't have seen so many entries, or must have seen more.
    Seen,
    /// The move isn't the worker's draw.
    Move,
    /// The price isn't the move's at what the worker had seen.
    Price,
    /// The verdict isn't the one that follows.
    Verdict,
    /// The bytes end before every worker has made all its attempts.
    Early,
}

/// The first line of a journal that isn't the legal next one, and why.
#[derive(Clone, Copy, Debug, PartialEq, Eq)]
pub struct JournalRefusal {
    /// The line, from 1; the heading is line 1.
    pub line: u64,
    /// What is wrong with it.
    pub reason: Reason,
}
