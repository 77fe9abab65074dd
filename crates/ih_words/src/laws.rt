//! What words say of the call that they name, on a function that does nothing.

ghost use Rattle.ih_words.specs.Words.{NamedCallsAreWithinLimits};

/// Chains that some words name have from 1 to 8 moves, and rounds are from 1 to 16; workers times moves times that
/// number is at most a million, nothing is frozen, and no stale move is tried again.
pub fn named_calls_are_within_limits()
    ensures { NamedCallsAreWithinLimits }
{}
