//! What any search may be asked for at most.

/// The most workers of a search. There is at least one.
pub const MAX_WORKERS: u32 = 64;
/// The highest heat.
pub const MAX_HEAT: u32 = 1_000_000;
/// The highest weight of a broken hard rule.
pub const MAX_HARD: u32 = 1_000_000;
/// The last freeze day. With it no choice may change, since no horizon is longer.
pub const MAX_FREEZE: u32 = 56;
