//! Whole calls of improve by the clock, over files in memory and a watch that is told what to say.

use crate::tests::program::goes_by;
use ih_commands::TestWatch;

// A round has a fortieth of the time, by the rate of the one before; the watch says that each takes a second. Then the
// same with all options left out but the start, as far as a test can be without the number of processors.
const BY_THE_CLOCK: &str = "
> lay ward uncovered
> says 0 improve i o --seconds 10 --seed 0 --workers 1 --hot 0 --cold 0 --empty
round 1: 1000 attempts, cost 12, temperature 0, 9 s left, 1000 attempts a second
round 2: 1250 attempts, cost 12, temperature 0, 8 s left, 250 attempts a second
round 3: 1312 attempts, cost 12, temperature 0, 7 s left, 62 attempts a second
…
round 10: 1335 attempts, cost 12, temperature 0, 0 s left, 1 attempts a second
report 0 0 0 0 0 0 0 0 0, 0 1 1 0 0 0 0 0, 12
> is o
= covered
> alike
improve i o --seconds 10 --seed 1 --workers 2 --empty --replace
improve i p --seconds 10 --workers 2 --rounds 40 --empty --replace
> same o p
> alike
improve i o --seconds 10 --workers 1 --replace
improve i p --seconds 10 --workers 1 --fill --replace
> same o p
> each 1 error: …'--help'.
improve i o --seconds 1 --attempts 1
improve i o --seconds 0
improve i o --seconds 604801
improve i o --empty --fill
improve i o --empty --start s --keep 0
improve i o --freeze 1
";

#[test]
fn a_ward_is_improved_by_the_clock(rt: HostRuntime) {
    goes_by(&rt, rt.alloc(), TestWatch::every(1_000_000), BY_THE_CLOCK);
}

// Nothing but the names of two files is typed.
const NOTHING_ELSE: &str = "
> lay ward uncovered
> says 0 improve i o
round 1: …
cost 12
> is o
= covered
";

#[test]
fn two_names_are_enough(rt: HostRuntime) {
    goes_by(&rt, rt.alloc(), TestWatch::every(20_000_000), NOTHING_ELSE);
}

// The last fiftieth of the time is one round at temperature 0, however hot the others are.
const COLD_AT_LAST: &str = "
> lay two uncovered
> says 0 improve i o --seconds 10 --seed 1 --workers 1 --hot 50 --cold 50 --start s --keep 0
round 1: 1000 attempts, cost 70, temperature …
round 3: 1053 attempts, cost 70, temperature 0, 0 s left, 0 attempts a second
report 0 0 0 0 0 0 0 0 0, 0 0 3 0 2 0 1 0, 70
";

#[test]
fn the_last_round_is_cold(rt: HostRuntime) {
    goes_by(&rt, rt.alloc(), TestWatch::every(4_900_000), COLD_AT_LAST);
}

// The search ends after the first round, as if time were over, and its best is written.
const ONE_ROUND: &str = "
> lay ward uncovered
> says 0 improve i o --seconds 10 --seed 0 --workers 1 --hot 0 --cold 0 --empty
round 1: 1000 attempts, cost 12, temperature 0, 10 s left, 0 attempts a second
report 0 0 0 0 0 0 0 0 0, 0 1 1 0 0 0 0 0, 12
> is o
= covered
";

// The search ends after the second round, of which no time is known, and its best is written.
const TWO_ROUNDS: &str = "
> lay ward uncovered
> says 0 improve i o --seconds 10 --seed 0 --workers 1 --hot 0 --cold 0 --empty
round 1: 1000 attempts, cost 12, temperature 0, 9 s left, 1000 attempts a second
round 2: 1250 attempts, cost 12, temperature 0, 9 s left, 1000 attempts a second
report 0 0 0 0 0 0 0 0 0, 0 1 1 0 0 0 0 0, 12
> is o
= covered
";

#[test]
fn a_watch_may_fail(rt: HostRuntime) {
    let alloc = rt.alloc();
    let watch = TestWatch::every(1_000_000);
    goes_by(&rt, alloc, watch.but(0, None), ONE_ROUND);
    goes_by(&rt, alloc, watch.but(1, None), ONE_ROUND);
    goes_by(&rt, alloc, watch.but(2, None), TWO_ROUNDS);
}

// Once time is over a long time ago.
const A_JUMP: &str = "
> lay ward uncovered
> says 0 improve i o --seconds 10 --seed 0 --workers 1 --hot 0 --cold 0 --empty
round 1: 1000 attempts, cost 12, temperature 0, 9 s left, 1000 attempts a second
round 2: 1250 attempts, cost 12, temperature 0, 0 s left, 0 attempts a second
report 0 0 0 0 0 0 0 0 0, 0 1 1 0 0 0 0 0, 12
";

// It goes back, stands still, or jumps a year.
#[test]
fn a_watch_may_say_anything(rt: HostRuntime) {
    let alloc = rt.alloc();
    let watch = TestWatch::every(1_000_000);
    goes_by(&rt, alloc, watch.but(2, Some(0)), TWO_ROUNDS);
    goes_by(&rt, alloc, watch.but(2, Some(1_000_000)), TWO_ROUNDS);
    goes_by(&rt, alloc, watch.but(2, Some(31_536_000_000_000)), A_JUMP);
    goes_by(&rt, alloc, watch.but(2, Some(u64::MAX)), A_JUMP);
}
