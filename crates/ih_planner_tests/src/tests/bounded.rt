//! Whole calls of improve that tell what no plan costs less than.

use crate::tests::program::{goes, goes_by};
use ih_commands::TestWatch;

// The bound of the two patients is 56, their least cost 70, and 95 where the first day may not change. It stands before the
// first line, in one put with it. Of the ward the bound is the cost itself.
const TOLD: &str = "
> lay two admitted
> says 0 improve i o --seed 1 --workers 1 --attempts 2000 --rounds 2 --hot 50 --cold 1 --start s --keep 0 --bound
no feasible timetable costs less than 56
round 1 of 2: 1000 attempts, cost 70, temperature 7, at most 25.0 % above the best
round 2 of 2: 2000 attempts, cost 70, temperature 1, at most 25.0 % above the best
report 0 0 0 0 0 0 0 0 0, 0 0 3 0 2 0 1 0, 70
> says 0 improve i o --seed 0 --workers 2 --attempts 2000 --rounds 2 --hot 0 --cold 0 --start s --keep 0 --freeze 1 --replace --bound
no feasible timetable costs less than 56
round 1 of 2: 2000 attempts, cost 95, temperature 0, at most 69.7 % above the best
round 2 of 2: 4000 attempts, cost 95, temperature 0, at most 69.7 % above the best
report 0 0 0 0 0 0 0 0 0, 1 2 3 0 2 0 1 0, 95
> says 0 improve i o --bound --workers 1 --attempts 0 --rounds 1 --hot 0 --cold 0 --start s --keep 0 --replace
no feasible timetable costs less than 56
round 1 of 1: 0 attempts, cost 159, temperature 0, at most 184.0 % above the best
report 0 0 0 0 0 0 0 0 0, 1 2 2 0 1 0 0 1, 159
> cut 1 6 improve i p --bound --workers 1 --attempts 0 --rounds 1 --hot 0 --cold 0 --start s --keep 0
> cut 2 6 improve i q --bound --workers 1 --attempts 0 --rounds 1 --hot 0 --cold 0 --start s --keep 0
no feasible timetable costs less than 56
round 1 of 1: 0 attempts, cost 159, temperature 0, at most 184.0 % above the best
> same p q
> lay ward uncovered
> says 0 improve i r --seed 0 --workers 1 --attempts 1000 --rounds 2 --hot 0 --cold 0 --empty --bound
no feasible timetable costs less than 12
round 1 of 2: 500 attempts, cost 12, temperature 0, at most 0.0 % above the best
round 2 of 2: 1000 attempts, cost 12, temperature 0, at most 0.0 % above the best
report 0 0 0 0 0 0 0 0 0, 0 1 1 0 0 0 0 0, 12
";

#[test]
fn shares_are_told(rt: HostRuntime) {
    goes(&rt, rt.alloc(), TOLD);
}

// As long as none is feasible nothing is added, and nothing where the best may cost nothing. Where no feasible timetable
// exists, that is said, and the search goes on.
const UNTOLD: &str = r#"
> lay two uncovered
> says 5 improve i o --workers 1 --attempts 0 --rounds 1 --hot 0 --cold 0 --start s --keep 0 --bound
no feasible timetable costs less than 56
round 1 of 1: 0 attempts, none yet, temperature 0
none found
> no o
> change i two
"max_surgery_time":[100,100]
"max_surgery_time":[0,0]
> says 5 improve i o --attempts 200 --rounds 2 --workers 2 --hot 0 --cold 0 --empty --bound
no feasible timetable exists
round 1 of 2: 200 attempts, none yet, temperature 0
round 2 of 2: 400 attempts, none yet, temperature 0
none found
> no o
> change i ward
"continuity_of_care":2
"continuity_of_care":0
> change i i
"room_nurse_skill":10
"room_nurse_skill":0
> says 0 improve i o --seed 0 --workers 1 --attempts 1000 --rounds 1 --hot 0 --cold 0 --empty --bound
no feasible timetable costs less than 0
round 1 of 1: 1000 attempts, cost 0, temperature 0
…
cost 0
> each 1 error: …'--help'.
improve i o --bound --bound
improve i o --bound 56
> 2 improve k o --bound
cannot read k
"#;

#[test]
fn nothing_is_told(rt: HostRuntime) {
    goes(&rt, rt.alloc(), UNTOLD);
}

// By the clock the share stands behind what that says. The clock is first asked once the bound is there.
const BY_THE_CLOCK: &str = "
> lay ward uncovered
> says 0 improve i o --seconds 10 --seed 0 --workers 1 --hot 0 --cold 0 --empty --bound
no feasible timetable costs less than 12
round 1: 1000 attempts, cost 12, temperature 0, 0 s left, 50 attempts a second, at most 0.0 % above the best
report 0 0 0 0 0 0 0 0 0, 0 1 1 0 0 0 0 0, 12
";

#[test]
fn shares_are_told_by_the_clock(rt: HostRuntime) {
    goes_by(&rt, rt.alloc(), TestWatch::every(20_000_000), BY_THE_CLOCK);
}
