//! Whole calls of improve that stay near their start.

use crate::tests::program::goes;

// By hand, from the mandatory patient's plan of cost 159: a nurse of more skill at the first night gains 16 for one change;
// the other patient, with a nurse at three shifts, gains 64 for four. Nothing else gains as much as 10 a change. At equal
// sums the fewer changes are the better ones.
const NEAR: &str = "
> lay two admitted
> says 0 improve i o --seed 0 --workers 1 --attempts 4000 --rounds 4 --hot 50 --cold 1 --start s --keep 10
round 1 of 4: 1000 attempts, cost …
5 changes: 1 patients, 4 nurses' shifts
cost before: 159, after: 79
> says 0 improve i o --seed 0 --workers 2 --attempts 4000 --rounds 4 --hot 50 --cold 1 --start s --keep 15 --replace
round 1 of 4: 2000 attempts, cost …
5 changes: 1 patients, 4 nurses' shifts
cost before: 159, after: 79
> says 0 improve i o --seed 0 --workers 2 --attempts 4000 --rounds 4 --hot 50 --cold 1 --start s --keep 16 --replace
round 1 of 4: 2000 attempts, cost 159, …
0 changes: 0 patients, 0 nurses' shifts
cost before: 159, after: 159
> says 0 improve i o --seed 0 --workers 2 --attempts 4000 --rounds 4 --hot 50 --cold 1 --start s --keep 1000000 --replace
round 1 of 4: 2000 attempts, cost 159, …
0 changes: 0 patients, 0 nurses' shifts
cost before: 159, after: 159
> # what weighs nothing isn't told; where no number is given, it is ten times the middle weight, which is 5
> says 0 improve i o --seed 0 --workers 1 --attempts 2000 --rounds 2 --hot 50 --cold 1 --start s --keep 0 --replace
round 1 of 2: 1000 attempts, …
cost 70
> alike
improve i o --seed 0 --workers 1 --attempts 2000 --rounds 2 --start s --replace
improve i p --seed 0 --workers 1 --attempts 2000 --rounds 2 --start s --keep 50 --replace
> same o p
";

#[test]
fn changes_weigh(rt: HostRuntime) {
    goes(&rt, rt.alloc(), NEAR);
}

// From nobody and no nurses, which breaks rules: the mandatory patient's room has somebody on both days, so each plan has
// seven changes, and four more with the other patient, who is worth 68.
const MENDED: &str = "
> lay two uncovered
> says 0 improve i o --seed 0 --workers 1 --attempts 4000 --rounds 4 --start s --keep 1
round 1 of 4: …
11 changes: 2 patients, 9 nurses' shifts
cost before: none, rules are broken, after: 70
> says 0 improve i o --seed 0 --workers 1 --attempts 4000 --rounds 4 --start s --keep 1000000 --replace
round 1 of 4: …
7 changes: 1 patients, 6 nurses' shifts
cost before: none, rules are broken, after: 138
> # a plan of OUT that is no worse, by its cost and its changes, stays
> says 0 improve i o --seed 0 --workers 1 --attempts 0 --rounds 1 --start s --keep 1
round 1 of 1: 0 attempts, none yet, temperature …
cost 138
";

#[test]
fn what_breaks_rules_is_mended(rt: HostRuntime) {
    goes(&rt, rt.alloc(), MENDED);
}

// What is pinned stays, whatever that costs. An id that no patient has is named, the first of them.
const PINNED: &str = "
> lay two admitted
> says 0 improve i o --seed 0 --workers 1 --attempts 4000 --rounds 4 --start s --keep 10 --pin p1
round 1 of 4: 1000 attempts, cost …
1 changes: 0 patients, 1 nurses' shifts
cost before: 159, after: 143
> says 0 improve i o --seed 0 --workers 1 --attempts 4000 --rounds 4 --start s --keep 10 --pin-nurses --replace
round 1 of 4: 1000 attempts, cost …
4 changes: 1 patients, 3 nurses' shifts
cost before: 159, after: 95
> says 0 improve i o --seed 0 --workers 2 --attempts 4000 --rounds 4 --start s --keep 1 --pin p0 --pin p1 --pin-nurses --replace
round 1 of 4: 2000 attempts, cost 159, …
0 changes: 0 patients, 0 nurses' shifts
cost before: 159, after: 159
> says 0 improve i o --seed 0 --workers 2 --attempts 4000 --rounds 4 --hot 50 --cold 1 --start s --keep 0 --pin p0 --replace
round 1 of 4: …
cost 75
> # a patient who breaks a rule stays so: nothing feasible is there
> lay two uncovered
> says 5 improve i p --seed 0 --workers 1 --attempts 400 --rounds 2 --start s --keep 1 --pin p0
round 1 of 2: 200 attempts, none yet, temperature …
none found
> no p
> each 4 unknown patient: p9
improve i p --workers 1 --attempts 9 --start s --pin p9
improve i p --workers 1 --attempts 9 --start s --pin p1 --pin p9 --pin p8 --pin p0
> 4 improve i p --workers 1 --attempts 9 --start s --pin P1 --pin p9
unknown patient: P1
> no p
";

#[test]
fn what_is_pinned_stays(rt: HostRuntime) {
    goes(&rt, rt.alloc(), PINNED);
}

// What needs a start, and the limit of a number.
const WORDS: &str = "
> store i
= ward
> each 1 error: …'--help'.
improve i o --keep 1
improve i o --keep 0
improve i o --pin p0
improve i o --pin-nurses
improve i o --start s --fill --keep 1
improve i o --start s --fill --pin p0
improve i o --start s --fill --pin-nurses
improve i o --start s --keep 1000001
improve i o --start s --keep 1 --keep 2
> no o
> each 2 cannot read k
improve k o --start s --keep 1000000 --pin p0 --pin p0 --pin-nurses
";

#[test]
fn words_of_repairs(rt: HostRuntime) {
    goes(&rt, rt.alloc(), WORDS);
}
