//! Whole calls of improve, over files in memory.

use crate::tests::program::goes;

// The ward's only feasible timetable has a cost of 12. It is found from nothing and from a start that breaks a rule. A
// fault of the write after which nothing better is found doesn't come up. Standard output is full from the first, the
// second or the third text on: the plan is written before its line. A start that keeps to all rules and may not be
// changed is the best; one that breaks a rule stays as it is.
const ON_THE_WARD: &str = "
> lay ward uncovered
> fail-write 2 0
> says 0 improve i o --seed 0 --workers 1 --attempts 1000 --rounds 2 --hot 0 --cold 0 --empty
round 1 of 2: 500 attempts, cost 12, temperature 0
round 2 of 2: 1000 attempts, cost 12, temperature 0
report 0 0 0 0 0 0 0 0 0, 0 1 1 0 0 0 0 0, 12
> is o
= covered
> # the fault comes up with the next write
> says 6 improve i p --seed 0 --workers 1 --attempts 1000 --rounds 2 --hot 0 --cold 0 --empty --replace
cannot write p
> alike
improve i o --seed 0 --workers 1 --attempts 1000 --rounds 2 --hot 0 --cold 0 --empty --replace
improve i p --seed 0 --workers 1 --attempts 1000 --rounds 2 --hot 0 --cold 0 --start s --keep 0 --replace
> same o p
> cut 1 6 improve i q --seed 0 --workers 1 --attempts 1000 --rounds 2 --hot 0 --cold 0 --empty --replace
> is q
= covered
> cut 2 6 improve i q --seed 0 --workers 1 --attempts 1000 --rounds 2 --hot 0 --cold 0 --empty --replace
round 1 of 2: 500 attempts, cost 12, temperature 0
> cut 3 6 improve i q --seed 0 --workers 1 --attempts 1000 --rounds 2 --hot 0 --cold 0 --empty --replace
round 1 of 2: 500 attempts, cost 12, temperature 0
round 2 of 2: 1000 attempts, cost 12, temperature 0
> store r
an older plan
> says 5 improve i r --seed 0 --workers 2 --attempts 100 --rounds 1 --hot 0 --cold 0 --start s --keep 0 --freeze 1 --replace
round 1 of 1: 200 attempts, none yet, temperature 0
none found
> is r
an older plan
> lay ward covered-start
> says 0 improve i r --seed 0 --workers 2 --attempts 100 --rounds 1 --hot 0 --cold 0 --start s --keep 0 --freeze 1 --replace
round 1 of 1: 200 attempts, cost 12, temperature 0
V1 0
…
cost 12
> is r
= covered
";

#[test]
fn a_ward_is_improved(rt: HostRuntime) {
    goes(&rt, rt.alloc(), ON_THE_WARD);
}

// The least cost of the two patients' timetables is 70, as trying all of them shows, and 95 where the first day may not
// change: then the second patient has the one theatre or the other. What is written costs what is said. Where the
// mandatory patient's surgeon never works, nothing is found and nothing is written.
const ON_TWO: &str = r#"
> lay two uncovered
> says 0 improve i o --seed 1 --workers 1 --attempts 2000 --rounds 2 --hot 50 --cold 1 --start s --keep 0
round 1 of 2: 1000 attempts, cost 70, temperature 7
round 2 of 2: 2000 attempts, cost 70, temperature 1
report 0 0 0 0 0 0 0 0 0, 0 0 3 0 2 0 1 0, 70
> says 0 bound i o
no feasible timetable costs less than 56
…
this one costs 70, at most 25.0 % above the best
> lay two admitted
> says 0 improve i o --seed 0 --workers 2 --attempts 2000 --rounds 2 --hot 0 --cold 0 --start s --keep 0 --freeze 1 --replace
round 1 of 2: 2000 attempts, cost 95, temperature 0
round 2 of 2: 4000 attempts, cost 95, temperature 0
report 0 0 0 0 0 0 0 0 0, 1 2 3 0 2 0 1 0, 95
> is o
{"nurses":[{"assignments":[{"day":0,"rooms":["r0"],"shift":"early"},{"day":0,"rooms":["r0"],"shift":"late"},{"day":0,"rooms":["r0"],"shift":"night"},{"day":1,"rooms":["r0"],"shift":"early"},{"day":1,"rooms":["r0"],"shift":"late"},{"day":1,"rooms":["r0"],"shift":"night"}],"id":"n0"},{"assignments":[{"day":1,"rooms":["r1"],"shift":"early"},{"day":1,"rooms":["r1"],"shift":"late"},{"day":1,"rooms":["r1"],"shift":"night"}],"id":"n1"}],"patients":[{"admission_day":0,"id":"p0","operating_theater":"t0","room":"r0"},{"admission_day":1,"id":"p1","operating_theater":"t…","room":"r1"}]}
> change i two
"max_surgery_time":[100,100]
"max_surgery_time":[0,0]
> store o
an older plan
> says 5 improve i o --seed 0 --workers 2 --attempts 200 --rounds 2 --hot 0 --cold 0 --empty --replace
round 1 of 2: 200 attempts, none yet, temperature 0
round 2 of 2: 400 attempts, none yet, temperature 0
none found
> is o
an older plan
"#;

#[test]
fn two_patients_are_improved(rt: HostRuntime) {
    goes(&rt, rt.alloc(), ON_TWO);
}

// Rounds 1, 4, 22 and 75 find better plans, by the random words of this seed. Each of their writes fails in turn, and
// leaves some bytes. There is no fifth one. A first round without an attempt leaves the start's timetable.
const WRITES: &str = r#"
> lay two admitted
> fail-write 1 9
> says 6 improve i o --seed 19 --workers 1 --attempts 99 --rounds 100 --hot 0 --cold 0 --start s --keep 0 --replace
cannot write o
> is o
{"nurses"
> fail-write 3 5
> says 6 improve i o --seed 19 --workers 1 --attempts 99 --rounds 100 --hot 0 --cold 0 --start s --keep 0 --replace
round 1 of 100: 0 attempts, cost 159, temperature 0
…
round 3 of 100: 2 attempts, cost 159, temperature 0
cannot write o
> is o
{"nur
> fail-write 6 0
> says 6 improve i o --seed 19 --workers 1 --attempts 99 --rounds 100 --hot 0 --cold 0 --start s --keep 0 --replace
round 1 of 100: 0 attempts, cost 159, temperature 0
…
round 21 of 100: 20 attempts, cost 158, temperature 0
cannot write o
> is o
> fail-write 10 0
> says 6 improve i o --seed 19 --workers 1 --attempts 99 --rounds 100 --hot 0 --cold 0 --start s --keep 0 --replace
round 1 of 100: 0 attempts, cost 159, temperature 0
…
round 74 of 100: 73 attempts, cost 140, temperature 0
cannot write o
> fail-write 15 5
> says 0 improve i o --seed 19 --workers 1 --attempts 99 --rounds 100 --hot 0 --cold 0 --start s --keep 0 --replace
round 1 of 100: 0 attempts, cost 159, temperature 0
…
cost 138
> says 6 improve i p --seed 19 --workers 1 --attempts 99 --rounds 100 --hot 0 --cold 0 --start s --keep 0 --replace
cannot write p
> is p
{"nur
"#;

#[test]
fn each_write_fails_in_turn(rt: HostRuntime) {
    goes(&rt, rt.alloc(), WRITES);
}

// Two calls with the same words say the same and leave the same bytes, with however many workers.
const ALIKE: &str = "
> store i
= two
> says 0 improve i o --seed 7 --workers 3 --attempts 200 --rounds 4 --fill --replace
round 1 of 4: 150 attempts, cost …
> alike
improve i o --seed 7 --workers 1 --attempts 200 --rounds 4 --fill --replace
improve i p --seed 7 --workers 1 --attempts 200 --rounds 4 --fill --replace
> same o p
> alike
improve i o --seed 7 --workers 3 --attempts 200 --rounds 4 --fill --replace
improve i p --seed 7 --workers 3 --attempts 200 --rounds 4 --fill --replace
> same o p
> alike
improve i o --seed 7 --workers 64 --attempts 50 --rounds 4 --fill --replace
improve i p --seed 7 --workers 64 --attempts 50 --rounds 4 --fill --replace
> same o p
> # a theatre costs more than the broken rule of a mandatory patient who stays out, if that weighs 1000, so only twice
> # the greatest weight finds a plan: the optional patient stays out; the middle weight is 5
> change i two
\"open_operating_theater\":30
\"open_operating_theater\":30000
> says 0 improve i o --seed 7 --workers 1 --attempts 2000 --rounds 2 --empty --replace
round 1 of 2: 1000 attempts, cost …
cost 30108
> alike
improve i o --seed 7 --workers 1 --attempts 2000 --rounds 2 --empty --replace
improve i p --seed 7 --workers 1 --attempts 2000 --rounds 2 --hot 10 --cold 1 --hard 60000 --empty --replace
> same o p
> says 5 improve i o --seed 7 --workers 1 --attempts 2000 --rounds 2 --hard 1000 --empty --replace
round 1 of 2: 1000 attempts, none yet, temperature …
none found
> same o p
";

#[test]
fn workers_and_weights(rt: HostRuntime) {
    goes(&rt, rt.alloc(), ALIKE);
}

// Words that name no call of improve: the temperature would rise, a number is one too great, a freeze day without a start. Then
// each number's greatest value, in words that name a call, which finds no instance.
const WORDS: &str = "
> store i
= ward
> each 1 error: …'--help'.
improve i o --seed 0 --workers 1 --attempts 1 --hot 1 --cold 2
improve i o --seed 0 --workers 2 --attempts 500000000001
improve i o --seed 18446744073709551616 --workers 1 --attempts 1
improve i o --seed 0 --workers 65 --attempts 1
improve i o --seed 0 --workers 0 --attempts 1
improve i o --seed 0 --workers 1 --attempts 1 --rounds 10001
improve i o --seed 0 --workers 1 --attempts 1 --rounds 0
improve i o --seed 0 --workers 1 --attempts 1 --hot 1000001
improve i o --seed 0 --workers 1 --attempts 1 --hard 1000001
improve i o --seed 0 --workers 1 --attempts 1 --start s --keep 0 --freeze 57
improve i o --seed 0 --workers 1 --attempts 1 --freeze 1
improve i i --seed 0 --workers 1 --attempts 1
> no o
> each 2 cannot read k
improve k o --seed 18446744073709551615 --workers 64 --attempts 15625000000 --rounds 10000
improve k o --seed 0 --workers 1 --attempts 1000000000000 --hot 1000000 --cold 1000000 --hard 1000000
improve k o --seed 0 --workers 1 --attempts 1 --start s --keep 0 --freeze 56
";

#[test]
fn words_of_improve(rt: HostRuntime) {
    goes(&rt, rt.alloc(), WORDS);
}

// Where no feasible timetable is met, the draft gets the best of the others, and OUT stays. Where one is, there is none.
const DRAFTS: &str = r#"
> lay two uncovered
> says 0 improve i o --attempts 2000 --workers 1 --start s --keep 0 --draft d
round 1 of 20: 100 attempts, …
> no d
> change i two
"max_surgery_time":[100,100]
"max_surgery_time":[0,0]
> store o
an older plan
> says 5 improve i o --attempts 200 --rounds 2 --workers 2 --hot 0 --cold 0 --empty --draft d --replace
round 1 of 2: 200 attempts, none yet, temperature 0
round 2 of 2: 400 attempts, none yet, temperature 0
none found
> is o
an older plan
> 9 check i d
…
> anew
> lay two uncovered
> change i two
"max_surgery_time":[100,100]
"max_surgery_time":[0,0]
> fail-write 1 0
> says 6 improve i o --attempts 200 --rounds 2 --workers 2 --hot 0 --cold 0 --empty --draft e --replace
round 1 of 2: …
cannot write e
> each 1 error: …'--help'.
improve i o --draft o
improve i o --draft i
improve i o --start s --keep 0 --draft s
"#;

#[test]
fn a_draft_is_left(rt: HostRuntime) {
    goes(&rt, rt.alloc(), DRAFTS);
}
