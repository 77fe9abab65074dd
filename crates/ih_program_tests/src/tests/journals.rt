//! Whole calls that read journals or generate instances, over files in memory.

use crate::tests::program::goes;

// The journal of the search on the ward is replayed, with retries too. Each change of it is refused at its line for its
// first reason, and nothing is written.
const REPLAYS: &str = "
> store i
= ward
> store j
= journal
> 0 replay i j p
= found
> is p
= covered
> is j
= journal
> store j
> 8 replay i j o
journal refused: line 1: Heading
> changes j journal 8 replay i j o
workers=1 | workers=65 | journal refused: line 1: Heading
seed=0 | seed=00 | journal refused: line 1: Heading
workers=1 moves=2 | workers=64 moves=15626 | journal refused: line 1: Heading
hard=1000 | hard=1000\r | journal refused: line 1: Heading
-3,0,1,1 | -3,0,2,1 | journal refused: line 2: Price
0 0 0 0 nurserun | 0 0 1 0 nurserun | journal refused: line 2: Number
0 0 0 0 nurserun | 1 0 0 0 nurserun | journal refused: line 2: Place
0 0 0 0 nurserun | 0 1 0 0 nurserun | journal refused: line 2: Worker
1 0 1 1 nurse | 1 0 1 0 nurse | journal refused: line 3: Seen
1 0 1 1 nurse | 1 0 1 2 nurse | journal refused: line 3: Seen
1 0 1 1 nurse | 1 0 1 4294967296 nurse | journal refused: line 3: Grammar
nurse:0,2,0 | nurse:0,1,0 | journal refused: line 3: Move
0,0,0,0,0,0 accepted | 0,0,0,0,0,0 declined | journal refused: line 3: Verdict
0,0,0,0,0,0 accepted | 0,0,0,0,0,0 stale:roomday.0.0:0:0 | journal refused: line 3: Verdict
0,0,0,0,0,0 accepted | 0,0,0,0,0,0 stale:roomday.1.0:0:0 | journal refused: line 3: Grammar
0,0,0,0,0,0 accepted | 0,0,0,0,0,0 accepted\r | journal refused: line 3: Grammar
> # without the third line, with that line twice, with a digit behind it, and without its line feed
> store j
= one-entry
> 8 replay i j o
journal refused: line 3: Early
> store j
= journal
> add j
1 0 1 1 nurse:0,2,0 0,0,0,0,0,0,0,0,0,0,0,0,0,0,0,0,0 accepted

> 8 replay i j o
journal refused: line 4: Extra
> store j
= journal
> add j
0
> 8 replay i j o
journal refused: line 4: Extra
> store j
= one-entry
> add j
1 0 1 1 nurse:0,2,0 0,0,0,0,0,0,0,0,0,0,0,0,0,0,0,0,0 accepted
> 8 replay i j o
journal refused: line 3: Grammar
> no o
> # with retries
> 0 solve i o j --seed 0 --workers 1 --moves 2 --heat 0 --hard 1000 --retries 1
= found
> has j
ihjournal 2 seed=0 workers=1 moves=2 heat=0 hard=1000 retries=1
0 0 0 0 0 nurserun:0,0,0,5 0,0,0,0,0,0,0,0,-3,0,1,1,0,0,0,0,0 accepted
1 0 1 0 1 nurse:0,2,0 0,0,0,0,0,0,0,0,0,0,0,0,0,0,0,0,0 accepted
> 0 replay i j p
= found
> is p
= covered
> changes j j 8 replay i j q
0 0 0 0 0 nurserun | 0 0 0 1 0 nurserun | journal refused: line 2: Try
> no q
";

#[test]
fn journals_are_replayed(rt: HostRuntime) {
    goes(&rt, rt.alloc(), REPLAYS);
}

// Journals that are cut off inside the third line, before it, or wrong there give their first entry. Then none is taken,
// and no timetable is feasible. The last heading is refused.
const SALVAGES: &str = "
> store i
= ward
> change j journal
1 0 1 1 nurse:0,2,0 0,0,0,0,0,0,0,0,0,0,0,0,0,0,0,0,0 accepted
1 0 1 1 nurse:0,
> 0 salvage i j o
= salvaged
> is o
= covered
> store j
= one-entry
> 0 salvage i j p
= salvaged
> is p
= covered
> change j journal
nurse:0,2,0
nurse:0,1,0
> 0 salvage i j q
= salvaged
> is q
= covered
> changes j journal 5 salvage i j r
-3,0,1,1 | -3,0,2,1 | none found
> changes j journal 8 salvage i j r
seed=0 | seed=00 | journal refused: line 1: Heading
> no r
";

#[test]
fn journals_are_salvaged(rt: HostRuntime) {
    goes(&rt, rt.alloc(), SALVAGES);
}

// Of each call the read of the journal fails, then the write of the solution, which leaves three bytes, and then the
// put of the text.
const FAULTS: &str = r#"
> store i
= ward
> store j
= journal
> fail-read 2
> 2 replay i j o
cannot read j
> no o
> fail-write 1 3
> 6 replay i j o
cannot write o
> is o
{"n
> cut 1 6 replay i j o
> is o
= covered
> fail-read 8
> 2 salvage i j p
cannot read j
> no p
> fail-write 3 3
> 6 salvage i j p
cannot write p
> is p
{"n
"#;

#[test]
fn journals_that_fail(rt: HostRuntime) {
    goes(&rt, rt.alloc(), FAULTS);
}

// The instance of the number 7 has the checksum that an independent model of the generator gave. No timetable is feasible
// without a nurse. A demonstration searches on it.
const GENERATES: &str = r#"
> fail-write 1 0
> 6 gen 7 o
cannot write o
> is o
> cut 1 0 gen 7 i
> is i
{"age_groups":["infant","child","adult","elderly"],"days":28,"nurses":[{"id":"n0","skill_level":0,"working_shifts":[{"day":0,"max_load":13,"shift":"early"},{"day":1,"max_load":13,"…]}],"weights":{"continuity_of_care":5,"nurse_eccessive_workload":1,"open_operating_theater":30,"patient_delay":10,"room_mixed_age":5,"room_nurse_skill":10,"surgeon_transfer":10,"unscheduled_optional":300}}
> sum i 11963536675288833610
> 5 solve i o j --seed 0 --workers 1 --moves 0 --heat 0 --hard 1000
none found
> 0 demo 7
= demo
> cut 1 6 demo 7
"#;

#[test]
fn generates(rt: HostRuntime) {
    goes(&rt, rt.alloc(), GENERATES);
}
