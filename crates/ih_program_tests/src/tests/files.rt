//! Whole calls over files in memory: searches, checks, refusals, and files that fail.

use crate::tests::program::{goes, is_done_over};
use ih_scripts::given;
use ih_shelf::{MemSink, NeverFails, OpenGate};
use std::alloc::Global;
use std::rt::Files;
use std::sync::Wait;
use std::thread::Threads;

// Searches on the ward of one day, without a start and from one, and with the weight's other spelling.
const ON_THE_WARD: &str = r#"
> lay ward covered-start
> 0 solve i o j --seed 0 --workers 1 --moves 2 --heat 0 --hard 1000
= found
> is j
= journal
> is o
= covered
> 5 solve i p j --seed 0 --workers 1 --moves 0 --heat 0 --hard 1000
none found
> has j
ihjournal 1 seed=0 workers=1 moves=0 heat=0 hard=1000
> no p
> 0 solve i o k --seed 0 --workers 1 --moves 0 --heat 0 --hard 1000 --start s
best 0 of 0
report 0 0 0 0 0 0 0 0 0, 0 1 1 0 0 0 0 0, 12
> same j k
> is o
= covered
> change i ward
nurse_eccessive_workload
nurse_excessive_workload
> # words in another order, and numbers with a sign and leading zeros
> 0 solve i --seed=+00 q --workers=1 --moves 2 --heat 0 j --hard 1000
= found
> is j
= journal
> same q o
"#;

#[test]
fn searches_on_the_ward(rt: HostRuntime) {
    goes(&rt, rt.alloc(), ON_THE_WARD);
}

// Searches on two patients, of whom the first is admitted at the start. A freeze day forbids the cheaper nurse.
const ON_TWO: &str = r#"
> lay two admitted
> 0 solve i o j --seed 0 --workers 1 --moves 2 --heat 0 --hard 1000 --start s --freeze 1
best 0 of 2
report 0 0 0 0 0 0 0 0 0, 1 2 2 0 1 0 0 1, 159
> has j
ihjournal 1 seed=0 workers=1 moves=2 heat=0 hard=1000
0 0 0 0 nurserun:1,0,0,5 0,0,0,0,0,0,0,0,0,0,-2,0,0,0,0,0,0 frozen
1 0 1 1 nurse:1,5,0 0,0,0,0,0,0,0,0,0,0,0,0,0,0,0,0,0 accepted
> is o
{"nurses":[{"assignments":[{"day":0,"rooms":["r0"],"shift":"early"},{"day":0,"rooms":["r0"],"shift":"late"},{"day":0,"rooms":["r0"],"shift":"night"},{"day":1,"rooms":["r0"],"shift":"early"},{"day":1,"rooms":["r0"],"shift":"late"},{"day":1,"rooms":["r0"],"shift":"night"}],"id":"n0"},{"assignments":[],"id":"n1"}],"patients":[{"admission_day":0,"id":"p0","operating_theater":"t0","room":"r0"},{"admission_day":"none","id":"p1"}]}
> 0 solve i o j --seed 0 --workers 1 --moves 2 --heat 0 --hard 1000 --start s
best 1 of 2
report 0 0 0 0 0 0 0 0 0, 1 0 2 0 1 0 0 1, 139
> has j
ihjournal 1 seed=0 workers=1 moves=2 heat=0 hard=1000
0 0 0 0 nurserun:1,0,0,5 0,0,0,0,0,0,0,0,0,0,-2,0,0,0,0,0,0 accepted
1 0 1 1 nurse:1,5,0 0,0,0,0,0,0,0,0,0,0,0,0,0,0,0,0,0 accepted
> is o
{"nurses":[{"assignments":[],"id":"n0"},{"assignments":[{"day":0,"rooms":["r0"],"shift":"early"},{"day":0,"rooms":["r0"],"shift":"late"},{"day":0,"rooms":["r0"],"shift":"night"},{"day":1,"rooms":["r0"],"shift":"early"},{"day":1,"rooms":["r0"],"shift":"late"},{"day":1,"rooms":["r0"],"shift":"night"}],"id":"n1"}],"patients":[{"admission_day":0,"id":"p0","operating_theater":"t0","room":"r0"},{"admission_day":"none","id":"p1"}]}
> # with one worker no try is stale, so none is made again
> alike
solve i o k --seed 0 --workers 1 --moves 2 --heat 0 --hard 1000 --start s
solve i p j --seed 0 --workers 1 --moves 2 --heat 0 --hard 1000 --start s --retries 2
> same o p
> has j
ihjournal 2 seed=0 workers=1 moves=2 heat=0 hard=1000 retries=2
0 0 0 0 0 nurserun:1,0,0,5 0,0,0,0,0,0,0,0,0,0,-2,0,0,0,0,0,0 accepted
1 0 1 0 1 nurse:1,5,0 0,0,0,0,0,0,0,0,0,0,0,0,0,0,0,0,0 accepted
> # the fill of the empty timetable, with no move; a replay from it finds the same, and one without it finds nothing
> 0 solve i o j --seed 0 --workers 1 --moves 0 --heat 0 --hard 1000 --fill
= filled
> is o
= filled-solution
> 0 replay i j p --fill
= filled
> same p o
> 5 replay i j q
none found
> no q
> # a name with signs that need escapes, in another spelling
> change i two
"id":"p0"
"id":"p\"\\\u001F\n"
> change s admitted
"id":"p0"
"id":"p\u0022\\\u001f\n"
> 0 solve i o j --seed 0 --workers 1 --moves 0 --heat 0 --hard 1000 --start s
best 0 of 0
…
cost 159
> is o
…,"patients":[{"admission_day":0,"id":"p\"\\\u001f\n","operating_theater":"t0","room":"r0"},{"admission_day":"none","id":"p1"}]}
"#;

#[test]
fn searches_on_two_patients(rt: HostRuntime) {
    goes(&rt, rt.alloc(), ON_TWO);
}

// Checks of a solution and of some that break a rule.
const CHECKS: &str = r#"
> lay two admitted
> 0 check i s
= checked
> change i two
"surgery_duration":60
"surgery_duration":61
> 9 check i s
report 0 0 0 1 0 0 0 0 0, 1 2 2 0 1 0 0 1, 159
> cut 1 6 check i s
> # two genders, two theatres, overload
> lay two admitted
> change s admitted
"admission_day":"none"
"admission_day":0,"room":"r0","operating_theater":"t1"
> 9 check i s
report 1 0 0 0 0 0 1 0 0, 2 8 3 3 2 1 0 0, 166
> # they meet on one day only
> change s admitted
"admission_day":"none"
"admission_day":1,"room":"r0","operating_theater":"t1"
> 9 check i s
report 1 0 0 0 0 0 0 0 0, 3 8 3 0 2 0 1 0, 165
> # one theatre too full
> change s admitted
"admission_day":"none"
"admission_day":0,"room":"r1","operating_theater":"t0"
> 9 check i s
report 0 0 0 40 0 0 0 0 3, 1 2 2 0 1 0 0 0, 59
> no j
> no o
"#;

#[test]
fn checks(rt: HostRuntime) {
    goes(&rt, rt.alloc(), CHECKS);
}

// The first fault of an instance: it is said, and nothing is written. Of two faults that of the first key counts.
const REFUSED_INSTANCES: &str = r#"
> store s
= covered
> changes i ward 3 solve i o j --seed 0 --workers 1 --moves 2 --heat 0 --hard 1000
"rooms":[{"id":"r0","capacity":2}], |  | instance refused: Missing at $.rooms
"days":1 | "days":0 | instance refused: Range at $.days
"length_of_stay":1 | "length_of_stay":0 | instance refused: Range at $.occupants[0].length_of_stay
"rooms":[{"id":"r0","capacity":2}], | "rooms":[], | instance refused: Length at $.rooms
}]}]} | }]}] | instance refused: NotJson at $
> 3 check i s
instance refused: NotJson at $
> change i ward
"rooms":[{"id":"r0","capacity":2}],

> changes i i 3 solve i o j --seed 0 --workers 1 --moves 2 --heat 0 --hard 1000
"days":1 | "days":0 | instance refused: Range at $.days
> store i
> 3 solve i o j --seed 0 --workers 1 --moves 2 --heat 0 --hard 1000
instance refused: NotJson at $
> # of the two patients
> changes i two 3 check i s
[2,2,2,2,2,2] | [2,2,2,2,2] | instance refused: Length at $.patients[0].workload_produced
40,"surgeon_id":"s0" | 40,"surgeon_id":"s9" | instance refused: Unknown at $.patients[1].surgeon_id
> no j
> no o
"#;

#[test]
fn refused_instances(rt: HostRuntime) {
    goes(&rt, rt.alloc(), REFUSED_INSTANCES);
}

// Solutions that both a check and a search refuse.
const REFUSED_SOLUTIONS: &str = r#"
> lay two admitted
> changes s admitted 4 check i s
"room":"r0" | "room":"r7" | solution refused: Unknown at $.patients[0].room
"night","rooms":["r0"]}]}]} | "night","rooms":["r0"]}]},{"id":"n1","assignments":[{"day":0,"shift":"early","rooms":["r0"]}]}]} | solution refused: TwoNurses at $.nurses[1].assignments[0].rooms[0]
> changes s admitted 4 solve i o j --seed 0 --workers 1 --moves 2 --heat 0 --hard 1000 --start s
"room":"r0" | "room":"r7" | solution refused: Unknown at $.patients[0].room
"night","rooms":["r0"]}]}]} | "night","rooms":["r0"]}]},{"id":"n1","assignments":[{"day":0,"shift":"early","rooms":["r0"]}]}]} | solution refused: TwoNurses at $.nurses[1].assignments[0].rooms[0]
> no j
> no o
"#;

#[test]
fn refused_solutions(rt: HostRuntime) {
    goes(&rt, rt.alloc(), REFUSED_SOLUTIONS);
}

// A read that fails, a journal and a solution that are cut off, and a text that can't be put. One fault doesn't go on.
const FAULTS: &str = r#"
> lay ward covered-start
> fail-read 2
> 2 solve i o j --seed 0 --workers 1 --moves 0 --heat 0 --hard 1000 --start s
cannot read s
> no j
> no o
> fail-read 3
> 2 solve i o j --seed 0 --workers 1 --moves 2 --heat 0 --hard 1000
cannot read i
> no j
> no o
> 0 solve i o j --seed 0 --workers 1 --moves 2 --heat 0 --hard 1000
= found
> anew
> lay ward covered
> fail-write 1 10
> 6 solve i o j --seed 0 --workers 1 --moves 2 --heat 0 --hard 1000
cannot write j
> is j
ihjournal 
> no o
> fail-write 3 0
> 6 solve i o j --seed 0 --workers 1 --moves 2 --heat 0 --hard 1000
cannot write o
> is j
= journal
> is o
> # both files are whole where the text can't be put
> cut 1 6 solve i o j --seed 0 --workers 1 --moves 2 --heat 0 --hard 1000
> is j
= journal
> is o
= covered
> cut 1 5 solve i o j --seed 0 --workers 1 --moves 0 --heat 0 --hard 1000
"#;

#[test]
fn files_that_fail(rt: HostRuntime) {
    goes(&rt, rt.alloc(), FAULTS);
}

// Whether the shelf has the journal and the solution of the search on the ward.
fn has_both(shelf: &NeverFails) -> bool {
    shelf.get("j") == Some(given("journal").as_bytes())
        && shelf.get("o") == Some(given("covered").as_bytes())
}

// Whether the search on the ward is done over a shelf that never fails, and leaves both there.
fn is_done_on<R: Files + Print + Threads + Wait + Sync>(
    rt: &R,
    alloc: Global,
    shelf: &mut NeverFails,
) -> bool {
    let mut out = MemSink::new(alloc);
    let line = "solve i o j --seed 0 --workers 1 --moves 2 --heat 0 --hard 1000";
    is_done_over(rt, alloc, line, shelf, &mut out, &OpenGate)
        && out.bytes() == given("found").as_bytes()
        && has_both(shelf)
}

fn is_done_without_faults<R: Files + Print + Threads + Wait + Sync>(rt: &R, alloc: Global) -> bool {
    let mut shelf = NeverFails::new(alloc);
    shelf.store("i", given("ward").as_bytes()).is_ok() && is_done_on(rt, alloc, &mut shelf)
}

#[test]
fn searches_where_no_file_fails(rt: HostRuntime) {
    assert!(rt; is_done_without_faults(&rt, rt.alloc()));
}

// Files of the greatest length, and of one byte more.
const LONG: &str = "
> spaces i 67108864
> 3 check i s
instance refused: NotJson at $
> spaces i 67108865
> 10 check i s
too long: i
> store i
= ward
> spaces s 67108865
> 10 check i s
too long: s
> spaces j 268435456
> 8 replay i j o
journal refused: line 1: Heading
> spaces j 268435457
> 10 replay i j o
too long: j
";

#[test]
fn one_byte_too_many(rt: HostRuntime) {
    goes(&rt, rt.alloc(), LONG);
}
