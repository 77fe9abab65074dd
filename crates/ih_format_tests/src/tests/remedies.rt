//! What is said of the file of a small instance that is refused after one change.

use crate::tests::rows::none_is_wrong;
use ih_fixtures::{TWO_PATIENTS, cut, put_changed};
use ih_instance::{InstanceError, read_instance};
use ih_remedies::remedy;
use ih_solution::{SolutionError, read_solution};
use ih_tables::{Instance, Refusal};
use std::alloc::Global;

// Whether that line is said of a file that is refused so.
fn is_its_remedy(alloc: Global, file: &[u8], refusal: Refusal, wanted: &str) -> bool {
    match remedy(alloc, file, refusal) {
        Ok(text) => match format!(in alloc; "  {wanted}\n") {
            Ok(line) => text.as_slice() == line.as_bytes(),
            Err(_) => false,
        },
        Err(_) => false,
    }
}

// Whether that is said of an instance's file that is refused.
fn is_said_of(alloc: Global, file: &[u8], wanted: &str) -> bool {
    match read_instance(alloc, file) {
        Err(InstanceError::Refused(refusal)) => is_its_remedy(alloc, file, refusal, wanted),
        _ => false,
    }
}

// Whether that is said after a change.
fn is_said(alloc: Global, old: &str, new: &str, wanted: &str) -> bool {
    let mut file = String::new(alloc);
    matches!(put_changed(&mut file, TWO_PATIENTS, old, new), Ok(true))
        && is_said_of(alloc, file.as_bytes(), wanted)
}

// The first row that isn't so: what stands in a file, what is put in its place, and what is then said.
fn first_wrong<'t, F: Fn(&str, &str, &str) -> bool>(table: &'t str, is_so: &F) -> &'t str
    requires { F.IsAlwaysCallable is_so.now }
{
    for row in table.trim().split('\n') {
        let (old, rest) = cut(row, " | ");
        let (new, wanted) = cut(rest, " | ");
        if !is_so(old, new, wanted) {
            return row;
        }
    }
    ""
}

const FAULTS: &str = r#"
["r1"] | ["room 4"] | patient "p0": "room 4" is none of this file's rooms: there are "r0", "r1"
"surgeon_id":"s0" | "surgeon_id":"S0" | patient "p0": "S0" is none of this file's surgeons: there are "s0"
"shift":"early" | "shift":"Early" | nurse "n0", number 1 of "working_shifts": "Early" is none of this file's shift types: there are "early", "late", "night"
"surgery_due_day":1, |  | patient "p0" has no "surgery_due_day", which is to be a whole number from 0 to 1000
"length_of_stay":5 | "length_of_stay":"5" | patient "p0": "length_of_stay" is "5", and is to be a whole number from 1 to 100
"days":2 | "days":200 | the file: "days" is 200, and is to be a whole number from 1 to 56
"room_mixed_age":5 | "room_mixed_age":2.5 | "weights": "room_mixed_age" is a number with a point or an exponent, or too large, and is to be a whole number from 0 to 100000
"id":"p1" | "id":7 | patient number 2: "id" is 7, and is to be a text between double quotes, of 1 to 100 bytes
"id":"p1" | "id":"p0" | patient "p0": an earlier one has the same "id": "p0"
"availability":[60,60]},{"id":"t1" | "availability":[60]},{"id":"t1" | operating theater "t0": "availability" has 1 item, and is to have at least one for each day
"nurse_eccessive_workload":1, | "nurse_excessive_workload":1,"nurse_eccessive_workload":1, | the file has both "nurse_eccessive_workload" and "nurse_excessive_workload": keep one of them
"rooms":[{"id":"r0","capacity":2},{"id":"r1","capacity":1}], |  | the file has no "rooms", which is to be a list
"days":2, | "days":"2", | the file: "days" is "2", and is to be a whole number from 1 to 56
"age_group":"adult" | "age_group":"Adult" | occupant "a0": "Adult" is none of this file's age groups: there are "child", "adult", "old"
[2,2,2,2,2,2] | [2,2,2,2,2] | patient "p0": "workload_produced" has 5 items, and is to have at least three for each day of the stay, but for days from "days" on
"mandatory":true | "mandatory":"yes" | patient "p0": "mandatory" is "yes", and is to be true or false
"r1","capacity":1 | "r1","capacity":-1 | room "r1": "capacity" is -1, and is to be a whole number from 0 to 1000
"length_of_stay":1 | "length_of_stay":0 | occupant "a0": "length_of_stay" is 0, and is to be a whole number from 1 to 100
{"day":1,"shift":"late","max_load":10} | {"day":0,"shift":"late","max_load":10} | nurse "n1": number 5 of "working_shifts" is of the same day and shift as an earlier one
{"day":1,"shift":"night","max_load":10} | {"day":2,"shift":"night","max_load":10} | nurse "n1", number 6 of "working_shifts": "day" is 2, and is to be a whole number from 0, below "days"
["early","late","night"] | ["early","late"] | the file: "shift_types" has 2 items, and is to have 3
"gender":"B" | "gender":2 | patient "p1": "gender" is 2, and is to be a text between double quotes, of 1 to 100 bytes
"id":"p1" | "id":"" | patient "": "id" is "", and is to be a text between double quotes, of 1 to 100 bytes
"#;

const BROKEN: &str = r#"
["early","late" | ["early" "late" | line 1, column 51: a comma or a colon is missing before this
,"unscheduled_optional":100}, | ,"unscheduled_optional":100,}, | line 3, column 95: there is a comma too many before this bracket
"days" | “days” | line 1, column 2: what begins here isn't JSON; the file has curly quotes: use straight ones
{"days":2 | {'days':2 | line 1, column 2: texts stand between double quotes
"days":2, | days:2, | line 1, column 2: texts stand between double quotes
"days":2, | "days":2 | line 1, column 9: this number, or what stands right behind it, isn't JSON
"days":2, | "days":2, // two days | line 1, column 12: JSON has no comments
"mandatory":true | "mandatory":True | line 6, column 36: true, false and null are written in full, with small letters
"night","max_load":10}]}]} | "night","max_load":10}]}] | line 20, column 43: the file ends too soon: a bracket or a quote before isn't closed
"night","max_load":10}]}]} | "night","max_load":10}]}]}} | line 20, column 44: this bracket doesn't belong here
"night","max_load":10}]}]} | "night","max_load":10}]}]} x | line 20, column 45: this can't follow a bracket: delete it, or write what is missing between them
"days":2, | "days:2, | line 1, column 11: a text ends right before this: perhaps it lacks its first or last double quote
"#;

#[test]
fn each_fault_has_its_remedy(rt: HostRuntime) {
    let alloc = rt.alloc();
    let is_so = |old: &str, new: &str, wanted: &str| is_said(alloc, old, new, wanted);
    none_is_wrong(&rt, first_wrong(FAULTS, &is_so));
    none_is_wrong(&rt, first_wrong(BROKEN, &is_so));
}

// A file that was saved in another way.
#[test]
fn files_of_other_encodings_are_named(rt: HostRuntime) {
    let alloc = rt.alloc();
    assert!(rt;
        is_said_of(
            alloc,
            &[239, 187, 191, b'{', b'}'],
            "the file begins with a byte order mark: save it as UTF-8 without one"
        )
    );
    assert!(rt;
        is_said_of(
            alloc,
            &[255, 254, b'{', 0],
            "the file is UTF-16: save it as UTF-8"
        )
    );
    assert!(rt;
        is_said_of(
            alloc,
            &[b'{', b'\n', b'"', 252, b'"', b'}'],
            "line 2, column 2: the file isn't UTF-8, perhaps Latin-1: save it as UTF-8"
        )
    );
}

const SOLUTION: &str =
    r#"{"patients":[{"id":"p0","admission_day":0,"room":"r0","operating_theater":"t0"},{"id":"p1","admission_day":"none"}],
"nurses":[{"id":"n0","assignments":[{"day":0,"shift":"early","rooms":["r0"]}]},
{"id":"n1","assignments":[{"day":0,"shift":"late","rooms":["r0"]}]}]}"#;

// A solution refers to the instance, which is another file.
const OF_SOLUTIONS: &str = r#"
"id":"p1" | "id":"P1" | patient "P1": "P1" is none of the ward's patients
"id":"p1" | "id":"p0" | patient "p0": an earlier one has the same "id": "p0"
"none" | "tomorrow" | patient "p1": "admission_day" is "tomorrow", and is to be a whole number from 0, below "days", or the text "none"
"admission_day":0 | "admission_day":2 | patient "p0": "admission_day" is 2, and is to be a whole number from 0, below "days", or the text "none"
"room":"r0" | "room":"r7" | patient "p0": "r7" is none of the ward's rooms
"operating_theater":"t0" | "operating_theater":"T0" | patient "p0": "T0" is none of the ward's operating theaters
,"operating_theater":"t0" |  | patient "p0" has no "operating_theater", which is to be a text between double quotes, of 1 to 100 bytes
"id":"n0" | "id":"n7" | nurse "n7": "n7" is none of the ward's nurses
"shift":"late" | "shift":"early" | nurse "n1", number 1 of "assignments": "r0" has a nurse in this shift already
"#;

// Whether that is said of the solution after a change.
fn is_said_of_solution(alloc: Global, inst: &Instance, old: &str, new: &str, wanted: &str) -> bool {
    let mut file = String::new(alloc);
    if !matches!(put_changed(&mut file, SOLUTION, old, new), Ok(true)) {
        return false;
    }
    match read_solution(alloc, inst, file.as_bytes()) {
        Err(SolutionError::Refused(refusal)) => {
            is_its_remedy(alloc, file.as_bytes(), refusal, wanted)
        }
        _ => false,
    }
}

fn first_wrong_solution<'t>(alloc: Global, table: &'t str) -> &'t str {
    match read_instance(alloc, TWO_PATIENTS.as_bytes()) {
        Ok(inst) => first_wrong(
            table,
            &|old: &str, new: &str, wanted: &str| {
                is_said_of_solution(alloc, &inst, old, new, wanted)
            },
        ),
        Err(_) => "the instance is refused",
    }
}

#[test]
fn solutions_have_remedies(rt: HostRuntime) {
    none_is_wrong(&rt, first_wrong_solution(rt.alloc(), OF_SOLUTIONS));
}
