//! What is answered for the files of two small instances after one change.

use crate::tests::rows::none_is_wrong;
use ih_fixtures::{TWO_PATIENTS, WARD, cut, put_changed};
use ih_instance::{InstanceError, read_instance};
use std::alloc::{AllocError, Global};

// Whether that is said of a file.
fn says(alloc: Global, error: &InstanceError, wanted: &str) -> bool {
    match format!(in alloc; "{error}") {
        Ok(text) => text.as_str() == wanted,
        Err(_) => false,
    }
}

// Whether that is answered for a file.
fn is_read_so(alloc: Global, file: &[u8], wanted: &str) -> bool {
    match read_instance(alloc, file) {
        Ok(_) => wanted == "accepted",
        Err(error) => says(alloc, &error, wanted),
    }
}

/// Whether that is answered for such a text.
pub(crate) fn is_answered(alloc: Global, text: &str, old: &str, new: &str, wanted: &str) -> bool {
    let mut file = String::new(alloc);
    matches!(put_changed(&mut file, text, old, new), Ok(true))
        && is_read_so(alloc, file.as_bytes(), wanted)
}

// The first row that isn't so: what stands in a text, what is put in its place, and what is then answered.
fn first_wrong<'t>(alloc: Global, text: &str, table: &'t str) -> &'t str {
    for row in table.trim().split('\n') {
        let (old, rest) = cut(row, " | ");
        let (new, wanted) = cut(rest, " | ");
        if !is_answered(alloc, text, old, new, wanted) {
            return row;
        }
    }
    ""
}

// Changes of days, names, weights and shifts.
const NAMES: &str = r#"
"days":1 | "days":1 | accepted
"days":1 | "days":1.0 | Kind at $.days
"child","adult" | "child","child" | Duplicate at $.age_groups[1]
"nurse_eccessive_workload":1, | "nurse_excessive_workload":1, | accepted
"nurse_eccessive_workload":1, | "nurse_excessive_workload":1,"nurse_eccessive_workload":1, | TwoWeights at $.weights
"nurse_eccessive_workload":1, |  | Missing at $.weights.nurse_eccessive_workload
"room_id":"r0" | "room_id":"" | Range at $.occupants[0].room_id
"shift":"night" | "shift":"late" | Duplicate at $.nurses[0].working_shifts[2]
"late","night"] | "late"] | Length at $.shift_types
"late","night"] | "late","night","x"] | Length at $.shift_types
"day":0 | "day":1 | Range at $.nurses[0].working_shifts[0].day
"#;

// Changes of patients.
const PATIENTS: &str = r#"
[2,2,2,2,2,2] | [2,2,2,2,2,2,"x"] | accepted
"surgery_due_day":1, |  | Missing at $.patients[0].surgery_due_day
"surgery_duration":40, | "surgery_due_day":"x","surgery_duration":40, | accepted
"#;

#[test]
fn each_change_has_its_answer(rt: HostRuntime) {
    none_is_wrong(&rt, first_wrong(rt.alloc(), WARD, NAMES));
    none_is_wrong(&rt, first_wrong(rt.alloc(), TWO_PATIENTS, PATIENTS));
}

// The text of the ward of one day with a first key more, whose value is so many lists, each inside the one before.
fn nested(alloc: Global, depth: usize) -> Result<String, AllocError> {
    let open = "[".repeat(alloc, depth)?;
    let close = "]".repeat(alloc, depth)?;
    format!(in alloc; "{{\"x\":{open}{close},\"days\":1")
}

// Whether that is answered for such a file.
fn is_answered_nested(alloc: Global, depth: usize, wanted: &str) -> bool {
    match nested(alloc, depth) {
        Ok(first) => is_answered(alloc, WARD, r#"{"days":1"#, first.as_str(), wanted),
        Err(_) => false,
    }
}

// A second number of days is the one that counts.
#[test]
fn deep_values_and_repeated_keys(rt: HostRuntime) {
    let alloc = rt.alloc();
    assert!(rt; is_answered_nested(alloc, 126, "accepted"));
    assert!(rt; is_answered_nested(alloc, 127, "NotJson at $"));
    assert!(rt;
        is_answered(
            alloc,
            WARD,
            r#"{"days":1"#,
            r#"{"days":0,"days":1"#,
            "accepted"
        )
    );
}
