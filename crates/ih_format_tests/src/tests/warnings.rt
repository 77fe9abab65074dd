//! The warnings on a small instance after one change.

use crate::tests::rows::none_is_wrong;
use crate::tests::said::{Teller, first_wrong};
use ih_fixtures::TWO_PATIENTS;

const CHANGES: &str = r#"
"surgery_due_day":1 | "surgery_due_day":0 | nothing
"old"] | "old"," Adu lt"] | warning: age group  Adu lt differs from an earlier one by case or spaces alone
["child","adult" | ["OLD","child","adult" | warning: age group old differs from an earlier one by case or spaces alone
"old"] | "old","adults"] | nothing
"gender":"B" | "gender":"a" | warning: gender a differs from an earlier one by case or spaces alone
"room_mixed_age":5 | "room_mixed_age":0 | warning: the weight of mixed ages is 0
"open_operating_theater":30 | "open_operating_theater":0 | warning: the weight of open theatres is 0
"unscheduled_optional":100 | "unscheduled_optional":0 | warning: the weight of patients left out is 0
[100,100] | [0,0] | warning: surgeon s0 has patients and never operates
[100,100] | [0,100] | nothing
"surgeons":[ | "surgeons":[{"id":"s1","max_surgery_time":[0,0]}, | nothing
[60,60]},{"id":"t1" | [0,0]},{"id":"t1" | warning: theatre t0 is never open
[60,60]},{"id":"t1" | [0,1]},{"id":"t1" | nothing
"capacity":1 | "capacity":0 | warning: nobody can use room r1
"capacity":2 | "capacity":0 | nothing
"incompatible_room_ids":[] | "incompatible_room_ids":["r1"] | warning: nobody can use room r1
"incompatible_room_ids":[] | "incompatible_room_ids":["r0"] | nothing
"nurses":[ | "nurses":[{"id":"n2","skill_level":0,"working_shifts":[]}, | warning: nurse n2 has no shift
"nurses":[ | "nurses":[{"id":"n2","skill_level":0,"working_shifts":[{"day":0,"shift":"early","max_load":0}]}, | nothing
["r1"] | ["r1","r0"] | warning: no room suits patient p0
"surgery_release_day":0,"surgery_due_day":1 | "surgery_release_day":1,"surgery_due_day":0 | warning: patient p0 is due before release
"#;

#[test]
fn each_slip_has_its_warning(rt: HostRuntime) {
    none_is_wrong(
        &rt,
        first_wrong(rt.alloc(), Teller::Warnings, TWO_PATIENTS, CHANGES),
    );
}
