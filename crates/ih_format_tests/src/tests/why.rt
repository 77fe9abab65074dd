//! What is said of two small instances after one change.

use crate::tests::rows::none_is_wrong;
use crate::tests::said::{Teller, first_wrong};
use ih_fixtures::{TWO_PATIENTS, WARD};

const PATIENTS: &str = r#"
"surgery_due_day":1 | "surgery_due_day":0 | nothing
"surgery_release_day":0,"surgery_due_day":1 | "surgery_release_day":1,"surgery_due_day":0 | p0 must be admitted, and is due before release
"surgery_release_day":0,"surgery_due_day":1 | "surgery_release_day":2,"surgery_due_day":3 | p0 must be admitted, and is released after the last day
["r1"] | ["r1","r0"] | p0 must be admitted, and no room suits
"surgery_duration":60 | "surgery_duration":61 | p0 must be admitted, and no theatre is open for 61 minutes on any day from 0 to 1
[100,100] | [50,59] | p0 must be admitted, and s0 has no 60 minutes on any day from 0 to 1
"capacity":2 | "capacity":0 | p0 must be admitted, and on day 1 each room that suits is full or has another gender in it
"#;

const ROOMS: &str = r#"
"capacity":2 | "capacity":1 | nothing
"capacity":2 | "capacity":0 | r0 has more occupants than beds on day 0: 1 for 0
"occupants":[ | "occupants":[{"id":"a1","gender":"B","age_group":"adult","length_of_stay":1,"workload_produced":[2,1,1],"skill_level_required":[1,0,2],"room_id":"r0"}, | r0 has occupants of two genders on day 0
},{"day":0,"shift":"late","max_load":2} | } | nobody works on day 0, late, and r0 is occupied
"#;

#[test]
fn each_change_has_its_reason(rt: HostRuntime) {
    none_is_wrong(
        &rt,
        first_wrong(rt.alloc(), Teller::Account, TWO_PATIENTS, PATIENTS),
    );
    none_is_wrong(&rt, first_wrong(rt.alloc(), Teller::Account, WARD, ROOMS));
}
