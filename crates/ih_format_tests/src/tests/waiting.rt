//! Who waits on the ward of two patients, after one change of it.

use crate::tests::rows::none_is_wrong;
use crate::tests::said::{Teller, first_wrong};
use ih_fixtures::TWO_PATIENTS;

// Nobody is admitted, and the second nurse has each room in each shift.
pub(crate) const PLAN: &str = r#"{"patients":[],"nurses":[{"id":"n1","assignments":[
{"day":0,"shift":"early","rooms":["r0","r1"]},{"day":0,"shift":"late","rooms":["r0","r1"]},
{"day":0,"shift":"night","rooms":["r0","r1"]},{"day":1,"shift":"early","rooms":["r0","r1"]},
{"day":1,"shift":"late","rooms":["r0","r1"]},{"day":1,"shift":"night","rooms":["r0","r1"]}]}]}"#;

// The first patient is admitted, and no room has a nurse.
pub(crate) const ONE_ADMITTED: &str = r#"{"patients":[
{"id":"p0","admission_day":1,"room":"r0","operating_theater":"t0"}],"nurses":[]}"#;

// Both are.
const ALL_ADMITTED: &str = r#"{"patients":[
{"id":"p0","admission_day":1,"room":"r0","operating_theater":"t0"},
{"id":"p1","admission_day":0,"room":"r1","operating_theater":"t0"}],"nurses":[]}"#;

const BOTH_WAIT: &str = r#"
"days":2 | "days":2 | p0 must come, and could on day 1 to r0, theatre t0: cost +36 / p1 could come on day 0 to r1, theatre t0: cost -68
"unscheduled_optional":100 | "unscheduled_optional":32 | p0 must come, and could on day 1 to r0, theatre t0: cost +36 / p1 could come on day 0 to r1, theatre t0: cost +0
[100,100] | [50,59] | p0 must come, and could on day 1 to r0, theatre t0 only by breaking rules: 1 more, cost +36 / p1 could come on day 0 to r1, theatre t0: cost -68
"surgery_duration":40 | "surgery_duration":65 | p0 must come, and could on day 1 to r0, theatre t0: cost +36 / p1 could come on day 0 to r1, theatre t0 only by breaking rules: 5 more, cost -68
["r1"] | ["r0","r1"] | p0 must come, and could on no day: no room suits, the window is empty, or there is no theatre / p1 could come on day 0 to r1, theatre t0: cost -68
"incompatible_room_ids":[], | "incompatible_room_ids":["r0","r1"], | p0 must come, and could on day 1 to r0, theatre t0: cost +36 / p1 could come on no day: no room suits, the window is empty, or there is no theatre
"mandatory":false | "mandatory":true,"surgery_due_day":0 | p0 must come, and could on day 1 to r0, theatre t0: cost +36 / p1 must come, and could on day 0 to r1, theatre t0: cost +32
"mandatory":true | "mandatory":false | p0 could come on day 1 to r0, theatre t0: cost -64 / p1 could come on day 0 to r1, theatre t0: cost -68
"#;

#[test]
fn who_waits_has_the_cheapest_admission(rt: HostRuntime) {
    let teller = Teller::Waits(PLAN);
    none_is_wrong(
        &rt,
        first_wrong(rt.alloc(), teller, TWO_PATIENTS, BOTH_WAIT),
    );
}

const ONE_WAITS: &str = r#"
"days":2 | "days":2 | p1 could come on day 0 to r0, theatre t0 only by breaking rules: 1 more, cost -65
"#;

#[test]
fn who_is_admitted_does_not_wait(rt: HostRuntime) {
    let all = r#""days":2 | "days":2 | nothing"#;
    for (plan, table) in [(ONE_ADMITTED, ONE_WAITS), (ALL_ADMITTED, all)] {
        let teller = Teller::Waits(plan);
        none_is_wrong(&rt, first_wrong(rt.alloc(), teller, TWO_PATIENTS, table));
    }
}
