//! What mends the broken rules of plans for the ward of two patients, after one change of it.

use crate::tests::rows::none_is_wrong;
use crate::tests::said::{Teller, first_wrong};
use crate::tests::waiting::{ONE_ADMITTED, PLAN};
use ih_fixtures::TWO_PATIENTS;

// Both are in one room, and have surgery in one theatre. The second nurse has each room in each shift.
const IN_ONE_ROOM: &str = r#"{"patients":[
{"id":"p0","admission_day":1,"room":"r0","operating_theater":"t0"},
{"id":"p1","admission_day":1,"room":"r0","operating_theater":"t0"}],"nurses":[{"id":"n1","assignments":[
{"day":0,"shift":"early","rooms":["r0","r1"]},{"day":0,"shift":"late","rooms":["r0","r1"]},
{"day":0,"shift":"night","rooms":["r0","r1"]},{"day":1,"shift":"early","rooms":["r0","r1"]},
{"day":1,"shift":"late","rooms":["r0","r1"]},{"day":1,"shift":"night","rooms":["r0","r1"]}]}]}"#;

// The first is, and the room has no nurse in the last shift.
const ALONE_AT_NIGHT: &str = r#"{"patients":[
{"id":"p0","admission_day":1,"room":"r0","operating_theater":"t0"}],"nurses":[{"id":"n1","assignments":[
{"day":0,"shift":"early","rooms":["r0","r1"]},{"day":0,"shift":"late","rooms":["r0","r1"]},
{"day":0,"shift":"night","rooms":["r0","r1"]},{"day":1,"shift":"early","rooms":["r0","r1"]},
{"day":1,"shift":"late","rooms":["r0","r1"]},{"day":1,"shift":"night","rooms":["r1"]}]}]}"#;

const TWO_BROKEN: &str = r#"
"days":2 | "days":2 | mixed genders in a room (1): p1 to day 0, r1, theatre t0: cost +16 / minutes above a theatre's time (40): p1 to day 0, r1, theatre t0: cost +16
"unscheduled_optional":100 | "unscheduled_optional":20 | mixed genders in a room (1): leave out p1: cost +4 / minutes above a theatre's time (40): leave out p1: cost +4
"#;

// A second occupant makes the first line.
const LEFT_OUT: &str = r#"
"occupants":[ | "occupants":[{"id":"a1","gender":"B","age_group":"adult","length_of_stay":1,"workload_produced":[1,1,1],"skill_level_required":[0,0,0],"room_id":"r0"}, | mixed genders in a room (1): no single change mends it / mandatory patients left out (1): p0 to day 1, r0, theatre t0: cost +36
"#;

const NO_NURSES: &str = r#"
"days":2 | "days":2 | occupied rooms without a nurse (6): leave out p0 only by breaking rules: 1 more, cost -34
"#;

const ONE_OPEN: &str = r#"
"days":2 | "days":2 | occupied rooms without a nurse (1): nurse n1 in r0 on day 1, night: cost +0
"#;

#[test]
fn each_broken_rule_has_its_cheapest_mend(rt: HostRuntime) {
    for (plan, table) in [
        (IN_ONE_ROOM, TWO_BROKEN),
        (PLAN, LEFT_OUT),
        (ONE_ADMITTED, NO_NURSES),
        (ALONE_AT_NIGHT, ONE_OPEN),
    ] {
        let teller = Teller::Mends(plan);
        none_is_wrong(&rt, first_wrong(rt.alloc(), teller, TWO_PATIENTS, table));
    }
}
