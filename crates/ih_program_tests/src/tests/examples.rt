//! The examples that docs/FORMATS.md shows, which are files of examples/: the plan has the report of that page, and the
//! journal is what its search writes, and what a replay takes. tools/examples.py compares the texts here with the files
//! and the page.

use crate::tests::program::goes;

const EXAMPLES: &str = r#"
> store i
{"days": 2, "skill_levels": 3, "shift_types": ["early", "late", "night"], "age_groups": ["child", "adult"],
 "weights": {"room_mixed_age": 5, "room_nurse_skill": 10, "continuity_of_care": 5, "nurse_eccessive_workload": 1,
   "open_operating_theater": 30, "surgeon_transfer": 5, "patient_delay": 10, "unscheduled_optional": 150},
 "surgeons": [{"id": "s0", "max_surgery_time": [120, 120]}],
 "operating_theaters": [{"id": "t0", "availability": [300, 300]}],
 "rooms": [{"id": "r0", "capacity": 2}, {"id": "r1", "capacity": 1}],
 "nurses": [
   {"id": "n0", "skill_level": 1, "working_shifts": [
     {"day": 0, "shift": "early", "max_load": 4}, {"day": 0, "shift": "late", "max_load": 4},
     {"day": 1, "shift": "early", "max_load": 4}, {"day": 1, "shift": "late", "max_load": 4}]},
   {"id": "n1", "skill_level": 0, "working_shifts": [
     {"day": 0, "shift": "night", "max_load": 2}, {"day": 1, "shift": "night", "max_load": 2}]}],
 "occupants": [{"id": "a0", "gender": "A", "age_group": "adult", "length_of_stay": 1,
   "workload_produced": [1, 1, 1], "skill_level_required": [0, 1, 1], "room_id": "r0"}],
 "patients": [
   {"id": "p0", "mandatory": true, "gender": "A", "age_group": "adult", "length_of_stay": 4,
    "surgery_release_day": 0, "surgery_due_day": 1, "surgery_duration": 90, "surgeon_id": "s0",
    "incompatible_room_ids": ["r1"], "workload_produced": [2, 2, 1, 1, 1, 1],
    "skill_level_required": [1, 0, 0, 0, 0, 0]},
   {"id": "p1", "mandatory": false, "gender": "B", "age_group": "child", "length_of_stay": 1,
    "surgery_release_day": 0, "surgery_duration": 60, "surgeon_id": "s0",
    "incompatible_room_ids": [], "workload_produced": [1, 1, 1],
    "skill_level_required": [0, 0, 0]}]}
> store s
{"patients": [
   {"id": "p0", "admission_day": 1, "room": "r0", "operating_theater": "t0"},
   {"id": "p1", "admission_day": "none"}],
 "nurses": [
   {"id": "n0", "assignments": [
     {"day": 0, "shift": "early", "rooms": ["r0"]}, {"day": 0, "shift": "late", "rooms": ["r0"]},
     {"day": 1, "shift": "early", "rooms": ["r0"]}, {"day": 1, "shift": "late", "rooms": ["r0"]}]},
   {"id": "n1", "assignments": [
     {"day": 0, "shift": "night", "rooms": ["r0"]}, {"day": 1, "shift": "night", "rooms": ["r0"]}]}]}
> 0 check i s
V1 0
V2 0
V3 0
V4 0
V5 0
V6 0
V7 0
V8 0
V9 0
S1 0 x 5 = 0
S2 1 x 10 = 10
S3 4 x 5 = 20
S4 0 x 1 = 0
S5 1 x 30 = 30
S6 0 x 5 = 0
S7 1 x 10 = 10
S8 1 x 150 = 150
cost 220
> store j
ihjournal 1 seed=41 workers=1 moves=2 heat=0 hard=1000
0 0 0 0 setday:0,0 0,0,0,0,0,0,0,0,0,0,0,0,0,0,0,-1,0 accepted
1 0 1 1 place:1,1,1,0 0,0,0,0,0,0,0,0,3,0,0,0,0,1,0,1,-1 declined

> 0 replay i j p --start s
best 1 of 2
…
cost 210
> 0 solve i o k --seed 41 --workers 1 --moves 2 --heat 0 --hard 1000 --start s
best 1 of 2
…
cost 210
> same j k
> same p o
"#;

#[test]
fn the_examples_of_the_formats(rt: HostRuntime) {
    goes(&rt, rt.alloc(), EXAMPLES);
}
