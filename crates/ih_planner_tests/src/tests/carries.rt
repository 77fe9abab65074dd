//! Whole calls of carry, over files in memory.

use crate::tests::program::goes;

// A ward of three days with its plan, and the ward that comes next, in which things have another order. It has two days,
// no room rb, no theatre tb, no nurse nc and no patient p5; nurse nb works in one shift, and patient p9 is new.
const WARDS: &str = r#"
> store o
{"days":3,"skill_levels":1,"shift_types":["early","late","night"],"age_groups":["adult"],
"weights":{"room_mixed_age":5,"room_nurse_skill":10,"continuity_of_care":2,"nurse_eccessive_workload":1,
"open_operating_theater":30,"surgeon_transfer":7,"patient_delay":4,"unscheduled_optional":100},
"occupants":[{"id":"oa","gender":"A","age_group":"adult","length_of_stay":1,"workload_produced":[1,1,1],
"skill_level_required":[0,0,0],"room_id":"ra"},
{"id":"ob","gender":"A","age_group":"adult","length_of_stay":4,"workload_produced":[1,1,1,1,1,1,1,1,1],
"skill_level_required":[0,0,0,0,0,0,0,0,0],"room_id":"rc"}],
"patients":[{"id":"p1","mandatory":false,"gender":"A","age_group":"adult","length_of_stay":2,
"surgery_release_day":0,"surgery_duration":10,"surgeon_id":"s0","incompatible_room_ids":[],
"workload_produced":[1,1,1,1,1,1],"skill_level_required":[0,0,0,0,0,0]},
{"id":"p2","mandatory":false,"gender":"A","age_group":"adult","length_of_stay":1,
"surgery_release_day":0,"surgery_duration":10,"surgeon_id":"s0","incompatible_room_ids":[],
"workload_produced":[1,1,1],"skill_level_required":[0,0,0]},
{"id":"p3","mandatory":false,"gender":"A","age_group":"adult","length_of_stay":1,
"surgery_release_day":0,"surgery_duration":10,"surgeon_id":"s0","incompatible_room_ids":[],
"workload_produced":[1,1,1],"skill_level_required":[0,0,0]},
{"id":"p4","mandatory":false,"gender":"A","age_group":"adult","length_of_stay":2,
"surgery_release_day":0,"surgery_duration":10,"surgeon_id":"s0","incompatible_room_ids":[],
"workload_produced":[1,1,1,1,1,1],"skill_level_required":[0,0,0,0,0,0]},
{"id":"p5","mandatory":false,"gender":"A","age_group":"adult","length_of_stay":1,
"surgery_release_day":0,"surgery_duration":10,"surgeon_id":"s0","incompatible_room_ids":[],
"workload_produced":[1,1,1],"skill_level_required":[0,0,0]},
{"id":"p6","mandatory":false,"gender":"A","age_group":"adult","length_of_stay":1,
"surgery_release_day":0,"surgery_duration":10,"surgeon_id":"s0","incompatible_room_ids":[],
"workload_produced":[1,1,1],"skill_level_required":[0,0,0]}],
"surgeons":[{"id":"s0","max_surgery_time":[100,100,100]}],
"operating_theaters":[{"id":"ta","availability":[60,60,60]},{"id":"tb","availability":[60,60,60]}],
"rooms":[{"id":"ra","capacity":3},{"id":"rb","capacity":3},{"id":"rc","capacity":3}],
"nurses":[{"id":"na","skill_level":0,"working_shifts":[{"day":0,"shift":"early","max_load":9},
{"day":0,"shift":"late","max_load":9},{"day":2,"shift":"early","max_load":9}]},
{"id":"nb","skill_level":0,"working_shifts":[{"day":0,"shift":"early","max_load":9},
{"day":0,"shift":"late","max_load":9}]},
{"id":"nc","skill_level":0,"working_shifts":[{"day":1,"shift":"early","max_load":9}]}]}
> store s
{"patients":[{"id":"p1","admission_day":0,"room":"ra","operating_theater":"ta"},
{"id":"p2","admission_day":1,"room":"rb","operating_theater":"ta"},
{"id":"p3","admission_day":1,"room":"ra","operating_theater":"tb"},
{"id":"p4","admission_day":2,"room":"ra","operating_theater":"ta"},
{"id":"p5","admission_day":0,"room":"ra","operating_theater":"ta"}],
"nurses":[{"id":"na","assignments":[{"day":0,"shift":"early","rooms":["ra","rb"]},
{"day":0,"shift":"late","rooms":["ra"]},{"day":2,"shift":"early","rooms":["ra"]}]},
{"id":"nb","assignments":[{"day":0,"shift":"early","rooms":["rc"]},{"day":0,"shift":"late","rooms":["rc"]}]},
{"id":"nc","assignments":[{"day":1,"shift":"early","rooms":["rc"]}]}]}
> store n
{"days":2,"skill_levels":1,"shift_types":["early","late","night"],"age_groups":["adult"],
"weights":{"room_mixed_age":5,"room_nurse_skill":10,"continuity_of_care":2,"nurse_eccessive_workload":1,
"open_operating_theater":30,"surgeon_transfer":7,"patient_delay":4,"unscheduled_optional":100},
"occupants":[{"id":"ob","gender":"A","age_group":"adult","length_of_stay":2,"workload_produced":[1,1,1,1,1,1],
"skill_level_required":[0,0,0,0,0,0],"room_id":"rc"}],
"patients":[{"id":"p9","mandatory":false,"gender":"A","age_group":"adult","length_of_stay":1,
"surgery_release_day":0,"surgery_duration":10,"surgeon_id":"s0","incompatible_room_ids":[],
"workload_produced":[1,1,1],"skill_level_required":[0,0,0]},
{"id":"p4","mandatory":false,"gender":"A","age_group":"adult","length_of_stay":2,
"surgery_release_day":0,"surgery_duration":10,"surgeon_id":"s0","incompatible_room_ids":[],
"workload_produced":[1,1,1,1,1,1],"skill_level_required":[0,0,0,0,0,0]},
{"id":"p3","mandatory":false,"gender":"A","age_group":"adult","length_of_stay":1,
"surgery_release_day":0,"surgery_duration":10,"surgeon_id":"s0","incompatible_room_ids":[],
"workload_produced":[1,1,1],"skill_level_required":[0,0,0]},
{"id":"p2","mandatory":false,"gender":"A","age_group":"adult","length_of_stay":1,
"surgery_release_day":0,"surgery_duration":10,"surgeon_id":"s0","incompatible_room_ids":[],
"workload_produced":[1,1,1],"skill_level_required":[0,0,0]},
{"id":"p1","mandatory":false,"gender":"A","age_group":"adult","length_of_stay":2,
"surgery_release_day":0,"surgery_duration":10,"surgeon_id":"s0","incompatible_room_ids":[],
"workload_produced":[1,1,1,1,1,1],"skill_level_required":[0,0,0,0,0,0]},
{"id":"p6","mandatory":false,"gender":"A","age_group":"adult","length_of_stay":1,
"surgery_release_day":0,"surgery_duration":10,"surgeon_id":"s0","incompatible_room_ids":[],
"workload_produced":[1,1,1],"skill_level_required":[0,0,0]}],
"surgeons":[{"id":"s0","max_surgery_time":[100,100]}],
"operating_theaters":[{"id":"ta","availability":[60,60]}],
"rooms":[{"id":"rc","capacity":3},{"id":"ra","capacity":3}],
"nurses":[{"id":"nb","skill_level":0,"working_shifts":[{"day":0,"shift":"early","max_load":9}]},
{"id":"na","skill_level":0,"working_shifts":[{"day":0,"shift":"early","max_load":9},
{"day":0,"shift":"late","max_load":9},{"day":1,"shift":"early","max_load":9}]}]}
> # each line of what is said
> 0 carry o s n q
new: p9
gone: p5
dropped: p4, the day is past the last
dropped: p3, the theatre has gone
dropped: p2, the room has gone
nurse na: 1 dropped, the day is past the last
nurse na: 1 dropped, the room has gone
nurse nc: 1 dropped, the nurse has gone
nurse nb: 1 dropped, the nurse doesn't work then
no occupant: oa
1 stays and 3 nurses' shifts kept, 3 and 4 dropped; 1 new, 1 gone, 1 no occupants
> is q
{"nurses":[{"assignments":[{"day":0,"rooms":["rc"],"shift":"early"}],"id":"nb"},{"assignments":[{"day":0,"rooms":["ra"],"shift":"early"},{"day":0,"rooms":["ra"],"shift":"late"}],"id":"na"}],"patients":[{"admission_day":"none","id":"p9"},{"admission_day":"none","id":"p4"},{"admission_day":"none","id":"p3"},{"admission_day":"none","id":"p2"},{"admission_day":0,"id":"p1","operating_theater":"ta","room":"ra"},{"admission_day":"none","id":"p6"}]}
> # what it wrote is a plan of the new ward
> 9 check n q
V1 0
…
> # a day later
> 0 carry o s n q --days 1
new: p9
gone: p5
dropped: p3, the theatre has gone
dropped: p2, the room has gone
dropped: p1, the day is before the first
nurse nc: 1 dropped, the nurse has gone
no occupant: p1
1 stays and 1 nurses' shifts kept, 3 and 1 dropped; 1 new, 1 gone, 1 no occupants
> is q
{"nurses":[{"assignments":[],"id":"nb"},{"assignments":[{"day":1,"rooms":["ra"],"shift":"early"}],"id":"na"}],"patients":[{"admission_day":"none","id":"p9"},{"admission_day":1,"id":"p4","operating_theater":"ta","room":"ra"},{"admission_day":"none","id":"p3"},{"admission_day":"none","id":"p2"},{"admission_day":"none","id":"p1"},{"admission_day":"none","id":"p6"}]}
> # behind the whole horizon: who came on its last day lies there
> 0 carry o s n q --days 3
new: p9
gone: p5
dropped: p4, the day is before the first
dropped: p3, the day is before the first
dropped: p2, the day is before the first
dropped: p1, the day is before the first
no occupant: p4
0 stays and 0 nurses' shifts kept, 4 and 0 dropped; 1 new, 1 gone, 1 no occupants
> # and a day more
> 0 carry o s n q --days 4
new: p9
gone: p5
dropped: p4, the day is before the first
dropped: p3, the day is before the first
dropped: p2, the day is before the first
dropped: p1, the day is before the first
0 stays and 0 nurses' shifts kept, 4 and 0 dropped; 1 new, 1 gone, 0 no occupants
> # back to the ward before
> 0 carry n q o r
new: p5
gone: p9
0 stays and 0 nurses' shifts kept, 0 and 0 dropped; 1 new, 1 gone, 0 no occupants
"#;

#[test]
fn what_is_carried(rt: HostRuntime) {
    goes(&rt, rt.alloc(), WARDS);
}

// No plan is written where a file is missing or refused, which is named, or has another one's name, or where the days are
// no number of days. A plan whose write is to fail is cut off; where it is only that the text can't be put out, it is whole.
const NO_PLANS: &str = "
> lay two admitted
> store n
= ward
> 2 carry k s n q
cannot read k
> 2 carry i k n q
cannot read k
> 2 carry i s k q
cannot read k
> each 1 error: …'--help'.
carry i s n s
carry i s i q
carry i i n q
carry i s n n
carry i s n
carry i s n q r
carry i s n q --days 57
carry i s n q --days x
> store x
> 3 carry x s n q
x: instance refused: NotJson at $
  line 1, column 1: the file is empty
> 4 carry i x n q
x: solution refused: NotJson at $
  line 1, column 1: the file is empty
> 3 carry i s x q
x: new instance refused: NotJson at $
  line 1, column 1: the file is empty
> no q
> fail-write 1 9
> 6 carry i s n q
cannot write q
> is q
{\"nurses\"
> cut 1 6 carry i s n q
> 0 carry i s n q
…
> says 0 carry --help
Carries a plan…
";

#[test]
fn calls_without_a_plan(rt: HostRuntime) {
    goes(&rt, rt.alloc(), NO_PLANS);
}
