//! Files of small instances.

/// One day, one room, one nurse and one occupant.
pub const WARD: &str = r#"{"days":1,"skill_levels":3,"shift_types":["early","late","night"],
"age_groups":["child","adult","old"],
"weights":{"room_mixed_age":5,"room_nurse_skill":10,"continuity_of_care":2,
"nurse_eccessive_workload":1,"open_operating_theater":30,"surgeon_transfer":7,
"patient_delay":4,"unscheduled_optional":100},
"occupants":[{"id":"a0","gender":"A","age_group":"adult","length_of_stay":1,
"workload_produced":[2,1,1],"skill_level_required":[1,0,2],"room_id":"r0"}],
"patients":[],"surgeons":[],"operating_theaters":[],
"rooms":[{"id":"r0","capacity":2}],
"nurses":[{"id":"n0","skill_level":1,"working_shifts":[
{"day":0,"shift":"early","max_load":2},{"day":0,"shift":"late","max_load":2},
{"day":0,"shift":"night","max_load":2}]}]}"#;

/// Two days, a mandatory patient who stays past the horizon, an optional one, two rooms, two theatres and two nurses.
pub const TWO_PATIENTS: &str =
    r#"{"days":2,"skill_levels":3,"shift_types":["early","late","night"],"age_groups":["child","adult","old"],
"weights":{"room_mixed_age":5,"room_nurse_skill":10,"continuity_of_care":2,"nurse_eccessive_workload":1,
"open_operating_theater":30,"surgeon_transfer":7,"patient_delay":4,"unscheduled_optional":100},
"occupants":[{"id":"a0","gender":"A","age_group":"adult","length_of_stay":1,"workload_produced":[1,1,1],
"skill_level_required":[0,0,2],"room_id":"r0"}],
"patients":[{"id":"p0","mandatory":true,"gender":"A","age_group":"old","length_of_stay":5,
"surgery_release_day":0,"surgery_due_day":1,"surgery_duration":60,"surgeon_id":"s0",
"incompatible_room_ids":["r1"],"workload_produced":[2,2,2,2,2,2],"skill_level_required":[0,0,0,0,0,0]},
{"id":"p1","mandatory":false,"gender":"B","age_group":"child","length_of_stay":1,"surgery_release_day":0,
"surgery_duration":40,"surgeon_id":"s0","incompatible_room_ids":[],"workload_produced":[1,1,1],
"skill_level_required":[2,2,2]}],
"surgeons":[{"id":"s0","max_surgery_time":[100,100]}],
"operating_theaters":[{"id":"t0","availability":[60,60]},{"id":"t1","availability":[60,60]}],
"rooms":[{"id":"r0","capacity":2},{"id":"r1","capacity":1}],
"nurses":[{"id":"n0","skill_level":0,"working_shifts":[{"day":0,"shift":"early","max_load":3},{"day":0,
"shift":"late","max_load":3},{"day":0,"shift":"night","max_load":3},{"day":1,"shift":"early","max_load":3},
{"day":1,"shift":"late","max_load":3},{"day":1,"shift":"night","max_load":3}]},{"id":"n1","skill_level":2,
"working_shifts":[{"day":0,"shift":"early","max_load":10},{"day":0,"shift":"late","max_load":10},{"day":0,
"shift":"night","max_load":10},{"day":1,"shift":"early","max_load":10},{"day":1,"shift":"late","max_load":10},
{"day":1,"shift":"night","max_load":10}]}]}"#;
