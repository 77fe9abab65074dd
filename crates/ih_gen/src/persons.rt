//! What occupants and patients have alike.

ghost use Rattle.std.specs.Prelude.{◌≡◌, ◌*◌, ◌<◌, ◌≤◌, IfOk, OnOk, map};
ghost use Rattle.serde_json.specs.{Data.object, View.view};
ghost use Rattle.ih_plan.specs.Draws.{state_after};
ghost use Rattle.ih_gen.specs.Generated.{person_picks, workloads, skills};
ghost use Rattle.ih_gen.specs.Members.{IsMade, person_members};

use crate::names::{Made, age_name, gender_name, id_value};
use crate::picks::Picks;
use serde_json::{Value, json};
use std::alloc::{AllocError, Global};

/// What is picked of a person first.
#[derive(Clone, Copy)]
pub struct PersonPicks {
    pub gender: u32,
    pub age_group: u32,
    pub length_of_stay: u32,
}

/// Picks a person, who stays 1 to `longest` days.
#[tactic(auto, using(crate::proofs::Streams::stream_steps))]
pub fn pick_person(picks: &mut Picks, longest: u32) -> PersonPicks
    requires some { 0 < longest }
    requires short { longest ≤ 100 }
    ensures picked { result ≡ person_picks picks.old longest }
    ensures stay { result.length_of_stay ≤ longest }
    ensures rest { picks.new ≡ state_after 3 picks.old }
{
    PersonPicks {
        gender: picks.pick(2),
        age_group: picks.pick(4),
        length_of_stay: 1 + picks.pick(longest),
    }
}

/// The workloads and the required skills of a stay.
#[derive(Drop)]
pub struct Needs {
    pub workloads: Vec<Value>,
    pub skills: Vec<Value>,
}

/// Picks the needs of a stay of so many shifts: for each a workload, then a skill.
#[tactic(auto, using(crate::proofs::RowLemmas::need_steps))]
pub fn pick_needs(alloc: Global, picks: &mut Picks, shifts: u32) -> Result<Needs, AllocError>
    ensures workloads { IfOk result (λ needs. map view needs.workloads.items ≡ workloads picks.old shifts) }
    ensures skills { IfOk result (λ needs. map view needs.skills.items ≡ skills picks.old shifts) }
    ensures rest { OnOk result (picks.new ≡ state_after (2 * shifts) picks.old) }
{
    let mut workloads = Vec::new(alloc);
    let mut skills = Vec::new(alloc);
    for _shift in 0..shifts {
        workloads.push(Value::from(1 + picks.pick(3)))?;
        skills.push(Value::from(picks.pick(3)))?;
    }
    Ok(Needs { workloads, skills })
}

/// The person with these picks and needs.
pub fn person_value(
    alloc: Global,
    letter: &str,
    number: u32,
    picked: &PersonPicks,
    needs: Needs,
) -> Made
    ensures { IsMade
        (object (person_members letter.now number picked.now
        (map view needs.skills.items) (map view needs.workloads.items))) result }
{
    let id = id_value(alloc, letter, number)?;
    json!(in alloc; {
        "age_group": age_name(picked.age_group),
        "gender": gender_name(picked.gender),
        "id": id,
        "length_of_stay": picked.length_of_stay,
        "skill_level_required": needs.skills,
        "workload_produced": needs.workloads,
    })
}
