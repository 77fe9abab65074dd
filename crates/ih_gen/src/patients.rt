//! The patients.

ghost use Rattle.std.specs.Prelude.{◌≡◌, ◌<◌, ◌≤◌, None, map};
ghost use Rattle.serde_json.specs.{Data.object, View.view};
ghost use Rattle.ih_plan.specs.Draws.{state_after};
ghost use Rattle.ih_gen.specs.Generated.{patient_picks, patient_members, patient_data, patient_words};
ghost use Rattle.ih_gen.specs.Members.{IsMade};

use crate::members::with_member;
use crate::names::{Made, id_value};
use crate::persons::{Needs, PersonPicks, person_value, pick_needs, pick_person};
use crate::picks::Picks;
use crate::rows::Makes;
use serde_json::{Value, json};
use std::alloc::Global;

/// What is picked for a patient before the needs of the stay.
#[derive(Clone, Copy)]
pub struct PatientPicks {
    pub person: PersonPicks,
    pub release_day: u32,
    /// Days from the release day to the due day of a mandatory patient.
    pub slack: u32,
    pub duration: u32,
    pub incompatible_room: u32,
}

#[tactic(auto, using(crate::proofs::Streams::stream_steps))]
fn patient_picks(picks: &mut Picks) -> PatientPicks
    ensures picks { result ≡ patient_picks picks.old }
    ensures rest { picks.new ≡ state_after 7 picks.old }
    ensures stay { result.person.length_of_stay ≤ 6 }
    ensures release { result.release_day < 28 }
    ensures slack { result.slack < 8 }
{
    PatientPicks {
        person: pick_person(picks, 6),
        release_day: picks.pick(28),
        slack: picks.pick(8),
        duration: 30 + 30 * picks.pick(4),
        incompatible_room: picks.pick(25),
    }
}

// The patient with these picks, without a due day.
fn picked_value(alloc: Global, patient: u32, picked: &PatientPicks, needs: Needs) -> Made
    ensures { IsMade (object
        (patient_members patient picked.now None (map view needs.skills.items) (map view needs.workloads.items)))
        result }
{
    let person = person_value(alloc, "p", patient, &picked.person, needs)?;
    let room = id_value(alloc, "r", picked.incompatible_room)?;
    let rooms = json!(in alloc; [room])?;
    let barred = with_member(alloc, person, "incompatible_room_ids", rooms)?;
    let graded = with_member(alloc, barred, "mandatory", Value::Bool(patient % 20 == 0))?;
    let surgeon = id_value(alloc, "s", (patient / 20 + patient % 20) % 10)?;
    let assigned = with_member(alloc, graded, "surgeon_id", surgeon)?;
    let duration = Value::from(picked.duration);
    let timed = with_member(alloc, assigned, "surgery_duration", duration)?;
    let release = Value::from(picked.release_day);
    with_member(alloc, timed, "surgery_release_day", release)
}

/// Patients of a horizon of so many days.
pub struct Patients {
    pub days: u32,
    pub ghost some: { 0 < days },
}

impl Makes for Patients {
    ghost thing = { λ kind. patient_data kind.days };

    ghost words = { λ _. patient_words };

    #[tactic(auto, using(crate::proofs::Streams::stream_steps))]
    fn make_item(&self, alloc: Global, picks: &mut Picks, patient: u32) -> Made {
        let picked = patient_picks(picks);
        let needs = pick_needs(alloc, picks, 3 * picked.person.length_of_stay)?;
        let value = picked_value(alloc, patient, &picked, needs)?;
        if patient % 20 == 0 {
            let due = (picked.release_day + picked.slack).min(self.days - 1);
            with_member(alloc, value, "surgery_due_day", Value::from(due))
        } else {
            Ok(value)
        }
    }
}
