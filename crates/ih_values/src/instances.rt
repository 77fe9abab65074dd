//! An instance as a JSON value.

ghost use Rattle.std.specs.Prelude.{◌≡◌, IfOk};
ghost use Rattle.serde_json.specs.View.{view};
ghost use Rattle.ih_values.specs.InstanceData.{instance_data, nurse_data, occupant_data, patient_data, person_data};
ghost use Rattle.ih_values.specs.InstanceData.{persons_data, places_data, room_data, staff_data, surgeon_data, theatre_data};
ghost use Rattle.ih_values.specs.InstanceData.{window_data, worked_data};
ghost use Rattle.ih_solution.specs.Solution.{number_data};

use crate::objects::Object;
use crate::values::{Made, Shown, list_value};
use ih_tables::{
    Draft, List, Name, Nurse, Occupant, Patient, Room, RoomNo, Surgeon, Theatre, WorkedShift,
};
use serde_json::Value;
use std::alloc::Global;

impl Shown for RoomNo {
    ghost json = { λ r. number_data r.0 };

    fn value(&self, _alloc: Global) -> Made {
        Ok(Value::from(self.0))
    }
}

impl Shown for Room {
    ghost json = { room_data };

    fn value(&self, alloc: Global) -> Made {
        Object::new(alloc)
            .show("capacity", &self.capacity)?
            .show("id", &self.id)?
            .value()
    }
}

impl Shown for Theatre {
    ghost json = { theatre_data };

    fn value(&self, alloc: Global) -> Made {
        Object::new(alloc)
            .show("id", &self.id)?
            .show_all("minutes", self.availability.as_slice())?
            .value()
    }
}

impl Shown for Surgeon {
    ghost json = { surgeon_data };

    fn value(&self, alloc: Global) -> Made {
        Object::new(alloc)
            .show("id", &self.id)?
            .show_all("minutes", self.max_surgery_time.as_slice())?
            .value()
    }
}

impl Shown for WorkedShift {
    ghost json = { worked_data };

    fn value(&self, alloc: Global) -> Made {
        list_value(alloc, &[self.day.0, self.shift, self.max_load])
    }
}

impl Shown for Nurse {
    ghost json = { nurse_data };

    fn value(&self, alloc: Global) -> Made {
        Object::new(alloc)
            .show("id", &self.id)?
            .show_all("shifts", self.working_shifts.as_slice())?
            .show("skill", &self.skill_level)?
            .value()
    }
}

// What patients and occupants have alike.
#[derive(Clone, Copy)]
struct Person<'a> {
    age: u32,
    gender: &'a Name,
    id: &'a Name,
    loads: &'a List<u32>,
    skills: &'a List<u32>,
    stay: u32,
}

impl Shown for Person<'_> {
    ghost json = { λ x. person_data x.age x.gender.now x.id.now x.loads.now x.skills.now x.stay };

    #[tactic(auto, unfolding(crate::specs::InstanceData::person_data))]
    fn value(&self, alloc: Global) -> Made {
        Object::new(alloc)
            .show("age", &self.age)?
            .show("gender", self.gender)?
            .show("id", self.id)?
            .show_all("loads", self.loads.as_slice())?
            .show_all("skills", self.skills.as_slice())?
            .show("stay", &self.stay)?
            .value()
    }
}

impl Shown for Occupant {
    ghost json = { occupant_data };

    fn value(&self, alloc: Global) -> Made {
        let person = Person {
            age: self.age_group,
            gender: &self.gender,
            id: &self.id,
            loads: &self.workload_produced,
            skills: &self.skill_level_required,
            stay: self.length_of_stay,
        };
        Object::new(alloc)
            .show("person", &person)?
            .show("room", &self.room_id)?
            .value()
    }
}

#[tactic(auto, unfolding(crate::specs::InstanceData::window_data))]
fn window_value(alloc: Global, patient: &Patient) -> Made
    ensures { IfOk result (λ v. view v ≡ window_data patient.now) }
{
    Object::new(alloc)
        .show("due", &patient.surgery_due_day)?
        .show("mandatory", &patient.mandatory)?
        .show("release", &patient.surgery_release_day)?
        .value()
}

impl Shown for Patient {
    ghost json = { patient_data };

    fn value(&self, alloc: Global) -> Made {
        let person = Person {
            age: self.age_group,
            gender: &self.gender,
            id: &self.id,
            loads: &self.workload_produced,
            skills: &self.skill_level_required,
            stay: self.length_of_stay,
        };
        Object::new(alloc)
            .show("minutes", &self.surgery_duration)?
            .show("person", &person)?
            .show("surgeon", &self.surgeon_id.0)?
            .show_all("unsuited", self.incompatible_room_ids.as_slice())?
            .put("window", window_value(alloc, self))?
            .value()
    }
}

#[tactic(auto, unfolding(crate::specs::InstanceData::persons_data))]
fn persons_value(alloc: Global, draft: &Draft) -> Made
    ensures { IfOk result (λ v. view v ≡ persons_data draft.now) }
{
    Object::new(alloc)
        .show_all("occupants", draft.occupants.as_slice())?
        .show_all("patients", draft.patients.as_slice())?
        .value()
}

#[tactic(auto, unfolding(crate::specs::InstanceData::places_data))]
fn places_value(alloc: Global, draft: &Draft) -> Made
    ensures { IfOk result (λ v. view v ≡ places_data draft.now) }
{
    Object::new(alloc)
        .show_all("rooms", draft.rooms.as_slice())?
        .show_all("theatres", draft.operating_theaters.as_slice())?
        .value()
}

#[tactic(auto, unfolding(crate::specs::InstanceData::staff_data))]
fn staff_value(alloc: Global, draft: &Draft) -> Made
    ensures { IfOk result (λ v. view v ≡ staff_data draft.now) }
{
    Object::new(alloc)
        .show_all("nurses", draft.nurses.as_slice())?
        .show_all("surgeons", draft.surgeons.as_slice())?
        .value()
}

impl Shown for Draft {
    ghost json = { instance_data };

    #[tactic(auto, unfolding(crate::specs::InstanceData::instance_data))]
    fn value(&self, alloc: Global) -> Made {
        Object::new(alloc)
            .show_all("ages", self.age_groups.as_slice())?
            .show("days", &self.days)?
            .put("persons", persons_value(alloc, self))?
            .put("places", places_value(alloc, self))?
            .show_all("shifts", self.shift_types.as_slice())?
            .put("staff", staff_value(alloc, self))?
            .show_all("weights", self.weights.w.as_slice())?
            .value()
    }
}
