//! Which choices of a start stay, whatever they cost or break.

ghost use Rattle.std.specs.Prelude.{◌≡◌, ◌+◌, ◌≤◌};
ghost use Rattle.std.specs.{List.list_any, List.range_with_len, Str.bytes_eq};
ghost use Rattle.ih_plan.specs.Timetable.{IsPlanOf};
ghost use Rattle.ih_changes.specs.Changes.{is_occupied};

use ih_changes::is_occupied;
use ih_plan::Plan;
use ih_tables::{Instance, PatientNo, RoomNo};
use std::alloc::{AllocError, Global};
use std::marker::Model;

/// Which choices of a start are pinned: the stays of some patients, and maybe the nurses of all rooms that are occupied
/// there.
#[derive(Drop)]
pub struct Pins {
    // A flag for each patient.
    patients: Vec<bool>,
    nurses: bool,
}

impl Model for Pins {
    ghost use Rattle.ih_improve.specs.Pinned.{PinsState};

    ghost Value = { PinsState };

    ghost view = { λ p. record { patients = p.patients.items; nurses = p.nurses } };
}

// The id is one of these.
fn is_among(id: &str, ids: &[&str]) -> bool
    ensures { result ≡ list_any (λ s. bytes_eq id.now s.now) ids.now }
{
    ids.iter().any(|other| id == *other)
}

// Whether the room is occupied on one of so many days from a day on.
fn is_occupied_from(inst: &Instance, plan: &Plan, room: RoomNo, day: u32, len: u32) -> bool
    requires plan { IsPlanOf inst.now.draft plan.now }
    requires days { day + len ≤ 1000 }
    ensures { result ≡ list_any (is_occupied inst.now.draft plan.now room.0) (range_with_len day len) }
{
    if len == 0 {
        return false;
    }
    is_occupied(inst, plan, room, day) || is_occupied_from(inst, plan, room, day + 1, len - 1)
}

impl Pins {
    ghost use Rattle.std.specs.Prelude.{◌≡◌, ◌+◌, ◌≤◌, IfOk, map};
    ghost use Rattle.ih_plan.specs.Timetable.{IsPlanOf};
    ghost use Rattle.ih_improve.specs.Pinned.{is_pinned, is_pinned_on, is_run_pinned, pins_of};

    /// The patients of these ids are pinned, and maybe the nurses. An id that names nobody pins nobody.
    pub fn of(
        alloc: Global,
        inst: &Instance,
        ids: &[&str],
        nurses: bool,
    ) -> Result<Pins, AllocError>
        ensures { IfOk result (λ pins. pins ≡ pins_of inst.now.draft (map (λ t. t.now) ids.now) nurses) }
    {
        let mut patients = Vec::new(alloc);
        for p in 0..inst.patients() {
            patients.push(is_among(inst.patient(PatientNo(p)).id.as_str(), ids))?;
        }
        Ok(Pins { patients, nurses })
    }

    /// Whether the patient's stay is pinned.
    pub(crate) fn has_patient(&self, patient: PatientNo) -> bool
        ensures { result ≡ is_pinned self.now patient.0 }
    {
        self.patients
            .as_slice()
            .get(patient.0 as usize)
            .copied()
            .unwrap_or(false)
    }

    /// Whether the nurses of the room are pinned on the day.
    pub(crate) fn has_day(&self, inst: &Instance, start: &Plan, room: RoomNo, day: u32) -> bool
        requires { IsPlanOf inst.now.draft start.now }
        ensures { result ≡ is_pinned_on inst.now.draft start.now self.now room.0 day }
    {
        self.nurses && is_occupied(inst, start, room, day)
    }

    /// Whether the nurses of the room are pinned on one of so many days from a day on.
    pub(crate) fn has_run(
        &self,
        inst: &Instance,
        start: &Plan,
        room: RoomNo,
        day: u32,
        len: u32,
    ) -> bool
        requires start { IsPlanOf inst.now.draft start.now }
        requires days { day + len ≤ 1000 }
        ensures { result ≡ is_run_pinned inst.now.draft start.now self.now room.0 day len }
    {
        self.nurses && is_occupied_from(inst, start, room, day, len)
    }
}
