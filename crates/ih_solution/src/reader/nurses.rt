//! The nurses' items, each with its assignments.

ghost use Rattle.std.specs.Prelude.{◌≡◌, ◌<◌, ◌^◌, false, IfOk, All, [], map, length};
ghost use Rattle.serde_json.specs.View.{view};
ghost use Rattle.ih_tables.specs.Sizes.{nurse_count, shift_count};
ghost use Rattle.ih_tables.specs.Marks.{is_marked};
ghost use Rattle.ih_plan.specs.Timetable.{IsPlanOf};
ghost use Rattle.ih_format.specs.{Gives.Gives, Gives.seen, Checks.each, Checks.under};
ghost use Rattle.ih_solution.specs.Assigned.{IsFree, IsAssignment, IsListedNurse};
ghost use Rattle.ih_solution.specs.Reading.{has_nurse, free_room, free_rooms, assignment, assignments, nurse_row};
ghost use Rattle.ih_solution.specs.Reading.{nurse_rows, nurses, cares_of};

use crate::reader::assigned::assign_all;
use crate::reader::rows::{Assignment, ListedNurse};
use crate::reader::{lists, references};
use ih_format::{FormatError, json_values, keys};
use ih_plan::Plan;
use ih_tables::{Fault, Instance, Key, List, Place, Refusal, RoomNo, Shift};
use serde_json::Value;
use std::alloc::Global;

// What the nurses' items are read with: the instance, and the timetable of what was read so far.
#[derive(Drop)]
struct Reader<'a> {
    alloc: Global,
    inst: &'a Instance,
    plan: &'a Plan,
}

impl<'a> Reader<'a> {
    /// A room that no nurse has in the shift; else TwoNurses.
    #[tactic(auto, using(crate::proofs::ListedValues::place_steps))]
    fn free_room(&self, shift: Shift, value: &Value, at: Place) -> Result<RoomNo, Refusal>
        requires plan { IsPlanOf self.now.inst.now.draft self.now.plan.now }
        requires shift { shift.0 < shift_count self.now.inst.now.draft }
        ensures free { IfOk result (IsFree self.now.inst.now.draft self.now.plan.now shift.0) }
        ensures gives { result
            ≡ free_room self.now.inst.now.draft (has_nurse self.now.plan.now) shift.0 at (view value.now) }
    {
        let room = references::room(self.inst, value, at)?;
        if self.plan.care(room, shift).is_some() {
            return Err(json_values::refusal(Fault::TwoNurses, at));
        }
        Ok(room)
    }

    #[tactic(auto, using(crate::proofs::References::reading_all))]
    fn each_room(
        &self,
        shift: Shift,
        values: &[Value],
        at: Place,
    ) -> Result<List<RoomNo>, FormatError>
        requires few { length values.now < 2 ^ 32 }
        requires plan { IsPlanOf self.now.inst.now.draft self.now.plan.now }
        requires shift { shift.0 < shift_count self.now.inst.now.draft }
        ensures free { IfOk result (All (IsFree self.now.inst.now.draft self.now.plan.now shift.0)) }
        ensures gives { Gives (λ xs. xs) result
            (each (λ _. free_room self.now.inst.now.draft (has_nurse self.now.plan.now) shift.0) at
            (map view values.now)) }
    {
        let mut rooms = Vec::new(self.alloc);
        let mut i = 0;
        for value in values {
            rooms.push(self.free_room(shift, value, at.item(i))?)?;
            i += 1;
        }
        Ok(List::new(rooms))
    }

    fn rooms(&self, shift: Shift, object: &Value, at: Place) -> Result<List<RoomNo>, FormatError>
        requires plan { IsPlanOf self.now.inst.now.draft self.now.plan.now }
        requires shift { shift.0 < shift_count self.now.inst.now.draft }
        ensures free { IfOk result (All (IsFree self.now.inst.now.draft self.now.plan.now shift.0)) }
        ensures gives { Gives (λ xs. xs) result
            (under at (view object.now) Key.Rooms
            (free_rooms self.now.inst.now.draft (has_nurse self.now.plan.now) shift.0)) }
    {
        let value = json_values::value_of(object, Key::Rooms, at)?;
        let at = at.key(Key::Rooms);
        self.each_room(shift, lists::items(value, at)?, at)
    }

    #[tactic(auto, unfolding(crate::specs::Reading::assignment))]
    fn assignment(&self, value: &Value, at: Place) -> Result<Assignment, FormatError>
        requires plan { IsPlanOf self.now.inst.now.draft self.now.plan.now }
        ensures fits { IfOk result (IsAssignment self.now.inst.now.draft self.now.plan.now) }
        ensures gives { Gives (λ a. a) result
            (assignment self.now.inst.now.draft (has_nurse self.now.plan.now) at (view value.now)) }
    {
        let _ = json_values::object(value, at)?;
        let day = keys::number(value, Key::Day, 0, self.inst.days() - 1, at)?;
        let shift = json_values::value_of(value, Key::Shift, at)?;
        let shift = references::shift_type(self.inst, shift, at.key(Key::Shift))?;
        let shift = Shift(3 * day + shift);
        let rooms = self.rooms(shift, value, at)?;
        Ok(Assignment { shift, rooms })
    }

    #[tactic(auto, using(crate::proofs::References::reading_all))]
    fn each_assignment(&self, values: &[Value], at: Place) -> Result<List<Assignment>, FormatError>
        requires few { length values.now < 2 ^ 32 }
        requires plan { IsPlanOf self.now.inst.now.draft self.now.plan.now }
        ensures fits { IfOk result (All (IsAssignment self.now.inst.now.draft self.now.plan.now)) }
        ensures gives { Gives (λ xs. xs) result
            (each (λ _. assignment self.now.inst.now.draft (has_nurse self.now.plan.now)) at (map view values.now)) }
    {
        let mut given = Vec::new(self.alloc);
        let mut i = 0;
        for value in values {
            given.push(self.assignment(value, at.item(i))?)?;
            i += 1;
        }
        Ok(List::new(given))
    }

    fn assignments(&self, object: &Value, at: Place) -> Result<List<Assignment>, FormatError>
        requires plan { IsPlanOf self.now.inst.now.draft self.now.plan.now }
        ensures fits { IfOk result (All (IsAssignment self.now.inst.now.draft self.now.plan.now)) }
        ensures gives { Gives (λ xs. xs) result
            (under at (view object.now) Key.Assignments
            (assignments self.now.inst.now.draft (has_nurse self.now.plan.now))) }
    {
        let value = json_values::value_of(object, Key::Assignments, at)?;
        let at = at.key(Key::Assignments);
        self.each_assignment(lists::items(value, at)?, at)
    }

    /// A nurse whom no earlier item has, with the assignments.
    #[tactic(auto, unfolding(crate::specs::Reading::nurse_row))]
    fn nurse_row(
        &self,
        value: &Value,
        earlier: &[bool],
        at: Place,
    ) -> Result<ListedNurse, FormatError>
        requires plan { IsPlanOf self.now.inst.now.draft self.now.plan.now }
        requires earlier { length earlier.now ≡ nurse_count self.now.inst.now.draft }
        ensures new { IfOk result (λ row. is_marked earlier.now row.nurse.0 ≡ false) }
        ensures fits { IfOk result (IsListedNurse self.now.inst.now.draft self.now.plan.now) }
        ensures gives { Gives (λ row. row) result
            (nurse_row self.now.inst.now.draft (is_marked earlier.now)
            (has_nurse self.now.plan.now) at (view value.now)) }
    {
        let _ = json_values::object(value, at)?;
        let id = json_values::value_of(value, Key::Id, at)?;
        let nurse = references::nurse(self.inst, id, at.key(Key::Id))?;
        if earlier[nurse.0 as usize] {
            let refusal = json_values::refusal(Fault::Duplicate, at.key(Key::Id));
            return Err(FormatError::Refused(refusal));
        }
        let assignments = self.assignments(value, at)?;
        Ok(ListedNurse { nurse, assignments })
    }
}

// The timetable with the assignments of the nurses' items.
fn each_nurse(
    alloc: Global,
    inst: &Instance,
    mut plan: Plan,
    values: &[Value],
    at: Place,
) -> Result<Plan, FormatError>
    requires few { length values.now < 2 ^ 32 }
    requires plan { IsPlanOf inst.now.draft plan }
    requires empty { plan.cares ≡ cares_of inst.now.draft [] }
    ensures plan { IfOk result (IsPlanOf inst.now.draft) }
    ensures gives { Gives (λ p. p) result
        (seen (λ rows. record plan { cares = cares_of inst.now.draft rows })
        (nurse_rows inst.now.draft at (map view values.now))) }
{
    let mut listed = lists::no_flags(alloc, inst.nurses())?;
    let mut i = 0;
    for value in values {
        let reader = Reader {
            alloc,
            inst,
            plan: &plan,
        };
        let row = reader.nurse_row(value, listed.as_slice(), at.item(i))?;
        listed[row.nurse.0 as usize] = true;
        assign_all(inst, &mut plan, &row);
        i += 1;
    }
    Ok(plan)
}

/// The timetable with the assignments of an object's nurses.
pub fn cares(
    alloc: Global,
    inst: &Instance,
    plan: Plan,
    object: &Value,
    at: Place,
) -> Result<Plan, FormatError>
    requires plan { IsPlanOf inst.now.draft plan }
    requires empty { plan.cares ≡ cares_of inst.now.draft [] }
    ensures plan { IfOk result (IsPlanOf inst.now.draft) }
    ensures gives { Gives (λ p. p) result
        (seen (λ rows. record plan { cares = cares_of inst.now.draft rows })
        (under at (view object.now) Key.Nurses (nurses inst.now.draft))) }
{
    let value = json_values::value_of(object, Key::Nurses, at)?;
    let at = at.key(Key::Nurses);
    each_nurse(alloc, inst, plan, lists::items(value, at)?, at)
}
