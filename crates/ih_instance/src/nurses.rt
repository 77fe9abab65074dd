//! Nurses, with the shifts that they work.

ghost use Rattle.std.specs.Prelude.{◌≡◌, ◌<◌, ◌≤◌, ◌+◌, ◌*◌, ℕ, List as Items, Some, IfOk, false, map, length};
ghost use Rattle.serde_json.specs.View.{view};
ghost use Rattle.ih_tables.specs.{Lookups.finds, Works.shift_of, Marks.is_marked};
ghost use Rattle.ih_format.specs.{Gives.Gives, Checks.under};
ghost use Rattle.ih_instance.specs.Instance.{worked, each_worked, worked_shifts, nurse};

use ih_format::reads::Reads;
use ih_format::{FormatError, Row, json_values, keys};
use ih_tables::{Day, Fault, Key, List, Names, Nurse, Place, Refusal, WorkedShift};
use serde_json::Value;
use std::alloc::Global;

/// The reader of nurses.
#[derive(Drop)]
pub struct Nurses<'a> {
    pub days: u32,
    pub types: &'a Names,
    pub ghost least: { 1 ≤ days },
    pub ghost most: { days ≤ 56 },
    pub ghost three: { (s : Items ℕ) (k : ℕ) → finds types.now s ≡ Some k → k < 3 },
}

impl<'a> Nurses<'a> {
    /// A worked shift. It is a Duplicate where the nurse works that shift already, which is told last.
    #[tactic(auto, unfolding(crate::specs::Instance::worked))]
    fn worked(&self, value: &Value, taken: &[bool], at: Place) -> Result<WorkedShift, Refusal>
        requires { length taken.now ≡ 168 }
        ensures free { IfOk result (λ w. is_marked taken.now (shift_of w) ≡ false) }
        ensures inside { IfOk result (λ w. shift_of w < 168) }
        ensures gives { result
            ≡ worked self.now.days (finds self.now.types.now) (is_marked taken.now) at (view value.now) }
    {
        let _ = json_values::object(value, at)?;
        let day = keys::number(value, Key::Day, 0, self.days - 1, at)?;
        let shift = keys::reference(value, Key::Shift, self.types, at)?;
        let max_load = keys::number(value, Key::MaxLoad, 0, 100_000, at)?;
        if taken[(3 * day + shift) as usize] {
            return Err(json_values::refusal(Fault::Duplicate, at));
        }
        Ok(WorkedShift {
            day: Day(day),
            shift,
            max_load,
        })
    }

    fn each_worked(
        &self,
        alloc: Global,
        values: &[Value],
        at: Place,
    ) -> Result<List<WorkedShift>, FormatError>
        ensures { Gives (λ xs. xs) result
            (each_worked self.now.days (finds self.now.types.now) at (map view values.now)) }
    {
        // One flag for each shift of the longest horizon: no look back over the shifts read so far.
        let mut taken = [false; 168];
        let mut shifts = Vec::new(alloc);
        let mut i = 0;
        for value in values {
            let shift = self.worked(value, &taken, at.item(i))?;
            taken[(3 * shift.day.0 + shift.shift) as usize] = true;
            shifts.push(shift)?;
            i += 1;
        }
        Ok(List::new(shifts))
    }

    fn worked_shifts(&self, alloc: Global, row: Row) -> Result<List<WorkedShift>, FormatError>
        ensures { Gives (λ xs. xs) result
            (under row.entry.at (view row.entry.value.now) Key.WorkingShifts
            (worked_shifts self.now.days (finds self.now.types.now))) }
    {
        let at = row.at.key(Key::WorkingShifts);
        let value = json_values::value_of(row.value, Key::WorkingShifts, row.at)?;
        let values = json_values::list(value, at)?;
        self.each_worked(alloc, values, at)
    }
}

impl<'a> Reads for Nurses<'a> {
    type Item = Nurse;

    ghost reading = { λ r. nurse r.days (finds r.types.now) };

    #[tactic(auto, unfolding(crate::specs::Instance::nurse))]
    fn read(&self, alloc: Global, row: Row) -> Result<Nurse, FormatError> {
        let id = row.id(alloc)?;
        let skill_level = keys::number(row.value, Key::SkillLevel, 0, 1000, row.at)?;
        let working_shifts = self.worked_shifts(alloc, row)?;
        Ok(Nurse {
            id,
            skill_level,
            working_shifts,
        })
    }
}
