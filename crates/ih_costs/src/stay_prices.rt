//! What another stay of a patient, or none, changes in the bill, told day by day.

ghost use Rattle.std.specs.Prelude.{◌≡◌, ◌^◌, Some};
ghost use Rattle.ih_tables.specs.{Bills.IsWithin};
ghost use Rattle.ih_plan.specs.{declared.moves.Write.TheVariants.SetStay, Timetable.stay_of};
ghost use Rattle.ih_plan.specs.{Writes.put, Writes.IsWriteOf, BillOf.change_of_bill};
ghost use Rattle.ih_costs.specs.CellLedgers.{AreLedgers, timetable_of};
ghost use Rattle.ih_costs.specs.StayDelta.{IsTrial, days_more, of_surgery, placement_delta, shifts_more, stay_delta};

use crate::cell_ledgers::CellLedgers;
use crate::stays::stay_change;
use ih_nurses::Visit;
use ih_plan::{Placement, end_of};
use ih_tables::bill_numbers::{
    ADMISSION_WINDOW, CONTINUITY_OF_CARE, INCOMPATIBLE_ROOM, MIXED_AGE, MIXED_GENDER, OPEN_THEATRE,
    PATIENT_DELAY, ROOM_CAPACITY, SURGEON_OVERRUN, SURGEON_TRANSFER, THEATRE_OVERRUN,
    UNSCHEDULED_MANDATORY, UNSCHEDULED_OPTIONAL,
};
use ih_tables::{Bill, Day, Instance, PatientNo, Shift};

// What a room has more over the days of a placement: mixed genders, persons above its capacity, spread of ages.
#[derive(Clone, Copy)]
struct DaysMore {
    mixed: i64,
    crowded: i64,
    ages: i64,
}

// What a room and its nurses have more over the shifts of a placement: shifts without a nurse, missing skill,
// and excess workload.
#[derive(Clone, Copy)]
struct ShiftsMore {
    uncovered: i64,
    missing_skill: i64,
    overload: i64,
}

// A placement of a patient that is tried, whose stay is `old` so far.
#[derive(Clone, Copy)]
struct Trial {
    patient: PatientNo,
    old: Option<Placement>,
    at: Placement,
}

impl CellLedgers {
    // What the room has more over the days of a placement with the patient there than without.
    fn more_over_days(&self, inst: &Instance, trial: &Trial) -> DaysMore
        requires { IsTrial inst.now.draft self.now trial.now.patient trial.now.old trial.now.at }
        ensures { result ≡ days_more inst.now.draft (timetable_of self.now) trial.now.patient trial.now.at }
    {
        let Trial { patient, old, at } = *trial;
        let end = end_of(inst, patient, at);
        let mut mixed: i64 = 0;
        let mut crowded: i64 = 0;
        let mut ages: i64 = 0;
        for d in at.day.0..end {
            let day = self.room_days.day_delta(inst, patient, old, at, Day(d));
            mixed += day.v[MIXED_GENDER];
            crowded += day.v[ROOM_CAPACITY];
            ages += day.s[MIXED_AGE];
        }
        DaysMore {
            mixed,
            crowded,
            ages,
        }
    }

    // What the room and its nurses have more over the shifts of a placement with the patient there than without.
    fn more_over_shifts(&self, inst: &Instance, trial: &Trial) -> ShiftsMore
        requires { IsTrial inst.now.draft self.now trial.now.patient trial.now.old trial.now.at }
        ensures { result ≡ shifts_more inst.now.draft (timetable_of self.now) trial.now.patient trial.now.at }
    {
        let Trial { patient, old, at } = *trial;
        let end = end_of(inst, patient, at);
        let visit = Visit::new(inst, patient, old, at);
        let mut uncovered: i64 = 0;
        let mut missing_skill: i64 = 0;
        let mut overload: i64 = 0;
        for k in 3 * at.day.0..3 * end {
            let delta = self.nurses.shift_delta(inst, Shift(k), &visit);
            uncovered += delta.uncovered as i64;
            missing_skill += delta.missing_skill as i64;
            overload += delta.overload as i64;
        }
        ShiftsMore {
            uncovered,
            missing_skill,
            overload,
        }
    }

    // The numbers of a placement's delta that rest on its theatre and its surgeon; the others are 0.
    #[inline(always)]
    fn surgery_delta(&self, inst: &Instance, trial: &Trial) -> Bill
        requires { IsTrial inst.now.draft self.now trial.now.patient trial.now.old trial.now.at }
        ensures { result
            ≡ of_surgery (placement_delta inst.now.draft (timetable_of self.now) trial.now.patient trial.now.at) }
    {
        let Trial { patient, old, at } = *trial;
        let surgeon = inst.patient(patient).surgeon_id;
        let of_theatre = self.theatres.theatre_delta(inst, patient, old, at);
        let of_surgeon = self.theatres.surgeon_delta(inst, surgeon, patient, old, at);
        let mut bill = Bill::zero();
        bill.v[SURGEON_OVERRUN] = of_surgeon.v[SURGEON_OVERRUN];
        bill.v[THEATRE_OVERRUN] = of_theatre.v[THEATRE_OVERRUN];
        bill.s[OPEN_THEATRE] = of_theatre.s[OPEN_THEATRE];
        bill.s[SURGEON_TRANSFER] = of_surgeon.s[SURGEON_TRANSFER];
        bill
    }

    // What a placement costs once it is made, less what its cells cost without it.
    fn delta(&self, inst: &Instance, trial: &Trial) -> Bill
        requires { IsTrial inst.now.draft self.now trial.now.patient trial.now.old trial.now.at }
        ensures delta { result ≡ placement_delta inst.now.draft (timetable_of self.now) trial.now.patient trial.now.at }
        ensures within { IsWithin (10 ^ 11) result }
    {
        let own = stay_change(inst.patient(trial.patient), trial.at);
        let surgery = self.surgery_delta(inst, trial);
        let care = self.nurses.care_delta(inst, trial.patient, trial.at);
        let days = self.more_over_days(inst, trial);
        let shifts = self.more_over_shifts(inst, trial);
        Bill {
            v: [
                days.mixed,
                own.v[INCOMPATIBLE_ROOM],
                surgery.v[SURGEON_OVERRUN],
                surgery.v[THEATRE_OVERRUN],
                own.v[UNSCHEDULED_MANDATORY],
                own.v[ADMISSION_WINDOW],
                days.crowded,
                0,
                shifts.uncovered,
            ],
            s: [
                days.ages,
                shifts.missing_skill,
                care.s[CONTINUITY_OF_CARE],
                shifts.overload,
                surgery.s[OPEN_THEATRE],
                surgery.s[SURGEON_TRANSFER],
                own.s[PATIENT_DELAY],
                own.s[UNSCHEDULED_OPTIONAL],
            ],
        }
    }

    // The delta of a stay of the patient, whose stay is `old` so far: nothing where it is none.
    fn delta_of_stay(
        &self,
        inst: &Instance,
        patient: PatientNo,
        old: Option<Placement>,
        stay: Option<Placement>,
    ) -> Bill
        requires stands { AreLedgers inst.now.draft self.now }
        requires write { IsWriteOf inst.now.draft (SetStay patient stay) }
        requires old_stay { stay_of (timetable_of self.now) patient.0 ≡ old }
        ensures delta { result ≡ stay_delta inst.now.draft (timetable_of self.now) patient stay }
        ensures within { IsWithin (10 ^ 11) result }
    {
        match stay {
            None => Bill::zero(),
            Some(at) => self.delta(inst, &Trial { patient, old, at }),
        }
    }

    // What another theatre changes in the bill: the patient keeps the room and the day of the stay so far, `from`.
    fn theatre_price(
        &self,
        inst: &Instance,
        patient: PatientNo,
        from: Placement,
        to: Placement,
    ) -> Bill
        requires stands { AreLedgers inst.now.draft self.now }
        requires write { IsWriteOf inst.now.draft (SetStay patient (Some to)) }
        requires stay { stay_of (timetable_of self.now) patient.0 ≡ Some from }
        requires room { to.room ≡ from.room }
        requires day { to.day ≡ from.day }
        ensures { result ≡ change_of_bill inst.now.draft (timetable_of self.now)
            (put (SetStay patient (Some to)) (timetable_of self.now)) }
    {
        let old = Some(from);
        let after = self.surgery_delta(
            inst,
            &Trial {
                patient,
                old,
                at: to,
            },
        );
        let before = self.surgery_delta(
            inst,
            &Trial {
                patient,
                old,
                at: from,
            },
        );
        after.sub(&before)
    }

    /// What another stay of a patient, or none, changes in the bill. It isn't made.
    pub fn stay_price(&self, inst: &Instance, patient: PatientNo, new: Option<Placement>) -> Bill
        requires stands { AreLedgers inst.now.draft self.now }
        requires write { IsWriteOf inst.now.draft (SetStay patient new) }
        ensures { result ≡ change_of_bill inst.now.draft (timetable_of self.now)
            (put (SetStay patient new) (timetable_of self.now)) }
    {
        let old = self.plan().stay(patient);
        if new == old {
            return Bill::zero();
        }
        match (old, new) {
            (Some(from), Some(to)) if to.room == from.room && to.day == from.day => {
                self.theatre_price(inst, patient, from, to)
            }
            _ => {
                let after = self.delta_of_stay(inst, patient, old, new);
                let before = self.delta_of_stay(inst, patient, old, old);
                after.sub(&before)
            }
        }
    }
}
