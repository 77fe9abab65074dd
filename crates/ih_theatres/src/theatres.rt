//! The ledger of theatres and surgeons: it stands for a timetable, and gives what each of their days costs.

ghost use Rattle.std.specs.Prelude.{◌≡◌, ◌<◌, ◌-◌, ◌^◌, Some, None, IfOk};
ghost use Rattle.ih_tables.specs.Sizes.{patient_count, theatre_count, surgeon_count};
ghost use Rattle.ih_tables.specs.{Bills.IsWithin, declared.cells.Cell.TheVariants.TheatreDay};
ghost use Rattle.ih_tables.specs.{declared.cells.Cell.TheVariants.SurgeonDay};
ghost use Rattle.ih_plan.specs.Timetable.{Timetable, empty, stay_of, IsPlacement};
ghost use Rattle.ih_plan.specs.Costs.{surgeon_of, theatre_availability, surgeon_maximum};
ghost use Rattle.ih_plan.specs.{declared.moves.Write.TheVariants.SetStay, Writes.put, BillOf.as_bill, Sums.bit};
ghost use Rattle.ih_plan.specs.{Cells.delta_at, Cells.part_at};
ghost use Rattle.ih_theatres.specs.Ledger.{IsLedgerOf};

use crate::changes::{
    is_operated_by, is_operated_in, is_used_by_others, marks_of_theatres_but, minutes_but,
    surgeon_counts, theatre_counts,
};
use crate::days::{day_count, day_number, is_used, marks_of_theatres};
use crate::marks::count_marked;
use crate::parts::{surgeon_change, surgeon_day_bill, theatre_change, theatre_day_bill};
use ih_links::CompactLinks;
use ih_plan::{Placement, bit};
use ih_tables::{Bill, Day, Instance, PatientNo, SurgeonNo, TheatreNo};
use std::alloc::{AllocError, Global};

/// The surgeries of a timetable by theatre and day, and by surgeon and day.
#[derive(Drop)]
pub struct Theatres {
    // Each patient's theatre, where admitted.
    theatres: Vec<Option<TheatreNo>>,
    // The patients of each day of each theatre, and of each surgeon, both by `day_number`.
    theatre_days: CompactLinks,
    surgeon_days: CompactLinks,
    // The minutes of surgery of the patients of each of these days.
    theatre_minutes: Vec<u32>,
    surgeon_minutes: Vec<u32>,
}

// The minutes that a theatre is open on a day: none past the last day.
fn theatre_availability(inst: &Instance, theatre_no: TheatreNo, day: Day) -> u32
    requires { theatre_no.0 < theatre_count inst.now.draft }
    ensures { result ≡ theatre_availability inst.now.draft theatre_no.0 day.0 }
{
    let theatre = inst.theatre(theatre_no);
    theatre
        .availability
        .as_slice()
        .get(day.0 as usize)
        .copied()
        .unwrap_or(0)
}

// The minutes that a surgeon may operate on a day: none past the last day.
fn surgeon_maximum(inst: &Instance, surgeon_no: SurgeonNo, day: Day) -> u32
    requires { surgeon_no.0 < surgeon_count inst.now.draft }
    ensures { result ≡ surgeon_maximum inst.now.draft surgeon_no.0 day.0 }
{
    let surgeon = inst.surgeon(surgeon_no);
    surgeon
        .max_surgery_time
        .as_slice()
        .get(day.0 as usize)
        .copied()
        .unwrap_or(0)
}

impl Theatres {
    /// The ledger of the timetable in which nobody is admitted. All later calls take no memory.
    pub fn new(alloc: Global, inst: &Instance) -> Result<Theatres, AllocError>
        ensures { IfOk result (λ l. IsLedgerOf inst.now.draft (empty inst.now.draft) l) }
    {
        let patients = inst.patients();
        let of_theatres = day_count(inst, inst.theatres());
        let of_surgeons = day_count(inst, inst.surgeons());
        let theatre_days = CompactLinks::compact(alloc, of_theatres, patients)?;
        let surgeon_days = CompactLinks::compact(alloc, of_surgeons, patients)?;
        let theatre_minutes = vec![in alloc; 0; of_theatres as usize]?;
        let surgeon_minutes = vec![in alloc; 0; of_surgeons as usize]?;
        let theatres = vec![in alloc; None; patients as usize]?;
        Ok(Theatres {
            theatres,
            theatre_days,
            surgeon_days,
            theatre_minutes,
            surgeon_minutes,
        })
    }

    /// Admits a patient who is not admitted.
    pub fn enter(&mut self, inst: &Instance, patient_no: PatientNo, at: Placement)
        requires patient { patient_no.0 < patient_count inst.now.draft }
        requires placement { IsPlacement inst.now.draft at }
        requires stands { (P : Timetable) × IsLedgerOf inst.now.draft P self.old
            × (stay_of P patient_no.0 ≡ None) }
        ensures { (P : Timetable) → IsLedgerOf inst.now.draft P self.old
            → stay_of P patient_no.0 ≡ None
            → IsLedgerOf inst.now.draft (put (SetStay patient_no (Some at)) P) self.new }
    {
        let patient = inst.patient(patient_no);
        let theatre_day = day_number(inst, at.theatre.0, at.day);
        let surgeon_day = day_number(inst, patient.surgeon_id.0, at.day);
        self.theatre_days.push_back(theatre_day, patient_no.0);
        self.surgeon_days.push_back(surgeon_day, patient_no.0);
        self.theatre_minutes[theatre_day as usize] += patient.surgery_duration;
        self.surgeon_minutes[surgeon_day as usize] += patient.surgery_duration;
        self.theatres[patient_no.0 as usize] = Some(at.theatre);
    }

    /// Takes out a patient who is admitted with this placement.
    pub fn leave(&mut self, inst: &Instance, patient_no: PatientNo, at: Placement)
        requires patient { patient_no.0 < patient_count inst.now.draft }
        requires stands { (P : Timetable) × IsLedgerOf inst.now.draft P self.old
            × (stay_of P patient_no.0 ≡ Some at) }
        ensures { (P : Timetable) → IsLedgerOf inst.now.draft P self.old
            → stay_of P patient_no.0 ≡ Some at
            → IsLedgerOf inst.now.draft (put (SetStay patient_no None) P) self.new }
    {
        let patient = inst.patient(patient_no);
        let theatre_day = day_number(inst, at.theatre.0, at.day);
        let surgeon_day = day_number(inst, patient.surgeon_id.0, at.day);
        self.theatre_days.remove(patient_no.0);
        self.surgeon_days.remove(patient_no.0);
        self.theatre_minutes[theatre_day as usize] -= patient.surgery_duration;
        self.surgeon_minutes[surgeon_day as usize] -= patient.surgery_duration;
        self.theatres[patient_no.0 as usize] = None;
    }

    /// What a theatre's day costs: the minutes of surgery above the theatre's availability, and 1 where there is
    /// surgery.
    pub fn theatre_bill(&self, inst: &Instance, theatre: TheatreNo, day: Day) -> Bill
        requires theatre { theatre.0 < theatre_count inst.now.draft }
        requires day { day.0 < inst.now.draft.days }
        requires stands { (P : Timetable) × IsLedgerOf inst.now.draft P self.now }
        ensures part { (P : Timetable) → IsLedgerOf inst.now.draft P self.now
            → result ≡ as_bill (part_at inst.now.draft P (TheatreDay theatre day)) }
        ensures within { IsWithin (10 ^ 11) result }
    {
        let today = day_number(inst, theatre.0, day);
        let planned = self.theatre_minutes[today as usize];
        let over = planned.saturating_sub(theatre_availability(inst, theatre, day));
        theatre_day_bill(over, bit(is_used(&self.theatre_days, today)))
    }

    /// What a surgeon's day costs: the minutes of surgery above the surgeon's maximum, and the theatres of that day
    /// less one.
    pub fn surgeon_bill(&self, inst: &Instance, surgeon: SurgeonNo, day: Day) -> Bill
        requires surgeon { surgeon.0 < surgeon_count inst.now.draft }
        requires day { day.0 < inst.now.draft.days }
        requires stands { (P : Timetable) × IsLedgerOf inst.now.draft P self.now }
        ensures part { (P : Timetable) → IsLedgerOf inst.now.draft P self.now
            → result ≡ as_bill (part_at inst.now.draft P (SurgeonDay surgeon day)) }
        ensures within { IsWithin (10 ^ 11) result }
    {
        let today = day_number(inst, surgeon.0, day);
        let planned = self.surgeon_minutes[today as usize];
        let over = planned.saturating_sub(surgeon_maximum(inst, surgeon, day));
        let marks = marks_of_theatres(&self.surgeon_days, today, self.theatres.as_slice());
        let used = count_marked(marks);
        surgeon_day_bill(over, used.saturating_sub(1))
    }

    /// How much more a placement's theatre breaks and costs on the day of admission with the patient there than
    /// without, whose stay is `old` so far.
    #[inline(always)]
    pub fn theatre_delta(
        &self,
        inst: &Instance,
        patient: PatientNo,
        old: Option<Placement>,
        at: Placement,
    ) -> Bill
        requires patient { patient.0 < patient_count inst.now.draft }
        requires placement { IsPlacement inst.now.draft at }
        requires stands { (P : Timetable) × IsLedgerOf inst.now.draft P self.now
            × (stay_of P patient.0 ≡ old) }
        ensures delta { (P : Timetable) → IsLedgerOf inst.now.draft P self.now
            → stay_of P patient.0 ≡ old
            → result ≡ delta_at inst.now.draft P patient at (TheatreDay at.theatre at.day) }
        ensures within { IsWithin (10 ^ 11) result }
    {
        let was = is_operated_in(old, at.theatre, at.day);
        let today = day_number(inst, at.theatre.0, at.day);
        let most = theatre_availability(inst, at.theatre, at.day);
        let planned = self.theatre_minutes[today as usize];
        let others = minutes_but(inst, planned, patient, was);
        let used = is_used_by_others(&self.theatre_days, today, patient, was);
        let without = theatre_counts(inst, others, used, patient, false, most);
        let with = theatre_counts(inst, others, used, patient, true, most);
        theatre_change(with, without)
    }

    /// How much more the patient's surgeon breaks and costs on a placement's day of admission with the patient there
    /// than without, whose stay is `old` so far.
    #[inline(always)]
    pub fn surgeon_delta(
        &self,
        inst: &Instance,
        surgeon: SurgeonNo,
        patient: PatientNo,
        old: Option<Placement>,
        at: Placement,
    ) -> Bill
        requires surgeon { surgeon.0 < surgeon_count inst.now.draft }
        requires patient { patient.0 < patient_count inst.now.draft }
        requires own { surgeon_of inst.now.draft patient.0 ≡ Some surgeon.0 }
        requires placement { IsPlacement inst.now.draft at }
        requires stands { (P : Timetable) × IsLedgerOf inst.now.draft P self.now
            × (stay_of P patient.0 ≡ old) }
        ensures delta { (P : Timetable) → IsLedgerOf inst.now.draft P self.now
            → stay_of P patient.0 ≡ old
            → result ≡ delta_at inst.now.draft P patient at (SurgeonDay surgeon at.day) }
        ensures within { IsWithin (10 ^ 11) result }
    {
        let was = is_operated_by(inst, patient, old, surgeon, at.day);
        let today = day_number(inst, surgeon.0, at.day);
        let most = surgeon_maximum(inst, surgeon, at.day);
        let planned = self.surgeon_minutes[today as usize];
        let others = minutes_but(inst, planned, patient, was);
        let used = marks_of_theatres_but(
            &self.surgeon_days,
            today,
            self.theatres.as_slice(),
            patient,
        );
        let without = surgeon_counts(inst, others, used, patient, false, None, most);
        let with = surgeon_counts(inst, others, used, patient, true, Some(at), most);
        surgeon_change(with, without)
    }
}
