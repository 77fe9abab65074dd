//! What each person pays at least, in each feasible timetable.

ghost use Rattle.std.specs.Prelude.{◌≡◌, ◌<◌, ◌≤◌, ◌+◌, ◌*◌, ◌^◌, ℕ, Some, None};
ghost use Rattle.ih_tables.specs.Sizes.{patient_count, occupant_count, theatre_count, surgeon_count, shift_count};
ghost use Rattle.ih_plan.specs.Timetable.{Timetable, stay_of};
ghost use Rattle.ih_plan.specs.declared.moves.Placement.{Placement};
ghost use Rattle.ih_plan.specs.Costs.{theatre_availability, surgeon_maximum};
ghost use Rattle.ih_plan.specs.Presence.{end_from};
ghost use Rattle.ih_bound.specs.Bounds.{IsFeasible};
ghost use Rattle.ih_bound.specs.Tariffs.{Tariff, tariff_of, price_in};
ghost use Rattle.ih_bound.specs.Paid.{paid, theatre_paid};
ghost use Rattle.ih_bound.specs.Least.{
  BoundsPerson,
  BoundsAdmitted,
  BoundsBase,
  BoundsCareFrom,
  IsBefore,
  IsTried,
  AreFloors,
  bed_cost,
};

use crate::demand::Demand;
use crate::floors::Floors;
use crate::numbers::choose_numbers;
use crate::prices::{Prices, Rates};
use crate::scratch::Scratch;
use crate::stays::{Stay, care};
use ih_plan::end_from;
use ih_tables::{Instance, Patient, PatientNo, TheatreNo};
use ih_validate::{Resource, limit_of};

/// No person is said to pay more.
const MOST_PAID: u64 = 1 << 50;

// At most what surgery costs in each theatre that is available for so long on the day.
fn theatre_cost(inst: &Instance, prices: &Prices, patient: PatientNo, minutes: u32, day: u32) -> u64
    requires { day < inst.now.draft.days }
    ensures { (rates : Rates) (i : ℕ) → i < theatre_count inst.now.draft
        → minutes ≤ theatre_availability inst.now.draft i day
        → result ≤ theatre_paid (tariff_of inst.now.draft rates prices.now) patient.0 minutes i day }
{
    let mut least = u64::MAX;
    for t in 0..inst.theatres() {
        if limit_of(inst, Resource::OfTheatre(TheatreNo(t)), day) >= minutes as u64 {
            least = least.min(prices.cost_in(inst, patient, minutes, t, day));
        }
    }
    least
}

// At most what surgery on the day costs in each theatre that is available for long enough.
fn surgery_cost(inst: &Instance, prices: &Prices, patient: PatientNo, q: &Patient, day: u32) -> u64
    requires day { day < inst.now.draft.days }
    requires surgeon { q.now.surgeon_id.0 < surgeon_count inst.now.draft }
    ensures { (rates : Rates) (i : ℕ) → i < theatre_count inst.now.draft
        → q.now.surgery_duration ≤ theatre_availability inst.now.draft i day
        → q.now.surgery_duration ≤ surgeon_maximum inst.now.draft q.now.surgeon_id.0 day
        → result ≤ q.now.surgery_duration * price_in prices.now.surgeon.items
        (inst.now.draft.days * q.now.surgeon_id.0 + day) (2 ^ 29)
        + theatre_paid (tariff_of inst.now.draft rates prices.now) patient.0 q.now.surgery_duration i day }
{
    let minutes = q.surgery_duration as u64;
    if limit_of(inst, Resource::OfSurgeon(q.surgeon_id), day) < minutes {
        return u64::MAX;
    }
    let surgeon = prices.surgeon_on(inst.days(), q.surgeon_id.0, day);
    let theatre = theatre_cost(inst, prices, patient, q.surgery_duration, day);
    minutes.saturating_mul(surgeon).saturating_add(theatre)
}

// At most what beds cost for so many days from a day on.
fn bed_cost(inst: &Instance, prices: &Prices, rates: &Rates, day: u32, len: u32) -> u64
    requires { day < inst.now.draft.days }
    ensures { result ≤ bed_cost inst.now.draft (tariff_of inst.now.draft rates.now prices.now) day len }
{
    let end = end_from(inst, day, len);
    let mut sum: u64 = 0;
    for d in day..end {
        sum = sum.saturating_add(prices.bed_on(d));
    }
    sum
}

// At most what a patient who is admitted on a day pays besides care.
fn base_cost(inst: &Instance, rates: &Rates, prices: &Prices, patient: PatientNo, day: u32) -> u64
    requires patient { patient.0 < patient_count inst.now.draft }
    requires day { day < inst.now.draft.days }
    ensures { BoundsBase inst.now.draft rates.now (tariff_of inst.now.draft rates.now prices.now) patient.0 day result }
{
    let q = inst.patient(patient);
    let wait = rates
        .delay
        .saturating_mul(day.saturating_sub(q.surgery_release_day) as u64);
    let surgery = surgery_cost(inst, prices, patient, q, day);
    let beds = bed_cost(inst, prices, rates, day, q.length_of_stay);
    wait.saturating_add(surgery).saturating_add(beds)
}

/// The day after the last on which a patient may be admitted.
pub fn window_end(inst: &Instance, patient: PatientNo) -> u32
    requires { patient.0 < patient_count inst.now.draft }
    ensures days { result ≤ inst.now.draft.days }
    ensures window { (P : Timetable) (at : Placement) → IsFeasible inst.now.draft P → stay_of P patient.0 ≡ Some at
        → at.day.0 < result }
{
    let q = inst.patient(patient);
    let days = inst.days();
    if q.mandatory {
        match q.surgery_due_day {
            Some(due) => due.saturating_add(1).min(days),
            None => days,
        }
    } else {
        days
    }
}

// What a stay of so many days from a day on asks for.
fn stay_from<'a>(inst: &Instance, skill: &'a [u32], load: &'a [u32], day: u32, len: u32) -> Stay<'a>
    requires { day < inst.now.draft.days }
    ensures lists { (result.skill.now ≡ skill.now) × (result.load.now ≡ load.now) }
    ensures first { result.first ≡ 3 * day }
    ensures last { result.last ≡ 3 * end_from inst.now.draft day len }
    ensures order { result.first ≤ result.last }
    ensures horizon { result.last ≤ shift_count inst.now.draft }
{
    Stay {
        skill,
        load,
        first: 3 * day,
        last: 3 * end_from(inst, day, len),
    }
}

/// At most what a patient pays for care, admitted on a day.
pub fn patient_care(
    inst: &Instance,
    rates: &Rates,
    prices: &Prices,
    patient: PatientNo,
    day: u32,
    scratch: &mut Scratch,
) -> u64
    requires patient { patient.0 < patient_count inst.now.draft }
    requires day { day < inst.now.draft.days }
    ensures { BoundsCareFrom inst.now.draft rates.now
        (tariff_of inst.now.draft rates.now prices.now) patient.0 day result }
{
    let q = inst.patient(patient);
    let skill = q.skill_level_required.as_slice();
    let load = q.workload_produced.as_slice();
    let stay = stay_from(inst, skill, load, day, q.length_of_stay);
    care(inst, rates, prices, &stay, scratch)
}

// A patient whose least payment is looked for, with the day that is tried before others, where there is one.
#[derive(Drop)]
struct Case<'a> {
    inst: &'a Instance,
    rates: &'a Rates,
    prices: &'a Prices,
    floors: &'a Floors,
    patient: PatientNo,
    hint: Option<u32>,
    ghost floors_hold: { AreFloors inst.now.draft rates.now floors.now.list.items },
    ghost patient_fits: { patient.0 < patient_count inst.now.draft },
}

impl Case<'_> {
    // The lesser of what was found so far and of what the patient pays who is admitted on a day.
    fn lower_by(&self, day: u32, so_far: u64, scratch: &mut Scratch) -> u64
        requires day { day < self.now.inst.now.draft.days }
        ensures no_more { result ≤ so_far }
        ensures day { let x = self.now in (P : Timetable) (at : Placement) → IsFeasible x.inst.now.draft P
            → stay_of P x.patient.0 ≡ Some at → at.day.0 ≡ day → result
            ≤ paid x.inst.now.draft x.rates.now (tariff_of x.inst.now.draft x.rates.now x.prices.now) P x.patient.0 }
    {
        let base = base_cost(self.inst, self.rates, self.prices, self.patient, day);
        let floor = self.floors.of(self.inst, self.patient, day);
        if base.saturating_add(floor) >= so_far {
            return so_far;
        }
        let care = patient_care(
            self.inst,
            self.rates,
            self.prices,
            self.patient,
            day,
            scratch,
        )
        .max(floor);
        scratch.numbered = Some(day);
        let all = base.saturating_add(care);
        if all < so_far {
            scratch.day = Some(day);
            all
        } else {
            so_far
        }
    }

    // The lesser of what was found so far and of what the patient pays who is admitted on the day that is tried
    // first. It is what was found so far, where no day is tried first or that day is past the window.
    fn lower_first(&self, end: u32, so_far: u64, scratch: &mut Scratch) -> u64
        requires end { end ≤ self.now.inst.now.draft.days }
        ensures no_more { result ≤ so_far }
        ensures day { let x = self.now in IsTried x.inst.now.draft x.rates.now
            (tariff_of x.inst.now.draft x.rates.now x.prices.now) x.patient.0 end x.hint result }
    {
        match self.hint {
            None => so_far,
            Some(a) => {
                if a < end {
                    self.lower_by(a, so_far, scratch)
                } else {
                    so_far
                }
            }
        }
    }

    // The lesser of what was found so far and of what the patient pays who is admitted on a day. It is what was found
    // so far, where that day was tried first.
    fn lower_next(&self, day: u32, so_far: u64, scratch: &mut Scratch) -> u64
        requires day { day < self.now.inst.now.draft.days }
        requires tried { let x = self.now in IsTried x.inst.now.draft x.rates.now
            (tariff_of x.inst.now.draft x.rates.now x.prices.now) x.patient.0 (day + 1) x.hint so_far }
        ensures no_more { result ≤ so_far }
        ensures day { let x = self.now in (P : Timetable) (at : Placement) → IsFeasible x.inst.now.draft P
            → stay_of P x.patient.0 ≡ Some at → at.day.0 ≡ day → result
            ≤ paid x.inst.now.draft x.rates.now (tariff_of x.inst.now.draft x.rates.now x.prices.now) P x.patient.0 }
    {
        if self.hint == Some(day) {
            so_far
        } else {
            self.lower_by(day, so_far, scratch)
        }
    }
}

// At most what a patient pays who is admitted, and at most so much.
fn least_admitted(
    inst: &Instance,
    rates: &Rates,
    prices: &Prices,
    floors: &Floors,
    patient: PatientNo,
    most: u64,
    scratch: &mut Scratch,
) -> u64
    requires floors { AreFloors inst.now.draft rates.now floors.now.list.items }
    requires patient { patient.0 < patient_count inst.now.draft }
    ensures no_more { result ≤ most }
    ensures admitted { BoundsAdmitted inst.now.draft rates.now (tariff_of inst.now.draft rates.now prices.now) patient.0
        (IsBefore inst.now.draft.days) result }
{
    let first = inst.patient(patient).surgery_release_day;
    let end = window_end(inst, patient);
    let case = Case {
        inst,
        rates,
        prices,
        floors,
        patient,
        hint: scratch.begin(patient),
    };
    let mut least = case.lower_first(end, most, scratch);
    for a in first..end {
        least = case.lower_next(a, least, scratch);
    }
    scratch.end(patient);
    least
}

// At most what a patient pays who is left out.
fn left_out_cost(inst: &Instance, rates: &Rates, patient: PatientNo) -> u64
    requires { patient.0 < patient_count inst.now.draft }
    ensures { (P : Timetable) (t : Tariff) → IsFeasible inst.now.draft P → stay_of P patient.0 ≡ None
        → result ≤ paid inst.now.draft rates.now t P patient.0 }
{
    if inst.patient(patient).mandatory {
        return MOST_PAID;
    }
    rates.left_out.min(MOST_PAID)
}

// Adds what the patient asks for where it pays least.
fn add_demand(
    inst: &Instance,
    rates: &Rates,
    prices: &Prices,
    patient: PatientNo,
    scratch: &mut Scratch,
    demand: &mut Demand,
)
    requires { patient.0 < patient_count inst.now.draft }
{
    let days = inst.days();
    let q = inst.patient(patient);
    match scratch.day {
        Some(a) => {
            if a < days {
                let skill = q.skill_level_required.as_slice();
                let load = q.workload_produced.as_slice();
                let stay = stay_from(inst, skill, load, a, q.length_of_stay);
                if scratch.numbered != Some(a) {
                    choose_numbers(inst, rates, prices, &stay, scratch);
                }
                demand.add_stay(inst, rates, prices, patient, a);
                demand.add_care(inst, rates, prices, &stay, scratch);
            }
        }
        None => demand.add_left_out(rates),
    }
}

/// At most what a patient pays; what it asks for is added to the demand.
pub fn least_of_patient(
    inst: &Instance,
    rates: &Rates,
    prices: &Prices,
    floors: &Floors,
    patient: PatientNo,
    scratch: &mut Scratch,
    demand: &mut Demand,
) -> u64
    requires floors { AreFloors inst.now.draft rates.now floors.now.list.items }
    requires patient { patient.0 < patient_count inst.now.draft }
    ensures { BoundsPerson inst.now.draft rates.now (tariff_of inst.now.draft rates.now prices.now) patient.0 result }
{
    let most = left_out_cost(inst, rates, patient);
    let least = least_admitted(inst, rates, prices, floors, patient, most, scratch);
    add_demand(inst, rates, prices, patient, scratch, demand);
    least
}

/// At most what an occupant pays; its workload is added to the demand.
pub fn least_of_occupant(
    inst: &Instance,
    rates: &Rates,
    prices: &Prices,
    occupant: u32,
    scratch: &mut Scratch,
    demand: &mut Demand,
) -> u64
    requires { occupant < occupant_count inst.now.draft }
    ensures { BoundsPerson inst.now.draft rates.now (tariff_of inst.now.draft rates.now prices.now)
        (patient_count inst.now.draft + occupant) result }
{
    let _days = inst.days();
    let q = inst.occupant(occupant);
    let skill = q.skill_level_required.as_slice();
    let load = q.workload_produced.as_slice();
    let stay = stay_from(inst, skill, load, 0, q.length_of_stay);
    let beds = bed_cost(inst, prices, rates, 0, q.length_of_stay);
    let care = care(inst, rates, prices, &stay, scratch);
    demand.add_care(inst, rates, prices, &stay, scratch);
    care.saturating_add(beds)
}
