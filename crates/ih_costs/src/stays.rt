//! What a stay of a patient costs by itself, and what another stay changes in it.

ghost use Rattle.std.specs.Prelude.{◌≡◌, ◌<◌, ◌&&◌, not, is_none, pos, ◌-ℤ◌, None, Some, IfSome};
ghost use Rattle.ih_tables.specs.Bills.{sub_bills};
ghost use Rattle.ih_plan.specs.{Sums.bit, BillOf.as_bill};
ghost use Rattle.ih_costs.specs.StayPart.{stay_part};

use ih_plan::{Placement, bit};
use ih_tables::bill_numbers::{
    ADMISSION_WINDOW, INCOMPATIBLE_ROOM, PATIENT_DELAY, UNSCHEDULED_MANDATORY, UNSCHEDULED_OPTIONAL,
};
use ih_tables::{Bill, Patient};
use ih_validate::{delay, in_bad_room, outside_window};

// How much more the new mark counts than the old one.
fn mark_increase(new: bool, old: bool) -> i64
    ensures { result ≡ pos (bit new) -ℤ pos (bit old) }
{
    match (new, old) {
        (true, false) => 1,
        (false, true) => -1,
        _ => 0,
    }
}

// How many days more the new delay has than the old one.
fn delay_increase(new: u64, old: u64) -> i64
    requires new { new < 56 }
    requires old { old < 56 }
    ensures { result ≡ pos new -ℤ pos old }
{
    new as i64 - old as i64
}

// Whether a mandatory patient is left out.
fn is_out(patient: &Patient, stay: Option<Placement>) -> bool
    ensures { result ≡ (patient.now.mandatory && is_none stay) }
{
    patient.mandatory && stay.is_none()
}

// Whether an optional patient is left out.
fn is_left(patient: &Patient, stay: Option<Placement>) -> bool
    ensures { result ≡ (not patient.now.mandatory && is_none stay) }
{
    !patient.mandatory && stay.is_none()
}

/// What a stay of a patient, or none, costs by itself.
pub fn stay_bill(patient: &Patient, stay: Option<Placement>) -> Bill
    requires { IfSome stay (λ at. at.day.0 < 56) }
    ensures { result ≡ as_bill (stay_part patient.now stay) }
{
    let bad = bit(in_bad_room(patient, stay)) as i64;
    let out = bit(is_out(patient, stay)) as i64;
    let outside = bit(outside_window(patient, stay)) as i64;
    let late = delay(patient, stay) as i64;
    let left = bit(is_left(patient, stay)) as i64;
    let mut bill = Bill::zero();
    bill.v[INCOMPATIBLE_ROOM] = bad;
    bill.v[UNSCHEDULED_MANDATORY] = out;
    bill.v[ADMISSION_WINDOW] = outside;
    bill.s[PATIENT_DELAY] = late;
    bill.s[UNSCHEDULED_OPTIONAL] = left;
    bill
}

/// What a placement of a patient costs by itself, less what it costs to leave the patient out.
pub fn stay_change(patient: &Patient, at: Placement) -> Bill
    requires { at.day.0 < 56 }
    ensures { result ≡ sub_bills (as_bill (stay_part patient.now (Some at))) (as_bill (stay_part patient.now None)) }
{
    let stay = Some(at);
    let bad = mark_increase(in_bad_room(patient, stay), false);
    let out = mark_increase(is_out(patient, stay), is_out(patient, None));
    let outside = mark_increase(outside_window(patient, stay), false);
    let late = delay_increase(delay(patient, stay), 0);
    let left = mark_increase(is_left(patient, stay), is_left(patient, None));
    let mut bill = Bill::zero();
    bill.v[INCOMPATIBLE_ROOM] = bad;
    bill.v[UNSCHEDULED_MANDATORY] = out;
    bill.v[ADMISSION_WINDOW] = outside;
    bill.s[PATIENT_DELAY] = late;
    bill.s[UNSCHEDULED_OPTIONAL] = left;
    bill
}
