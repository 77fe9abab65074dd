//! Which patient, and on which day, by random words.

ghost use Rattle.std.specs.Prelude.{◌<◌, IfSome};
ghost use Rattle.ih_tables.specs.Sizes.{patient_count};

use crate::words::RandomWords;
use ih_moves::window_len;
use ih_tables::{Day, Instance, PatientNo};

/// A patient, by a random word, where there is one.
pub fn draw_patient(inst: &Instance, words: &mut RandomWords) -> Option<PatientNo>
    ensures { IfSome result (λ p. p.0 < patient_count inst.now.draft) }
{
    let patients = inst.patients();
    if patients == 0 {
        None
    } else {
        Some(PatientNo(words.below(patients)))
    }
}

/// A day on which the patient may be admitted, by random words: every other time one of the first four.
pub fn draw_day(inst: &Instance, words: &mut RandomWords, patient_no: PatientNo) -> Option<Day>
    requires { patient_no.0 < patient_count inst.now.draft }
    ensures { IfSome result (λ d. d.0 < inst.now.draft.days) }
{
    let patient = inst.patient(patient_no);
    let days = window_len(inst, patient);
    if days == 0 {
        return None;
    }
    let most = if words.below(2) == 0 {
        days.min(4)
    } else {
        days
    };
    Some(Day(patient.surgery_release_day + words.below(most)))
}

/// The number that comes `further` places after `first` among `count` numbers, cyclically.
#[inline(always)]
pub fn cyclic(first: u32, further: u32, count: u32) -> u32
    requires first { first < count }
    requires further { further < count }
    ensures { result < count }
{
    let rest = count - first;
    if further < rest {
        first + further
    } else {
        further - rest
    }
}
