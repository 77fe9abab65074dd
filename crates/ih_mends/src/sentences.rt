//! The sentences, of plain texts and numbers.

ghost use Rattle.std.specs.Prelude.{◌≡◌, IfOk, string_bytes};
ghost use Rattle.ih_mends.specs.Sentences.{care_text, line_text, no_care_text, none_text, out_text};
ghost use Rattle.ih_mends.specs.Sentences.{rule_text, stay_text};

use ih_waiting::Text;
use std::alloc::Global;

/// What is counted where the rule at a place of the bill is broken.
#[tactic(auto, unfolding(crate::specs::Sentences::rule_text))]
pub fn rule_text(rule: usize) -> &'static str
    ensures { result.now ≡ rule_text rule }
{
    match rule {
        0 => "mixed genders in a room",
        1 => "an incompatible room",
        2 => "minutes above a surgeon's maximum",
        3 => "minutes above a theatre's time",
        4 => "mandatory patients left out",
        5 => "admissions outside the window",
        6 => "persons above a room's capacity",
        7 => "nurses who don't work the shift",
        _ => "occupied rooms without a nurse",
    }
}

/// A patient's stay.
#[tactic(auto, unfolding(crate::specs::Sentences::stay_text))]
pub fn stay_text(alloc: Global, patient: &str, day: u32, room: &str, theatre: &str) -> Text
    ensures { IfOk result (λ s. string_bytes s ≡ stay_text patient.now day room.now theatre.now) }
{
    format!(in alloc; "{patient} to day {day}, {room}, theatre {theatre}")
}

/// That a patient isn't admitted.
#[tactic(auto, unfolding(crate::specs::Sentences::out_text))]
pub fn out_text(alloc: Global, patient: &str) -> Text
    ensures { IfOk result (λ s. string_bytes s ≡ out_text patient.now) }
{
    format!(in alloc; "leave out {patient}")
}

/// A room's nurse in a shift of a day.
#[tactic(auto, unfolding(crate::specs::Sentences::care_text))]
pub fn care_text(alloc: Global, nurse: &str, room: &str, day: u32, shift: &str) -> Text
    ensures { IfOk result (λ s. string_bytes s ≡ care_text nurse.now room.now day shift.now) }
{
    format!(in alloc; "nurse {nurse} in {room} on day {day}, {shift}")
}

/// That a room has no nurse in a shift of a day.
#[tactic(auto, unfolding(crate::specs::Sentences::no_care_text))]
pub fn no_care_text(alloc: Global, room: &str, day: u32, shift: &str) -> Text
    ensures { IfOk result (λ s. string_bytes s ≡ no_care_text room.now day shift.now) }
{
    format!(in alloc; "no nurse in {room} on day {day}, {shift}")
}

/// That there is no mend.
#[tactic(auto, unfolding(crate::specs::Sentences::none_text))]
pub fn none_text(alloc: Global) -> Text
    ensures { IfOk result (λ s. string_bytes s ≡ none_text) }
{
    format!(in alloc; "no single change mends it")
}

/// What is counted, how often, and the mend.
#[tactic(auto, unfolding(crate::specs::Sentences::line_text))]
pub fn line_text(alloc: Global, rule: &str, count: i64, mend: &str) -> Text
    ensures { IfOk result (λ s. string_bytes s ≡ line_text rule.now count mend.now) }
{
    format!(in alloc; "{rule} ({count}): {mend}\n")
}
