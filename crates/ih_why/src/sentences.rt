//! The sentences, of plain texts and numbers.

ghost use Rattle.std.specs.Prelude.{◌≡◌, IfOk, string_bytes};
ghost use Rattle.ih_why.specs.Sentences.{crowd_text, day_taken_text, desert_text, due_early_text, mix_text};
ghost use Rattle.ih_why.specs.Sentences.{no_day_text, no_room_text};
ghost use Rattle.ih_why.specs.Sentences.{no_surgeon_text, no_theatre_text, patient_text, released_late_text};
ghost use Rattle.ih_why.specs.Sentences.{span_text, taken_text};

use std::alloc::{AllocError, Global};

/// What making a text gives: it fails only where memory runs out.
pub type Text = Result<String, AllocError>;

/// A day, or any of several.
#[tactic(auto, unfolding(crate::specs::Sentences::span_text))]
pub fn span_text(alloc: Global, first: u32, last: u32) -> Text
    ensures { IfOk result (λ s. string_bytes s ≡ span_text first last) }
{
    if first == last {
        format!(in alloc; "day {first}")
    } else {
        format!(in alloc; "any day from {first} to {last}")
    }
}

/// That a patient must be admitted, and why this can't be.
#[tactic(auto, unfolding(crate::specs::Sentences::patient_text))]
pub fn patient_text(alloc: Global, patient: &str, reason: &str) -> Text
    ensures { IfOk result (λ s. string_bytes s ≡ patient_text patient.now reason.now) }
{
    format!(in alloc; "{patient} must be admitted, and {reason}\n")
}

/// That the due day is before the release day.
#[tactic(auto, unfolding(crate::specs::Sentences::due_early_text))]
pub fn due_early_text(alloc: Global) -> Text
    ensures { IfOk result (λ s. string_bytes s ≡ due_early_text) }
{
    format!(in alloc; "is due before release")
}

/// That the release day is past the last day.
#[tactic(auto, unfolding(crate::specs::Sentences::released_late_text))]
pub fn released_late_text(alloc: Global) -> Text
    ensures { IfOk result (λ s. string_bytes s ≡ released_late_text) }
{
    format!(in alloc; "is released after the last day")
}

/// That all rooms are incompatible.
#[tactic(auto, unfolding(crate::specs::Sentences::no_room_text))]
pub fn no_room_text(alloc: Global) -> Text
    ensures { IfOk result (λ s. string_bytes s ≡ no_room_text) }
{
    format!(in alloc; "no room suits")
}

/// That no theatre is open for long enough.
#[tactic(auto, unfolding(crate::specs::Sentences::no_theatre_text))]
pub fn no_theatre_text(alloc: Global, minutes: u32, days: &str) -> Text
    ensures { IfOk result (λ s. string_bytes s ≡ no_theatre_text minutes days.now) }
{
    format!(in alloc; "no theatre is open for {minutes} minutes on {days}")
}

/// That the surgeon hasn't enough minutes.
#[tactic(auto, unfolding(crate::specs::Sentences::no_surgeon_text))]
pub fn no_surgeon_text(alloc: Global, surgeon: &str, minutes: u32, days: &str) -> Text
    ensures { IfOk result (λ s. string_bytes s ≡ no_surgeon_text surgeon.now minutes days.now) }
{
    format!(in alloc; "{surgeon} has no {minutes} minutes on {days}")
}

/// That the rooms that suit are taken on a day.
#[tactic(auto, unfolding(crate::specs::Sentences::day_taken_text))]
pub fn day_taken_text(alloc: Global, day: u32) -> Text
    ensures { IfOk result (λ s. string_bytes s ≡ day_taken_text day) }
{
    format!(in alloc; "on day {day} each room that suits is full or has another gender in it")
}

/// That the rooms that suit are taken, on one day or another of each stay.
#[tactic(auto, unfolding(crate::specs::Sentences::taken_text))]
pub fn taken_text(alloc: Global, days: &str) -> Text
    ensures { IfOk result (λ s. string_bytes s ≡ taken_text days.now) }
{
    format!(in alloc;
        "no room that suits has a bed, and no other gender, throughout a stay begun on {days}"
    )
}

/// That no day has all that is needed.
#[tactic(auto, unfolding(crate::specs::Sentences::no_day_text))]
pub fn no_day_text(alloc: Global, surgeon: &str, days: &str) -> Text
    ensures { IfOk result (λ s. string_bytes s ≡ no_day_text surgeon.now days.now) }
{
    format!(in alloc; "a theatre, {surgeon} and a room aren't to be had together on {days}")
}

/// That a room has more occupants on a day than it is for.
#[tactic(auto, unfolding(crate::specs::Sentences::crowd_text))]
pub fn crowd_text(alloc: Global, room: &str, day: u32, count: u32, most: u32) -> Text
    ensures { IfOk result (λ s. string_bytes s ≡ crowd_text room.now day count most) }
{
    format!(in alloc; "{room} has more occupants than beds on day {day}: {count} for {most}\n")
}

/// That a room has occupants of two genders on a day.
#[tactic(auto, unfolding(crate::specs::Sentences::mix_text))]
pub fn mix_text(alloc: Global, room: &str, day: u32) -> Text
    ensures { IfOk result (λ s. string_bytes s ≡ mix_text room.now day) }
{
    format!(in alloc; "{room} has occupants of two genders on day {day}\n")
}

/// That nobody works in a shift in which a room is occupied.
#[tactic(auto, unfolding(crate::specs::Sentences::desert_text))]
pub fn desert_text(alloc: Global, day: u32, shift: &str, room: &str) -> Text
    ensures { IfOk result (λ s. string_bytes s ≡ desert_text day shift.now room.now) }
{
    format!(in alloc; "nobody works on day {day}, {shift}, and {room} is occupied\n")
}
