//! The sentences, of plain texts and numbers.

ghost use Rattle.std.specs.Prelude.{◌≡◌, IfOk, string_bytes};
ghost use Rattle.ih_waiting.specs.Sentences.{change_text, line_text, no_day_text, place_text, signed_text};

use std::alloc::{AllocError, Global};

/// What making a text gives: it fails only where memory runs out.
pub type Text = Result<String, AllocError>;

/// A patient, whether one who must come, and on which day, if on any.
#[tactic(auto, unfolding(crate::specs::Sentences::line_text))]
pub fn line_text(alloc: Global, patient: &str, mandatory: bool, day: &str) -> Text
    ensures { IfOk result (λ s. string_bytes s ≡ line_text patient.now mandatory day.now) }
{
    if mandatory {
        format!(in alloc; "{patient} must come, and could on {day}\n")
    } else {
        format!(in alloc; "{patient} could come on {day}\n")
    }
}

/// That the patient may get no stay at all.
#[tactic(auto, unfolding(crate::specs::Sentences::no_day_text))]
pub fn no_day_text(alloc: Global) -> Text
    ensures { IfOk result (λ s. string_bytes s ≡ no_day_text) }
{
    format!(in alloc; "no day: no room suits, the window is empty, or there is no theatre")
}

/// A day, a room and a theatre.
#[tactic(auto, unfolding(crate::specs::Sentences::place_text))]
pub fn place_text(alloc: Global, day: u32, room: &str, theatre: &str) -> Text
    ensures { IfOk result (λ s. string_bytes s ≡ place_text day room.now theatre.now) }
{
    format!(in alloc; "day {day} to {room}, theatre {theatre}")
}

// A number with its sign, and +0.
#[tactic(auto, unfolding(crate::specs::Sentences::signed_text))]
fn signed_text(alloc: Global, number: i64) -> Text
    ensures { IfOk result (λ s. string_bytes s ≡ signed_text number) }
{
    if number < 0 {
        format!(in alloc; "{number}")
    } else {
        format!(in alloc; "+{number}")
    }
}

/// How many units of rules more are broken, if any, and what is added to the cost.
#[tactic(auto, unfolding(crate::specs::Sentences::change_text))]
pub fn change_text(alloc: Global, more: u64, cost: i64) -> Text
    ensures { IfOk result (λ s. string_bytes s ≡ change_text more cost) }
{
    let added = signed_text(alloc, cost)?;
    let cost = added.as_str();
    if more == 0 {
        format!(in alloc; ": cost {cost}")
    } else {
        format!(in alloc; " only by breaking rules: {more} more, cost {cost}")
    }
}
