//! The nurses and their worked shifts.

ghost use Rattle.std.specs.Prelude.{◌≡◌, IfOk, OnOk, map};
ghost use Rattle.serde_json.specs.View.{view};
ghost use Rattle.ih_plan.specs.{Draws.state_after, Sums.which_below, Sums.count_below};
ghost use Rattle.ih_gen.specs.Generated.{works, shift_data, worked_data, nurse_data, nurse_words};
ghost use Rattle.ih_gen.specs.{Words.pick, Members.IsMade};

use crate::names::{Made, id_value, shift_name};
use crate::picks::Picks;
use crate::rows::Makes;
use serde_json::{Value, json};
use std::alloc::{AllocError, Global};

// A shift of a type on a day, with the maximum load.
fn shift_value(alloc: Global, day: u32, turn: u32, load: u32) -> Made
    ensures { IsMade (shift_data day turn load) result }
{
    let shift = shift_name(turn);
    json!(in alloc; {"day": day, "max_load": load, "shift": shift})
}

// The worked shifts of a nurse: early, late, night, then a day off, and so on.
#[tactic(auto, using(crate::proofs::RowLemmas::worked_steps))]
fn worked_values(
    alloc: Global,
    picks: &mut Picks,
    days: u32,
    number: u32,
) -> Result<Vec<Value>, AllocError>
    ensures values { IfOk result
        (λ v. map view v.items ≡ map (worked_data number picks.old) (which_below days (works number))) }
    ensures rest { OnOk result (picks.new ≡ state_after (count_below days (works number)) picks.old) }
{
    let mut values = Vec::new(alloc);
    for day in 0..days {
        let turn = ((u64::from(number) + u64::from(day)) % 4) as u32;
        if turn < 3 {
            let load = 5 + picks.pick(11);
            values.push(shift_value(alloc, day, turn, load)?)?;
        }
    }
    Ok(values)
}

/// Nurses on so many days.
pub struct Nurses {
    pub days: u32,
}

impl Makes for Nurses {
    ghost thing = { λ kind. nurse_data kind.days };

    ghost words = { λ kind. nurse_words kind.days };

    #[tactic(auto, using(crate::proofs::Streams::stream_steps))]
    fn make_item(&self, alloc: Global, picks: &mut Picks, number: u32) -> Made {
        let skill = picks.pick(3);
        let shifts = worked_values(alloc, picks, self.days, number)?;
        let id = id_value(alloc, "n", number)?;
        json!(in alloc; {"id": id, "skill_level": skill, "working_shifts": shifts})
    }
}
