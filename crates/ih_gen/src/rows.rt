//! Things of one kind that are made of picks, one after the other.

ghost use Rattle.std.specs.Prelude.{◌≡◌, ℕ, List, IfOk, OnOk, map};
ghost use Rattle.serde_json.specs.{Data.Data, View.view};
ghost use Rattle.ih_plan.specs.Draws.{state_after};
ghost use Rattle.ih_gen.specs.{Words.begins, Words.in_a_row, Members.IsMade};

use crate::names::Made;
use crate::picks::Picks;
use serde_json::Value;
use std::alloc::{AllocError, Global};

/// How the things of one kind are made.
pub trait Makes {
    // The thing of a number, by the words of the stream from where it begins.
    ghost thing: { Self → ℕ → List ℕ → Data };

    // How many of these words it takes.
    ghost words: { Self → ℕ → List ℕ → ℕ };

    fn make_item(&self, alloc: Global, picks: &mut Picks, number: u32) -> Made
        ensures value { IsMade (thing self.now number picks.old) result }
        ensures rest { OnOk result (picks.new ≡ state_after (words self.now number picks.old) picks.old) };
}

/// The first `count` things.
#[tactic(auto, using(crate::proofs::RowLemmas::row_steps))]
pub fn rows<M: Makes>(
    alloc: Global,
    kind: &M,
    picks: &mut Picks,
    count: u32,
) -> Result<Vec<Value>, AllocError>
    ensures values { IfOk result
        (λ v. map view v.items ≡ in_a_row (M.thing kind.now) (M.words kind.now) count picks.old) }
    ensures rest { OnOk result (picks.new ≡ begins (M.words kind.now) count picks.old) }
{
    let mut values = Vec::new(alloc);
    for n in 0..count {
        values.push(kind.make_item(alloc, picks, n)?)?;
    }
    Ok(values)
}
