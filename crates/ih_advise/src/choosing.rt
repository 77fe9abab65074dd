//! What is advised on one choice.

ghost use Rattle.std.specs.Prelude.{◌≡◌, true};
ghost use Rattle.ih_fill.specs.Choices.{IsChoiceOf};
ghost use Rattle.ih_advise.specs.Advising.{advice_on};

use ih_fill::{Choice, Scorer};
use ih_plan::Write;
use ih_replacements::best_replacement;
use ih_tables::{Bill, Instance};

/// A write that lowers the score of a timetable, by how much, and what it changes in the bill.
#[derive(Clone, Copy, Debug, PartialEq, Eq)]
pub struct Advice {
    pub write: Write,
    pub score: i64,
    pub price: Bill,
}

/// What is advised on a choice: its best write, where that lowers the score.
pub(crate) fn advice_on(inst: &Instance, scorer: &Scorer<'_>, choice: Choice) -> Option<Advice>
    requires instance { scorer.now.instance ≡ inst.now.draft }
    requires counts { scorer.now.counts_uncovered ≡ true }
    requires inside { IsChoiceOf inst.now.draft choice }
    ensures { result ≡ advice_on inst.now.draft scorer.now.hard scorer.now.plan choice }
{
    let best = best_replacement(inst, scorer, choice);
    if best.value < 0 {
        Some(Advice {
            write: best.write,
            score: best.value,
            price: scorer.price(&best.write),
        })
    } else {
        None
    }
}
