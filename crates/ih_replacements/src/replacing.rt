//! The best replacement of a choice, by what it changes in the score.

ghost use Rattle.std.specs.Prelude.{◌≡◌, true};
ghost use Rattle.ih_plan.specs.Writes.{IsWriteOf};
ghost use Rattle.ih_fill.specs.Choices.{IsChoiceOf};
ghost use Rattle.ih_replacements.specs.Replacements.{best_of};

use ih_fill::{Candidate, Choice, Scorer, cheaper, cheapest_nurse, cheapest_stay};
use ih_tables::{Instance, RoomNo, Shift};

// The best nurse of a room in a shift, or none: the first on a tie.
fn best_nurse(inst: &Instance, scorer: &Scorer<'_>, room: RoomNo, shift: Shift) -> Candidate
    requires instance { scorer.now.instance ≡ inst.now.draft }
    requires inside { IsChoiceOf inst.now.draft (Choice.Nurse room shift) }
    ensures best { result ≡ best_of inst.now.draft scorer.now.hard scorer.now.plan (Choice.Nurse room shift) }
    ensures fits { IsWriteOf inst.now.draft result.write }
{
    let none = scorer.no_nurse(room, shift);
    match cheapest_nurse(inst, scorer, room, shift) {
        None => none,
        Some(nurse) => cheaper(none, nurse),
    }
}

/// The best replacement of a choice, with what it changes in the score: of clearing the choice and of all settings the
/// first of least score.
pub fn best_replacement(inst: &Instance, scorer: &Scorer<'_>, choice: Choice) -> Candidate
    requires instance { scorer.now.instance ≡ inst.now.draft }
    requires counts { scorer.now.counts_uncovered ≡ true }
    requires inside { IsChoiceOf inst.now.draft choice }
    ensures best { result ≡ best_of inst.now.draft scorer.now.hard scorer.now.plan choice }
    ensures fits { IsWriteOf inst.now.draft result.write }
{
    match choice {
        Choice::Stay(p) => {
            let out = scorer.left_out(p);
            cheapest_stay(inst, scorer, p, inst.patient(p), out)
        }
        Choice::Nurse(r, k) => best_nurse(inst, scorer, r, k),
    }
}
