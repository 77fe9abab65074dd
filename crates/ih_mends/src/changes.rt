//! The best replacements of all choices, and what a write changes.

ghost use Rattle.std.specs.Prelude.{◌≡◌, ◌^◌, All, IfOk};
ghost use Rattle.ih_tables.specs.Bills.{IsWithin};
ghost use Rattle.ih_plan.specs.Writes.{IsWriteOf};
ghost use Rattle.ih_fill.specs.Choices.{IsChoiceOf, all_choices};
ghost use Rattle.ih_waiting.specs.ScorerUse.{IsForAdmissions};
ghost use Rattle.ih_mends.specs.Changes.{AreBestChanges};
ghost use Rattle.ih_mends.specs.Mends.{change_by};

use ih_fill::{Candidate, Choice, Scorer, all_choices};
use ih_plan::Write;
use ih_replacements::best_replacement;
use ih_tables::{Bill, Instance};
use std::alloc::{AllocError, Global};

// What computing them gives: it fails only where memory runs out.
type Changes = Result<Vec<Candidate>, AllocError>;

// The best replacement of each of these choices, in their order.
fn changes_of(alloc: Global, inst: &Instance, scorer: &Scorer<'_>, choices: &[Choice]) -> Changes
    requires scorer { IsForAdmissions inst.now.draft scorer.now }
    requires inside { All (IsChoiceOf inst.now.draft) choices.now }
    ensures { IfOk result (λ v. AreBestChanges inst.now.draft scorer.now.plan choices.now v.items) }
{
    let mut changes = Vec::new(alloc);
    for i in 0..choices.len() {
        changes.push(best_replacement(inst, scorer, choices[i]))?;
    }
    Ok(changes)
}

/// The best replacement of each choice, in the order of the choices.
pub fn best_changes(alloc: Global, inst: &Instance, scorer: &Scorer<'_>) -> Changes
    requires { IsForAdmissions inst.now.draft scorer.now }
    ensures { IfOk result
        (λ v. AreBestChanges inst.now.draft scorer.now.plan (all_choices inst.now.draft) v.items) }
{
    let choices = all_choices(alloc, inst)?;
    changes_of(alloc, inst, scorer, choices.as_slice())
}

/// What a write changes in the bill.
pub fn change_by(inst: &Instance, scorer: &Scorer<'_>, write: &Write) -> Bill
    requires scorer { IsForAdmissions inst.now.draft scorer.now }
    requires write { IsWriteOf inst.now.draft write.now }
    ensures value { result ≡ change_by inst.now.draft scorer.now.plan write.now }
    ensures within { IsWithin (10 ^ 11) result }
{
    // For the proof alone.
    scorer.fits();
    scorer.price(write)
}
