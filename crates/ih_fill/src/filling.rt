//! The greedy fill of a timetable.

ghost use Rattle.std.specs.Prelude.{◌≡◌, ◌≤◌, false, All, IfOk};
ghost use Rattle.ih_plan.specs.Timetable.{IsPlanOf};
ghost use Rattle.ih_fill.specs.{Choices.IsChoiceOf, Fill.fill, Fill.with_choices};

use crate::choices::{Choice, fill_choices};
use crate::making::make_choice;
use crate::scoring::Scorer;
use ih_plan::Plan;
use ih_tables::Instance;
use std::alloc::{AllocError, Global};

// Makes each of the choices in turn.
fn make_all(inst: &Instance, scorer: &mut Scorer<'_>, choices: &[Choice])
    requires instance { scorer.old.instance ≡ inst.now.draft }
    requires counts { scorer.old.counts_uncovered ≡ false }
    requires inside { All (IsChoiceOf inst.now.draft) choices.now }
    ensures { scorer.new
        ≡ record scorer.old { plan = with_choices inst.now.draft scorer.old.hard scorer.old.plan choices.now } }
{
    for at in 0..choices.len() {
        make_choice(inst, scorer, choices[at]);
    }
}

/// The timetable after a greedy fill, which keeps all choices that are made already. First the patients who aren't
/// admitted, mandatory ones before optional ones, each get the stay that adds least to the score of the bill, or none
/// where no stay lowers it; rooms without nurses don't count yet. Then, by shift and by room, each occupied room
/// without a nurse gets the nurse who adds least, of those who work the shift. Of equal ones the first counts. `hard`
/// is the weight of a broken rule in a score.
pub fn fill(alloc: Global, inst: &Instance, hard: u32, plan: &Plan) -> Result<Plan, AllocError>
    requires hard { hard ≤ 1000000 }
    requires plan { IsPlanOf inst.now.draft plan.now }
    ensures filled { IfOk result (λ filled. filled ≡ fill inst.now.draft hard plan.now) }
    ensures fits { IfOk result (λ filled. IsPlanOf inst.now.draft filled) }
{
    let mut scorer = Scorer::new(alloc, inst, hard, false, plan)?;
    let choices = fill_choices(alloc, inst, plan)?;
    make_all(inst, &mut scorer, choices.as_slice());
    scorer.plan().try_clone(alloc)
}
