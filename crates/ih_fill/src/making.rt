//! One choice of a fill: whether it is open, and its cheapest candidate.

ghost use Rattle.std.specs.Prelude.{◌≡◌, false, IfSome};
ghost use Rattle.ih_plan.specs.Writes.{IsWriteOf};
ghost use Rattle.ih_fill.specs.{Choices.IsChoiceOf, Choices.candidates, Candidates.least_of, ScorerState.value_in};
ghost use Rattle.ih_fill.specs.Fill.{is_open, with_choice};

use crate::candidates::Candidate;
use crate::choices::Choice;
use crate::nurses::{cheapest_nurse, is_uncovered};
use crate::patients::cheapest_stay;
use crate::scoring::Scorer;
use ih_tables::Instance;

/// Whether a fill makes the choice: that of a stay always, that of a nurse where the room has persons and no nurse.
pub fn is_open(scorer: &Scorer<'_>, choice: Choice) -> bool
    requires { IsChoiceOf scorer.now.instance choice }
    ensures { result ≡ is_open scorer.now.instance scorer.now.plan choice }
{
    match choice {
        Choice::Stay(_) => true,
        Choice::Nurse(r, k) => is_uncovered(scorer, r, k),
    }
}

// The cheapest candidate of the choice, where there is any: the first on a tie.
fn cheapest_candidate(inst: &Instance, scorer: &Scorer<'_>, choice: Choice) -> Option<Candidate>
    requires instance { scorer.now.instance ≡ inst.now.draft }
    requires inside { IsChoiceOf inst.now.draft choice }
    ensures least { result ≡ least_of (value_in scorer.now choice) (candidates inst.now.draft choice) }
    ensures fits { IfSome result (λ best. IsWriteOf inst.now.draft best.write) }
{
    match choice {
        Choice::Stay(p) => {
            let out = scorer.left_out(p);
            Some(cheapest_stay(inst, scorer, p, inst.patient(p), out))
        }
        Choice::Nurse(r, k) => cheapest_nurse(inst, scorer, r, k),
    }
}

/// Makes a choice of a fill: where it is open, its cheapest candidate is written, if there is any. The scorer is a
/// fill's, by which uncovered rooms don't count in what a stay adds.
pub fn make_choice(inst: &Instance, scorer: &mut Scorer<'_>, choice: Choice)
    requires instance { scorer.old.instance ≡ inst.now.draft }
    requires counts { scorer.old.counts_uncovered ≡ false }
    requires inside { IsChoiceOf inst.now.draft choice }
    ensures { scorer.new
        ≡ record scorer.old { plan = with_choice inst.now.draft scorer.old.hard scorer.old.plan choice } }
{
    if is_open(scorer, choice) {
        if let Some(best) = cheapest_candidate(inst, scorer, choice) {
            scorer.put(&best.write);
        }
    }
}
