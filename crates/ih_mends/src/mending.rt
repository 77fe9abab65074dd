//! Which change mends a rule.

ghost use Rattle.std.specs.Prelude.{◌≡◌, ◌<◌, IfSome};
ghost use Rattle.ih_plan.specs.Writes.{IsWriteOf};
ghost use Rattle.ih_fill.specs.Choices.{all_choices};
ghost use Rattle.ih_waiting.specs.ScorerUse.{IsForAdmissions};
ghost use Rattle.ih_mends.specs.Changes.{AreBestChanges};
ghost use Rattle.ih_mends.specs.Mends.{lowers, mend};

use crate::changes::change_by;
use ih_fill::{Candidate, Scorer, cheaper};
use ih_plan::Write;
use ih_tables::Instance;

// Whether a write lowers the number of the rule at a place of the bill.
fn lowers(inst: &Instance, scorer: &Scorer<'_>, write: &Write, rule: usize) -> bool
    requires scorer { IsForAdmissions inst.now.draft scorer.now }
    requires write { IsWriteOf inst.now.draft write.now }
    requires rule { rule < 9 }
    ensures { result ≡ lowers inst.now.draft scorer.now.plan rule write.now }
{
    change_by(inst, scorer, write).v[rule] < 0
}

/// The mend of the rule at a place of the bill: of the best replacements of all choices that lower its number, the
/// first of least score.
pub fn mend(
    inst: &Instance,
    scorer: &Scorer<'_>,
    changes: &[Candidate],
    rule: usize,
) -> Option<Candidate>
    requires scorer { IsForAdmissions inst.now.draft scorer.now }
    requires changes { AreBestChanges inst.now.draft scorer.now.plan (all_choices inst.now.draft) changes.now }
    requires rule { rule < 9 }
    ensures least { result ≡ mend inst.now.draft scorer.now.plan rule }
    ensures fits { IfSome result (λ c. IsWriteOf inst.now.draft c.write) }
{
    let mut best = None;
    for i in 0..changes.len() {
        let change = changes[i];
        if lowers(inst, scorer, &change.write, rule) {
            best = match best {
                None => Some(change),
                Some(first) => Some(cheaper(first, change)),
            };
        }
    }
    best
}
