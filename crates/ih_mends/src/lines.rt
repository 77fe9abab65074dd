//! A line for each rule that the plan breaks.

ghost use Rattle.std.specs.Prelude.{◌≡◌, ◌<◌, ◌^◌, ◌++◌, IfOk, IfSome, OnOk, string_bytes};
ghost use Rattle.ih_tables.specs.Bills.{IsWithin};
ghost use Rattle.ih_plan.specs.declared.moves.Write.TheVariants.{SetStay, SetCare};
ghost use Rattle.ih_plan.specs.{BillOf.bill_of, Timetable.IsPlanOf, Writes.IsWriteOf};
ghost use Rattle.ih_fill.specs.Choices.{all_choices};
ghost use Rattle.ih_waiting.specs.ScorerUse.{IsForAdmissions};
ghost use Rattle.ih_mends.specs.Changes.{AreBestChanges};
ghost use Rattle.ih_mends.specs.Texts.{mend_text, mends_text, priced_text, rule_line, write_text};

use crate::changes::{best_changes, change_by};
use crate::mending::mend;
use crate::sentences::{
    care_text, line_text, no_care_text, none_text, out_text, rule_text, stay_text,
};
use ih_fill::{Candidate, Scorer};
use ih_plan::{MAX_HARD, Placement, Plan, Write};
use ih_tables::{Bill, Instance, NurseNo, PatientNo, RoomNo, Shift};
use ih_validate::bill;
use ih_waiting::{Text, broken_more, change_text};
use std::alloc::{AllocError, Global};

// What appending gives: it fails only where memory runs out.
type Put = Result<(), AllocError>;

// A patient's stay, or that there is none.
fn stay_write_text(
    alloc: Global,
    inst: &Instance,
    patient: PatientNo,
    stay: Option<Placement>,
) -> Text
    requires { IsWriteOf inst.now.draft (SetStay patient stay) }
    ensures { IfOk result (λ s. string_bytes s ≡ write_text inst.now.draft (SetStay patient stay)) }
{
    let id = inst.patient(patient).id.as_str();
    match stay {
        None => out_text(alloc, id),
        Some(at) => {
            let room = inst.room(at.room).id.as_str();
            let theatre = inst.theatre(at.theatre).id.as_str();
            stay_text(alloc, id, at.day.0, room, theatre)
        }
    }
}

// A room's nurse in a shift, or that there is none.
fn care_write_text(
    alloc: Global,
    inst: &Instance,
    room: RoomNo,
    shift: Shift,
    nurse: Option<NurseNo>,
) -> Text
    requires { IsWriteOf inst.now.draft (SetCare room shift nurse) }
    ensures { IfOk result (λ s. string_bytes s ≡ write_text inst.now.draft (SetCare room shift nurse)) }
{
    let id = inst.room(room).id.as_str();
    let name = inst.shift_type(shift.0 % 3).as_str();
    match nurse {
        None => no_care_text(alloc, id, shift.0 / 3, name),
        Some(n) => care_text(alloc, inst.nurse(n).id.as_str(), id, shift.0 / 3, name),
    }
}

// A write, by the ids.
fn write_text(alloc: Global, inst: &Instance, write: &Write) -> Text
    requires { IsWriteOf inst.now.draft write.now }
    ensures { IfOk result (λ s. string_bytes s ≡ write_text inst.now.draft write.now) }
{
    match *write {
        Write::SetStay(p, stay) => stay_write_text(alloc, inst, p, stay),
        Write::SetCare(r, k, nurse) => care_write_text(alloc, inst, r, k, nurse),
    }
}

// A write, the rules that are broken more by it, if any, and what it adds to the cost.
#[tactic(auto, unfolding(crate::specs::Texts::priced_text))]
fn priced_text(alloc: Global, inst: &Instance, write: &Write, change: &Bill) -> Text
    requires write { IsWriteOf inst.now.draft write.now }
    requires within { IsWithin (10 ^ 11) change.now }
    ensures { IfOk result (λ s. string_bytes s ≡ priced_text inst.now.draft write.now change.now) }
{
    let mut text = write_text(alloc, inst, write)?;
    let change = change_text(alloc, broken_more(change), change.cost(inst.weights()))?;
    text.push_str(change.as_str())?;
    Ok(text)
}

// The mend, if there is one.
fn mend_text(alloc: Global, inst: &Instance, scorer: &Scorer<'_>, mend: Option<Candidate>) -> Text
    requires scorer { IsForAdmissions inst.now.draft scorer.now }
    requires fits { IfSome mend (λ c. IsWriteOf inst.now.draft c.write) }
    ensures { IfOk result (λ s. string_bytes s ≡ mend_text inst.now.draft scorer.now.plan mend) }
{
    match mend {
        None => none_text(alloc),
        Some(best) => {
            let change = change_by(inst, scorer, &best.write);
            priced_text(alloc, inst, &best.write, &change)
        }
    }
}

// Appends what is said of the rule at a place of the bill, where it is broken.
#[tactic(auto, unfolding(crate::specs::Texts::rule_line))]
fn put_rule(
    alloc: Global,
    out: &mut String,
    inst: &Instance,
    scorer: &Scorer<'_>,
    bill: &Bill,
    changes: &[Candidate],
    rule: usize,
) -> Put
    requires scorer { IsForAdmissions inst.now.draft scorer.now }
    requires bill { bill.now ≡ bill_of inst.now.draft scorer.now.plan }
    requires changes { AreBestChanges inst.now.draft scorer.now.plan (all_choices inst.now.draft) changes.now }
    requires rule { rule < 9 }
    ensures { OnOk result (string_bytes out.new ≡ string_bytes out.old ++ rule_line inst.now.draft scorer.now.plan rule) }
{
    let count = bill.v[rule];
    if count > 0 {
        let text = mend_text(alloc, inst, scorer, mend(inst, scorer, changes, rule))?;
        let line = line_text(alloc, rule_text(rule), count, text.as_str())?;
        out.push_str(line.as_str())
    } else {
        Ok(())
    }
}

// Appends what is said of the nine rules.
#[tactic(auto, using(crate::proofs::LineSteps::part_steps), unfolding(crate::specs::Texts::mends_text))]
fn put_rules(
    alloc: Global,
    out: &mut String,
    inst: &Instance,
    scorer: &Scorer<'_>,
    bill: &Bill,
    changes: &[Candidate],
) -> Put
    requires scorer { IsForAdmissions inst.now.draft scorer.now }
    requires bill { bill.now ≡ bill_of inst.now.draft scorer.now.plan }
    requires changes { AreBestChanges inst.now.draft scorer.now.plan (all_choices inst.now.draft) changes.now }
    ensures { OnOk result (string_bytes out.new ≡ string_bytes out.old ++ mends_text inst.now.draft scorer.now.plan) }
{
    for rule in 0..9 {
        put_rule(alloc, out, inst, scorer, bill, changes, rule)?;
    }
    Ok(())
}

/// The rules that a plan breaks, in the order of the bill, a line for each: how often it is broken, and the cheapest
/// single change that mends it. Each choice of the plan has its best replacement: of leaving the patient out and all
/// stays, or of no nurse and all nurses of the shift, the first of least score, where a broken rule weighs most. Of
/// those that lower the rule's number the line has the first of least score, with what it adds to the cost, and how
/// many units of rules more are broken, if any.
pub fn mends(alloc: Global, inst: &Instance, plan: &Plan) -> Result<Vec<u8>, AllocError>
    requires { IsPlanOf inst.now.draft plan.now }
    ensures { IfOk result (λ text. text.items ≡ mends_text inst.now.draft plan.now) }
{
    let bill = bill(inst, plan);
    if bill.feasible() {
        return Ok(Vec::new(alloc));
    }
    let scorer = Scorer::new(alloc, inst, MAX_HARD, true, plan)?;
    let changes = best_changes(alloc, inst, &scorer)?;
    let mut out = String::new(alloc);
    put_rules(alloc, &mut out, inst, &scorer, &bill, changes.as_slice())?;
    Ok(out.into_bytes())
}
