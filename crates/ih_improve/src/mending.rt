//! Single moves that mend what a start breaks, before a search goes on. Nothing rests on which they are.

ghost use Rattle.std.specs.Prelude.{◌≡◌, ◌<◌, IfSome};
ghost use Rattle.ih_tables.specs.Sizes.{patient_count, room_count, shift_count};
ghost use Rattle.ih_plan.specs.{Expand.IsMoveOf};
ghost use Rattle.ih_proposals.specs.Mending.{IsMend};
ghost use Rattle.ih_improve.specs.WalkerState.{IsUnderway};

use crate::heats::Pace;
use crate::keeping::is_early;
use crate::legs::Leg;
use crate::workers::ImproveWorker;
use ih_proposals::{Mend, breaks_rule, mend_shift, mend_stay};
use ih_tables::{Instance, PatientNo, RoomNo, Shift};

// So many stays are looked at each time that patients are compared.
const LOOKS: u64 = 20_000;
// So many times they are compared.
const COMPARED: u32 = 64;

// How many patients are compared: each may have a stay in each room and theatre, from each day on.
fn most_compared(inst: &Instance) -> u64 {
    let stays = u64::from(inst.days())
        .saturating_mul(u64::from(inst.rooms()))
        .saturating_mul(u64::from(inst.theatres()));
    LOOKS / stays.max(1)
}

// Whether the patient may get another stay, and a rule would be mended by that.
fn is_to_mend(leg: &Leg<'_>, worker: &ImproveWorker<'_>, patient: PatientNo) -> bool
    requires underway { IsUnderway leg.now worker.now.walker }
    requires patient { patient.0 < patient_count leg.now.instance }
{
    leg.know_leg();
    let inst = leg.instance();
    breaks_rule(inst, worker.walker.ledgers(), patient)
        && !leg.pins().has_patient(patient)
        && !is_early(inst, leg.start(), leg.settings().freeze, patient)
}

// The mend before, or a cheaper one of the patient.
fn mend_of(
    leg: &Leg<'_>,
    pace: &Pace,
    worker: &ImproveWorker<'_>,
    before: Option<Mend>,
    patient: PatientNo,
) -> Option<Mend>
    requires underway { IsUnderway leg.now worker.now.walker }
    requires before { IfSome before (IsMend leg.now.instance) }
    requires patient { patient.0 < patient_count leg.now.instance }
    ensures { IfSome result (IsMend leg.now.instance) }
{
    let (inst, first) = (leg.instance(), leg.settings().freeze);
    mend_stay(
        inst,
        pace.hard,
        worker.walker.ledgers(),
        before,
        patient,
        first,
    )
}

// The cheapest mend of all patients; none where too many of them break rules.
fn cheapest_mend(leg: &Leg<'_>, pace: &Pace, worker: &ImproveWorker<'_>) -> Option<Mend>
    requires { IsUnderway leg.now worker.now.walker }
    ensures { IfSome result (IsMend leg.now.instance) }
{
    let inst = leg.instance();
    let most = most_compared(inst);
    let mut compared = 0;
    let mut best = None;
    for p in 0..inst.patients() {
        if is_to_mend(leg, worker, PatientNo(p)) {
            if compared >= most {
                return None;
            }
            compared += 1;
            best = mend_of(leg, pace, worker, best, PatientNo(p));
        }
    }
    best
}

// Makes a mend.
fn make(leg: &Leg<'_>, pace: &Pace, worker: &mut ImproveWorker<'_>, mend: Option<Mend>)
    requires underway { IsUnderway leg.now worker.old.walker }
    requires mend { IfSome mend (IsMend leg.now.instance) }
    ensures { IsUnderway leg.now worker.new.walker }
{
    if let Some(Mend { mv, .. }) = mend {
        worker.make_move(leg, pace, mv, i64::MAX);
    }
}

// Gives each room a nurse where one is missing.
fn mend_shifts(leg: &Leg<'_>, pace: &Pace, worker: &mut ImproveWorker<'_>)
    requires { IsUnderway leg.now worker.old.walker }
    ensures { IsUnderway leg.now worker.new.walker }
{
    let inst = leg.instance();
    for r in 0..inst.rooms() {
        for k in 0..inst.shifts() {
            let ledgers = worker.walker.ledgers();
            let found = mend_shift(inst, pace.hard, ledgers, RoomNo(r), Shift(k));
            make(leg, pace, worker, found);
        }
    }
}

// Gives patients other stays, the cheapest one first as long as they are few.
fn mend_stays(leg: &Leg<'_>, pace: &Pace, worker: &mut ImproveWorker<'_>)
    requires { IsUnderway leg.now worker.old.walker }
    ensures { IsUnderway leg.now worker.new.walker }
{
    'cheapest: for _ in 0..COMPARED {
        let found = cheapest_mend(leg, pace, worker);
        if found.is_none() {
            break;
        }
        make(leg, pace, worker, found);
    }
    for p in 0..leg.instance().patients() {
        if is_to_mend(leg, worker, PatientNo(p)) {
            let found = mend_of(leg, pace, worker, None, PatientNo(p));
            make(leg, pace, worker, found);
        }
    }
}

/// Makes single moves that mend what is broken where the worker stands, the cheapest ones: first of nurses, then of
/// patients.
pub(crate) fn mend(leg: &Leg<'_>, pace: &Pace, worker: &mut ImproveWorker<'_>)
    requires { IsUnderway leg.now worker.old.walker }
    ensures { IsUnderway leg.now worker.new.walker }
{
    mend_shifts(leg, pace, worker);
    mend_stays(leg, pace, worker);
}
