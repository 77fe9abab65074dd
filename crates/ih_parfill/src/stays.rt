//! A worker's share of the stays that a patient may get, of which the first is none.

ghost use Rattle.std.specs.Prelude.{◌≡◌, ◌<◌, ◌≤◌, ◌+◌, ◌^◌, List, [], ◌∷◌, ◌++◌, Some, None, slice_get};
ghost use Rattle.ih_tables.specs.Sizes.{patient_count, room_count, theatre_count};
ghost use Rattle.ih_plan.specs.{declared.moves.Write.Write, declared.moves.Write.TheVariants.SetStay};
ghost use Rattle.ih_fill.specs.{
  Candidates.stay_writes,
  Candidates.stays_in,
  Candidates.stays_on,
  ScorerState.stay_value,
};
ghost use Rattle.ih_parfill.specs.Shares.{HasLooked, IsOfShare, IsShare};

use crate::scans::{Found, ShareScan};
use ih_fill::Scorer;
use ih_moves::window_len;
use ih_plan::Placement;
use ih_tables::{Day, Instance, Patient, PatientNo, RoomNo, TheatreNo};
use ih_validate::is_incompatible;

// Looks at the candidate that the patient is out, where it is the worker's own.
fn look_at_none(scorer: &Scorer<'_>, patient: PatientNo, scan: &mut ShareScan)
    requires patient { patient.0 < patient_count scorer.now.instance }
    requires some { 0 < scan.old.workers }
    requires first { scan.old.passed ≡ 0 }
    requires none { scan.old.best ≡ None }
    ensures looked { HasLooked scorer.now.instance (stay_value scorer.now) (SetStay patient None ∷ []) scan.new }
    ensures passed { scan.new.passed ≡ 1 }
    ensures workers { scan.new.workers ≡ scan.old.workers }
    ensures worker { scan.new.worker ≡ scan.old.worker }
{
    if scan.is_own() {
        scan.look(scorer.left_out(patient));
    } else {
        scan.pass();
    }
}

// Looks at the worker's own of the stays in a room from a day on.
fn look_in_room(
    inst: &Instance,
    scorer: &Scorer<'_>,
    patient: PatientNo,
    day: Day,
    room: RoomNo,
    scan: &mut ShareScan,
)
    requires instance { scorer.now.instance ≡ inst.now.draft }
    requires patient { patient.0 < patient_count inst.now.draft }
    requires day { day.0 < inst.now.draft.days }
    requires room { room.0 < room_count inst.now.draft }
    requires some { 0 < scan.old.workers }
    requires few { scan.old.passed + 64 < 2 ^ 32 }
    ensures looked { (ws : List Write) → HasLooked inst.now.draft (stay_value scorer.now) ws scan.old
        → HasLooked inst.now.draft (stay_value scorer.now)
        (ws ++ stays_in patient day.0 room.0 (theatre_count inst.now.draft)) scan.new }
    ensures passed { scan.new.passed ≤ scan.old.passed + 64 }
    ensures workers { scan.new.workers ≡ scan.old.workers }
    ensures worker { scan.new.worker ≡ scan.old.worker }
{
    for t in 0..inst.theatres() {
        if scan.is_own() {
            let theatre = TheatreNo(t);
            let at = Placement { day, room, theatre };
            scan.look(scorer.stay(patient, at));
        } else {
            scan.pass();
        }
    }
}

// Looks at the worker's own of the stays from a day on.
fn look_on_day(
    inst: &Instance,
    scorer: &Scorer<'_>,
    patient_no: PatientNo,
    patient: &Patient,
    day: Day,
    scan: &mut ShareScan,
)
    requires instance { scorer.now.instance ≡ inst.now.draft }
    requires patient { patient_no.0 < patient_count inst.now.draft }
    requires day { day.0 < inst.now.draft.days }
    requires some { 0 < scan.old.workers }
    requires few { scan.old.passed + 8192 < 2 ^ 32 }
    ensures looked { (ws : List Write) → HasLooked inst.now.draft (stay_value scorer.now) ws scan.old
        → HasLooked inst.now.draft (stay_value scorer.now)
        (ws ++ stays_on inst.now.draft patient_no patient.now day.0 (room_count inst.now.draft)) scan.new }
    ensures passed { scan.new.passed ≤ scan.old.passed + 8192 }
    ensures workers { scan.new.workers ≡ scan.old.workers }
    ensures worker { scan.new.worker ≡ scan.old.worker }
{
    for r in 0..inst.rooms() {
        let room = RoomNo(r);
        let suits = !is_incompatible(patient, room);
        if suits {
            look_in_room(inst, scorer, patient_no, day, room, scan);
        }
    }
}

/// The first least of a worker's share of the stays that a patient may get, or none.
pub(crate) fn least_of_share(
    inst: &Instance,
    scorer: &Scorer<'_>,
    patient_no: PatientNo,
    patient: &Patient,
    workers: u32,
    worker: u32,
) -> Option<Found>
    requires instance { scorer.now.instance ≡ inst.now.draft }
    requires patient { slice_get inst.now.draft.patients patient_no.0 ≡ Some patient.now }
    requires some { 0 < workers }
    ensures { IsOfShare inst.now.draft (stay_value scorer.now)
        (SetStay patient_no None ∷ stay_writes inst.now.draft patient_no.0)
        (IsShare workers worker) result }
{
    let mut scan = ShareScan::new(workers, worker);
    look_at_none(scorer, patient_no, &mut scan);
    for later in 0..window_len(inst, patient) {
        let day = Day(patient.surgery_release_day + later);
        look_on_day(inst, scorer, patient_no, patient, day, &mut scan);
    }
    scan.best
}
