//! The cheapest of the stays that a patient may get.

ghost use Rattle.std.specs.Prelude.{◌≡◌, ◌<◌, ℕ, Some, IfSome, IfNone, slice_get};
ghost use Rattle.ih_tables.specs.Sizes.{patient_count, room_count, theatre_count};
ghost use Rattle.ih_plan.specs.Writes.{IsWriteOf};
ghost use Rattle.ih_fill.specs.Candidates.{cheapest, stay_writes, stays_on, valued};
ghost use Rattle.ih_fill.specs.{ScorerState.stay_value, Theatres.theatre_value, Theatres.IsFirstTheatre};

use crate::candidates::{Candidate, cheaper};
use crate::scoring::Scorer;
use ih_moves::window_len;
use ih_plan::Placement;
use ih_tables::{Day, Instance, Patient, PatientNo, RoomNo, TheatreNo};
use ih_validate::is_incompatible;

// What a stay in the first room from a day on adds to the score, with surgery in a theatre.
fn theatre_value(scorer: &Scorer<'_>, patient: PatientNo, day: Day, theatre: u32) -> i64
    requires patient { patient.0 < patient_count scorer.now.instance }
    requires day { day.0 < scorer.now.instance.days }
    requires room { 0 < room_count scorer.now.instance }
    requires theatre { theatre < theatre_count scorer.now.instance }
    ensures { result ≡ theatre_value scorer.now patient day.0 0 theatre }
{
    let at = Placement {
        day,
        room: RoomNo(0),
        theatre: TheatreNo(theatre),
    };
    scorer.stay(patient, at).value
}

// The theatre in which a stay from a day on adds least to the score, the first of equal ones, where there is any. What
// a stay adds is a part by its room and a part by its theatre, so this is the same theatre for every room.
fn cheapest_theatre(
    inst: &Instance,
    scorer: &Scorer<'_>,
    patient: PatientNo,
    day: Day,
) -> Option<TheatreNo>
    requires instance { scorer.now.instance ≡ inst.now.draft }
    requires patient { patient.0 < patient_count inst.now.draft }
    requires day { day.0 < inst.now.draft.days }
    ensures least { IfSome result
        (λ t. (r : ℕ) → IsFirstTheatre scorer.now patient day.0 r (theatre_count inst.now.draft) t.0) }
    ensures none { IfNone result (theatre_count inst.now.draft ≡ 0) }
{
    // For the proof alone.
    scorer.fits();
    if inst.theatres() == 0 {
        return None;
    }
    let mut best = 0;
    let mut least = theatre_value(scorer, patient, day, 0);
    for t in 1..inst.theatres() {
        let value = theatre_value(scorer, patient, day, t);
        if value < least {
            best = t;
            least = value;
        }
    }
    Some(TheatreNo(best))
}

// The cheapest of the one before and the stays from a day on, all with surgery in the theatre that is cheapest there.
fn cheapest_on_day(
    inst: &Instance,
    scorer: &Scorer<'_>,
    patient_no: PatientNo,
    patient: &Patient,
    day: Day,
    before: Candidate,
) -> Candidate
    requires instance { scorer.now.instance ≡ inst.now.draft }
    requires patient { patient_no.0 < patient_count inst.now.draft }
    requires day { day.0 < inst.now.draft.days }
    requires before { before ≡ valued (stay_value scorer.now) before.write }
    requires fits { IsWriteOf inst.now.draft before.write }
    ensures least { result
        ≡ valued (stay_value scorer.now)
        (cheapest (stay_value scorer.now) before.write
        (stays_on inst.now.draft patient_no patient.now day.0 (room_count inst.now.draft))) }
    ensures fits { IsWriteOf inst.now.draft result.write }
{
    let Some(theatre) = cheapest_theatre(inst, scorer, patient_no, day) else {
        return before;
    };
    let mut best = before;
    for r in 0..inst.rooms() {
        let room = RoomNo(r);
        let suits = !is_incompatible(patient, room);
        if suits {
            let at = Placement { day, room, theatre };
            best = cheaper(best, scorer.stay(patient_no, at));
        }
    }
    best
}

/// The cheapest of the one before and the stays from any day of the window on: the first on a tie.
pub fn cheapest_stay(
    inst: &Instance,
    scorer: &Scorer<'_>,
    patient_no: PatientNo,
    patient: &Patient,
    before: Candidate,
) -> Candidate
    requires instance { scorer.now.instance ≡ inst.now.draft }
    requires patient { slice_get inst.now.draft.patients patient_no.0 ≡ Some patient.now }
    requires before { before ≡ valued (stay_value scorer.now) before.write }
    requires fits { IsWriteOf inst.now.draft before.write }
    ensures least { result
        ≡ valued (stay_value scorer.now)
        (cheapest (stay_value scorer.now) before.write (stay_writes inst.now.draft patient_no.0)) }
    ensures fits { IsWriteOf inst.now.draft result.write }
{
    let mut best = before;
    for later in 0..window_len(inst, patient) {
        let day = Day(patient.surgery_release_day + later);
        best = cheapest_on_day(inst, scorer, patient_no, patient, day, best);
    }
    best
}
