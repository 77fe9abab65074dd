//! In which theatre a patient has surgery.

ghost use Rattle.std.specs.Prelude.{◌≡◌, ◌<◌};
ghost use Rattle.ih_tables.specs.Sizes.{patient_count, theatre_count};
ghost use Rattle.ih_plan.specs.{Timetable.IsPlacement, Timetable.stay_of, Series.AreMoves};
ghost use Rattle.ih_proposals.specs.NewStays.{IsNewStay};

use crate::new_stays::NewStay;
use crate::situation::{Situation, is_small};
use crate::stays::cyclic;
use crate::surgeries::surgery_then;
use ih_moves::Chain;
use ih_plan::Placement;
use ih_tables::{Day, PatientNo, RoomNo, TheatreNo};

/// Where a patient has surgery, and what that adds to the score.
#[derive(Clone, Copy)]
pub struct Surgery {
    pub theatre: TheatreNo,
    pub cost: i64,
}

// What the surgery of a placement adds to the score: in the theatre on its day, and for the patient's surgeon there. The
// surgeon isn't looked at where the theatre alone adds `most` or more: neither ever takes anything away.
#[inline(always)]
fn surgery_score(
    here: &Situation<'_>,
    patient: PatientNo,
    old: Option<Placement>,
    at: Placement,
    most: i64,
) -> i64
    requires patient { patient.0 < patient_count here.now.inst.now.draft }
    requires old { stay_of here.now.ledgers.now.plan patient.0 ≡ old }
    requires placement { IsPlacement here.now.inst.now.draft at }
{
    let theatres = here.theatres();
    let in_theatre = here.score_of_surgery(&theatres.theatre_delta(here.inst, patient, old, at));
    if in_theatre >= most {
        return in_theatre;
    }
    let surgeon = here.inst.patient(patient).surgeon_id;
    let of_surgeon = theatres.surgeon_delta(here.inst, surgeon, patient, old, at);
    in_theatre.saturating_add(here.score_of_surgery(&of_surgeon))
}

// What the surgery of a stay adds to the score once the attempt is made, which doesn't give the patient a stay yet; where
// that is `most` or more, any number from there on. On large wards, where there is much to look at, it is by those who
// have surgery before the attempt is made.
fn surgery_cost(here: &Situation<'_>, stay: NewStay, attempt: &Chain, most: i64) -> i64
    requires stay { IsNewStay here.now.inst.now.draft stay }
    requires moves { AreMoves here.now.inst.now.draft attempt.now }
{
    if attempt.len() == 0 || !is_small(here.inst) {
        surgery_score(here, stay.patient, here.stay(stay.patient), stay.at, most)
    } else {
        surgery_then(here, stay, attempt)
    }
}

/// The theatre in which surgery of the patient on a day adds least to the score once the attempt is made, which doesn't
/// place the patient yet: the first of equal ones, cyclically from one on.
pub fn cheapest_surgery(
    here: &Situation<'_>,
    patient: PatientNo,
    day: Day,
    first: u32,
    attempt: &Chain,
) -> Surgery
    requires patient { patient.0 < patient_count here.now.inst.now.draft }
    requires day { day.0 < here.now.inst.now.draft.days }
    requires first { first < theatre_count here.now.inst.now.draft }
    requires moves { AreMoves here.now.inst.now.draft attempt.now }
    ensures { result.theatre.0 < theatre_count here.now.inst.now.draft }
{
    let theatres = here.inst.theatres();
    let mut best = first;
    let mut least = i64::MAX;
    for i in 0..theatres {
        let t = cyclic(first, i, theatres);
        let at = Placement {
            day,
            room: RoomNo(0),
            theatre: TheatreNo(t),
        };
        let value = surgery_cost(here, NewStay { patient, at }, attempt, least);
        if value < least {
            least = value;
            best = t;
        }
    }
    Surgery {
        theatre: TheatreNo(best),
        cost: least,
    }
}
