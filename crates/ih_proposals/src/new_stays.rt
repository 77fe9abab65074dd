//! A patient's stay once an attempt is made, and who cares for the patient there.

ghost use Rattle.std.specs.Prelude.{◌<◌, IfSome};
ghost use Rattle.ih_tables.specs.Sizes.{nurse_count, patient_count, room_count};
ghost use Rattle.ih_plan.specs.{Expand.IsMoveOf};
ghost use Rattle.ih_proposals.specs.NewStays.{IsNewStay};

use crate::situation::Situation;
use ih_plan::{Move, Placement, end_of};
use ih_tables::{NurseNo, PatientNo, RoomNo, Shift};

/// A patient, and where the patient stays.
#[derive(Clone, Copy)]
pub struct NewStay {
    pub patient: PatientNo,
    pub at: Placement,
}

// The stay of a patient who is admitted, in another room.
fn stay_in(here: &Situation<'_>, patient: PatientNo, room: RoomNo) -> Option<NewStay>
    requires patient { patient.0 < patient_count here.now.inst.now.draft }
    requires room { room.0 < room_count here.now.inst.now.draft }
    ensures { IfSome result (IsNewStay here.now.inst.now.draft) }
{
    let old = here.stay(patient)?;
    Some(NewStay {
        patient,
        at: Placement { room, ..old },
    })
}

/// The stay that a move gives a patient: that of a `Place` or a `SetRoom`. The other kinds aren't looked at.
pub fn new_stay(here: &Situation<'_>, mv: Move) -> Option<NewStay>
    requires { IsMoveOf here.now.inst.now.draft mv }
    ensures { IfSome result (IsNewStay here.now.inst.now.draft) }
{
    match mv {
        Move::Place(patient, at) => Some(NewStay { patient, at }),
        Move::SetRoom(patient, room) => stay_in(here, patient, room),
        _ => None,
    }
}

// A nurse's mark: one bit for each number modulo 64.
fn mark_of(nurse: NurseNo) -> u64 {
    1u64 << (nurse.0 % 64)
}

/// Who cares for a patient over a stay, by the nurses' marks.
#[derive(Clone, Copy)]
pub struct Carers {
    /// Who is there in a shift or more.
    pub once: u64,
    /// Who is there in two or more.
    pub twice: u64,
}

impl Carers {
    // The same with a nurse in one shift more.
    fn with(self, nurse: NurseNo) -> Carers {
        let mark = mark_of(nurse);
        Carers {
            once: self.once | mark,
            twice: self.twice | self.once & mark,
        }
    }

    /// The marks of those who are there without one shift of a nurse.
    pub fn marks_but(self, nurse: NurseNo) -> u64 {
        self.once & !(mark_of(nurse) & !self.twice)
    }
}

/// Who cares for the patient over the stay, as nurses are before the attempt is made.
pub fn carers_of(here: &Situation<'_>, stay: NewStay) -> Carers
    requires { IsNewStay here.now.inst.now.draft stay }
{
    let mut carers = Carers { once: 0, twice: 0 };
    for k in 3 * stay.at.day.0..3 * end_of(here.inst, stay.patient, stay.at) {
        if let Some(nurse) = here.nurse(stay.at.room, Shift(k)) {
            carers = carers.with(nurse);
        }
    }
    carers
}

/// What a nurse in a shift of the stay costs the patient: a skill that is too low, and one nurse more where the marks
/// of the other shifts' nurses don't have it.
pub fn cost_of_nurse(
    here: &Situation<'_>,
    stay: NewStay,
    shift: Shift,
    marks: u64,
    nurse: NurseNo,
) -> i64
    requires stay { IsNewStay here.now.inst.now.draft stay }
    requires nurse { nurse.0 < nurse_count here.now.inst.now.draft }
{
    let weights = here.inst.weights().w;
    let entry_no = shift.0.saturating_sub(3 * stay.at.day.0) as usize;
    let asked = match here
        .inst
        .patient(stay.patient)
        .skill_level_required
        .as_slice()
        .get(entry_no)
    {
        Some(skill) => *skill,
        None => 0,
    };
    let missing = asked.saturating_sub(here.inst.nurse(nurse).skill_level);
    let further = if marks & mark_of(nurse) == 0 {
        weights[2]
    } else {
        0
    };
    weights[1]
        .saturating_mul(i64::from(missing))
        .saturating_add(further)
}
