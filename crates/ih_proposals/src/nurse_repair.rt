//! Cheaper nurses for the patients whom an attempt moves.

ghost use Rattle.std.specs.Prelude.{◌<◌};
ghost use Rattle.ih_tables.specs.Sizes.{nurse_count, shift_count};
ghost use Rattle.ih_plan.specs.{Series.AreMoves};
ghost use Rattle.ih_proposals.specs.NewStays.{IsNewStay};

use crate::cheapest_nurse::{value_of, value_of_nobody};
use crate::new_stays::{Carers, NewStay, carers_of, cost_of_nurse, new_stay};
use crate::nurses::{count_working, working_at};
use crate::situation::Situation;
use crate::stays::cyclic;
use crate::words::RandomWords;
use ih_moves::Chain;
use ih_plan::{Move, end_of};
use ih_tables::{Cell, Instance, NurseNo, RoomNo, Shift};

// An attempt has no more moves.
const MOST: usize = 8;

// Whether the nurse has more work in the shift than the nurse may have.
fn is_overloaded(here: &Situation<'_>, nurse: NurseNo, shift: Shift) -> bool
    requires nurse { nurse.0 < nurse_count here.now.inst.now.draft }
    requires shift { shift.0 < shift_count here.now.inst.now.draft }
{
    here.ledgers.part(Cell::NurseShift(nurse, shift)).s[3] > 0
}

// A nurse for a shift of a room, and by how much cheaper the nurse is than the one there.
#[derive(Clone, Copy)]
struct Relief {
    room: RoomNo,
    shift: Shift,
    nurse: NurseNo,
    gain: i64,
}

// Those of the reliefs that gain most, so many at most, in no order.
#[derive(Clone, Copy)]
struct Reliefs {
    kept: [Relief; MOST],
    count: usize,
    most: usize,
}

impl Reliefs {
    // None, where so many moves may be added to an attempt.
    fn new(most: usize) -> Reliefs {
        let nothing = Relief {
            room: RoomNo(0),
            shift: Shift(0),
            nurse: NurseNo(0),
            gain: 0,
        };
        Reliefs {
            kept: [nothing; MOST],
            count: 0,
            most: most.min(MOST),
        }
    }

    // The place of the one that gains least.
    fn least(&self) -> usize {
        let mut place = 0;
        let mut least = i64::MAX;
        for i in 0..self.count.min(MOST) {
            if let Some(relief) = self.kept.get(i) {
                if relief.gain < least {
                    least = relief.gain;
                    place = i;
                }
            }
        }
        place
    }

    // Keeps the relief, if there is room, or in place of one that gains less.
    fn keep(&mut self, relief: Relief) {
        if self.count < self.most {
            if let Some(kept) = self.kept.get_mut(self.count) {
                *kept = relief;
            }
            self.count = self.count.saturating_add(1);
            return;
        }
        let place = self.least();
        if let Some(kept) = self.kept.get_mut(place) {
            if kept.gain < relief.gain {
                *kept = relief;
            }
        }
    }
}

// The relief in a shift of the stay that gains most, for those who are there and for the patient, where there is one:
// of equal ones the first, cyclically from a random nurse on. A nurse isn't priced who costs the patient more than those
// there can gain.
fn best_relief(
    here: &Situation<'_>,
    words: &mut RandomWords,
    stay: NewStay,
    shift: Shift,
    own_cost: i64,
    marks: u64,
) -> Option<Relief>
    requires stay { IsNewStay here.now.inst.now.draft stay }
    requires shift { shift.0 < shift_count here.now.inst.now.draft }
{
    let count = count_working(here.inst, shift);
    if count == 0 {
        return None;
    }
    let first = words.below(count);
    let room = stay.at.room;
    let nobody = value_of_nobody(here, room, shift);
    let mut best = None;
    let mut least = own_cost;
    for i in 0..count {
        let nurse = working_at(here.inst, shift, cyclic(first, i, count) as usize);
        let of_patient = cost_of_nurse(here, stay, shift, marks, nurse);
        if nobody.saturating_add(of_patient) < least {
            let value = value_of(here, room, shift, nurse).saturating_add(of_patient);
            if value < least {
                least = value;
                best = Some(Relief {
                    room,
                    shift,
                    nurse,
                    gain: own_cost.saturating_sub(value),
                });
            }
        }
    }
    best
}

// The best relief in a shift of the stay where its nurse is overloaded, less skilled than the patient needs, or there
// for the patient alone.
fn relief_in_shift(
    here: &Situation<'_>,
    words: &mut RandomWords,
    stay: NewStay,
    shift: Shift,
    carers: Carers,
) -> Option<Relief>
    requires stay { IsNewStay here.now.inst.now.draft stay }
    requires shift { shift.0 < shift_count here.now.inst.now.draft }
{
    let own = here.nurse(stay.at.room, shift)?;
    let marks = carers.marks_but(own);
    let own_cost = cost_of_nurse(here, stay, shift, marks, own);
    if own_cost == 0 && !is_overloaded(here, own, shift) {
        return None;
    }
    best_relief(here, words, stay, shift, own_cost, marks)
}

// Looks for reliefs in the shifts of the stay.
fn look_over(here: &Situation<'_>, words: &mut RandomWords, stay: NewStay, reliefs: &mut Reliefs)
    requires stay { IsNewStay here.now.inst.now.draft stay }
{
    let carers = carers_of(here, stay);
    for k in 3 * stay.at.day.0..3 * end_of(here.inst, stay.patient, stay.at) {
        if let Some(relief) = relief_in_shift(here, words, stay, Shift(k), carers) {
            reliefs.keep(relief);
        }
    }
}

// Adds a relief to an attempt.
fn add(inst: &Instance, relief: Relief, attempt: &mut Chain)
    requires { AreMoves inst.now.draft attempt.old }
    ensures { AreMoves inst.now.draft attempt.new }
{
    let Relief {
        room,
        shift,
        nurse,
        ..
    } = relief;
    if room.0 < inst.rooms() && shift.0 < inst.shifts() && nurse.0 < inst.nurses() {
        attempt.add(inst, Move::Nurse(room, shift, nurse));
    }
}

// Adds reliefs to an attempt.
fn add_all(inst: &Instance, reliefs: &Reliefs, attempt: &mut Chain)
    requires { AreMoves inst.now.draft attempt.old }
    ensures { AreMoves inst.now.draft attempt.new }
{
    for i in 0..reliefs.count {
        if let Some(relief) = reliefs.kept.get(i) {
            add(inst, *relief, attempt);
        }
    }
}

/// Adds to an attempt nurses who are cheaper in the shifts of its patients' new stays: those that gain most, as long as
/// it has fewer than eight moves. They are chosen by the timetable before the attempt is made.
pub fn repair_nurses(here: &Situation<'_>, words: &mut RandomWords, attempt: &mut Chain)
    requires { AreMoves here.now.inst.now.draft attempt.old }
    ensures { AreMoves here.now.inst.now.draft attempt.new }
{
    if attempt.is_full() {
        return;
    }
    let mut reliefs = Reliefs::new(MOST - attempt.len());
    for i in 0..attempt.len() {
        if let Some(stay) = new_stay(here, attempt.at(here.inst, i)) {
            look_over(here, words, stay, &mut reliefs);
        }
    }
    add_all(here.inst, &reliefs, attempt);
}
