//! The nurse who is cheapest in a shift.

ghost use Rattle.std.specs.Prelude.{◌<◌, IfSome};
ghost use Rattle.ih_tables.specs.Sizes.{nurse_count, room_count, shift_count};
ghost use Rattle.ih_plan.specs.{Expand.IsMoveOf};
ghost use Rattle.ih_proposals.specs.Moments.{IsMoment};

use crate::moments::{Moment, draw_moment};
use crate::nurses::{count_working, working_at};
use crate::situation::Situation;
use crate::stays::cyclic;
use crate::words::RandomWords;
use ih_plan::{Move, Write};
use ih_tables::bill_numbers::UNCOVERED_ROOM;
use ih_tables::{NurseNo, RoomNo, Shift};

/// What the nurse would add to the score in a shift of a room; the greatest number where the room has the nurse already.
pub fn value_of(here: &Situation<'_>, room: RoomNo, shift: Shift, nurse: NurseNo) -> i64
    requires room { room.0 < room_count here.now.inst.now.draft }
    requires shift { shift.0 < shift_count here.now.inst.now.draft }
    requires nurse { nurse.0 < nurse_count here.now.inst.now.draft }
{
    if here.nurse(room, shift) == Some(nurse) {
        return i64::MAX;
    }
    here.score_of_care(
        &here
            .ledgers
            .price_write(&Write::SetCare(room, shift, Some(nurse))),
    )
}

/// What it would add to the score if the room's nurse left a shift and nobody missed one there. It takes away all that
/// the nurse costs, so any other who works the shift adds as much or more.
pub fn value_of_nobody(here: &Situation<'_>, room: RoomNo, shift: Shift) -> i64
    requires room { room.0 < room_count here.now.inst.now.draft }
    requires shift { shift.0 < shift_count here.now.inst.now.draft }
{
    let mut change = here.ledgers.price_write(&Write::SetCare(room, shift, None));
    change.v[UNCOVERED_ROOM] = 0;
    here.score_of_care(&change)
}

// The nurse, other than the one there, who adds least to the score: the first of equal ones, cyclically from a random
// one on.
fn cheapest_other(here: &Situation<'_>, at: Moment, words: &mut RandomWords) -> Option<NurseNo>
    requires { IsMoment here.now.inst.now.draft at }
    ensures { IfSome result (λ n. n.0 < nurse_count here.now.inst.now.draft) }
{
    let shift = Shift(at.shift);
    let count = count_working(here.inst, shift);
    if count == 0 {
        return None;
    }
    let first = words.below(count);
    let mut best = working_at(here.inst, shift, first as usize);
    let mut least = i64::MAX;
    for i in 0..count {
        let nurse = working_at(here.inst, shift, cyclic(first, i, count) as usize);
        let value = value_of(here, at.days.room, shift, nurse);
        if value < least {
            least = value;
            best = nurse;
        }
    }
    if least < i64::MAX { Some(best) } else { None }
}

/// A move: in a shift of a person's stay, by random words, its room gets the cheapest other nurse who works it.
pub fn cheapest_nurse(here: &Situation<'_>, words: &mut RandomWords) -> Option<Move>
    ensures { IfSome result (IsMoveOf here.now.inst.now.draft) }
{
    let at = draw_moment(here, words)?;
    let nurse = cheapest_other(here, at, words)?;
    Some(Move::Nurse(at.days.room, Shift(at.shift), nurse))
}
