//! The nurses of two rooms exchanged over a person's stay.

ghost use Rattle.std.specs.Prelude.{◌<◌, IfSome};
ghost use Rattle.ih_tables.specs.Sizes.{nurse_count, room_count, shift_count};
ghost use Rattle.ih_plan.specs.{Expand.IsMoveOf, Series.AreMoves};
ghost use Rattle.ih_proposals.specs.Pairs.{IsPair};

use crate::moments::draw_moment;
use crate::situation::Situation;
use crate::words::RandomWords;
use ih_moves::Chain;
use ih_plan::Move;
use ih_tables::{NurseNo, RoomNo, Shift};

// Two rooms, each with its nurse.
#[derive(Clone, Copy)]
struct Pair {
    room: RoomNo,
    nurse: NurseNo,
    other_room: RoomNo,
    other_nurse: NurseNo,
}

// The two rooms with their nurses in a shift, where each has one and they differ.
fn pair_at(here: &Situation<'_>, room: RoomNo, other_room: RoomNo, shift: Shift) -> Option<Pair>
    requires room { room.0 < room_count here.now.inst.now.draft }
    requires other { other_room.0 < room_count here.now.inst.now.draft }
    requires shift { shift.0 < shift_count here.now.inst.now.draft }
    ensures { IfSome result (IsPair here.now.inst.now.draft) }
{
    let nurse = here.nurse(room, shift)?;
    let other_nurse = here.nurse(other_room, shift)?;
    if nurse == other_nurse {
        return None;
    }
    Some(Pair {
        room,
        nurse,
        other_room,
        other_nurse,
    })
}

// What puts the other nurse into the room in a shift in which the room has its nurse: the rooms exchange them where the
// other room has the other nurse, and otherwise that nurse comes too, if the nurse works the shift.
fn exchange_at(here: &Situation<'_>, pair: Pair, shift: Shift) -> Option<Move>
    requires pair { IsPair here.now.inst.now.draft pair }
    requires shift { shift.0 < shift_count here.now.inst.now.draft }
    ensures { IfSome result (IsMoveOf here.now.inst.now.draft) }
{
    if here.nurse(pair.room, shift) != Some(pair.nurse) {
        return None;
    }
    if here.nurse(pair.other_room, shift) == Some(pair.other_nurse) {
        Some(Move::SwapNurses(shift, pair.room, pair.other_room))
    } else if here.inst.works(pair.other_nurse, shift).is_some() {
        Some(Move::Nurse(pair.room, shift, pair.other_nurse))
    } else {
        None
    }
}

/// Up to eight moves: over a person's stay, by random words, the nurse of another room takes the place of the room's
/// own nurse, and where both are there in one shift they exchange their rooms.
pub fn nurse_swap(here: &Situation<'_>, words: &mut RandomWords, attempt: &mut Chain)
    requires { AreMoves here.now.inst.now.draft attempt.old }
    ensures { AreMoves here.now.inst.now.draft attempt.new }
{
    let Some(at) = draw_moment(here, words) else {
        return;
    };
    let other = RoomNo(words.below(here.inst.rooms()));
    let Some(pair) = pair_at(here, at.days.room, other, Shift(at.shift)) else {
        return;
    };
    for k in 3 * at.days.from..3 * at.days.to {
        if let Some(mv) = exchange_at(here, pair, Shift(k)) {
            attempt.add(here.inst, mv);
        }
    }
}
