//! A room on a day, and who is there when an attempt is made.

ghost use Rattle.std.specs.Prelude.{◌<◌, length};
ghost use Rattle.ih_tables.specs.Sizes.{person_count};
ghost use Rattle.ih_plan.specs.Timetable.{Timetable};
ghost use Rattle.ih_roomdays.specs.{Ledger.IsLedgerOf, RoomLists.persons_at};
ghost use Rattle.ih_proposals.specs.RoomDays.{IsRoomDay};

use ih_plan::Members;
use ih_roomdays::RoomDays;
use ih_tables::{Day, Instance, PersonNo, RoomNo};

/// A room on a day.
#[derive(Clone, Copy)]
pub struct RoomDay {
    pub room: RoomNo,
    pub day: Day,
}

/// The person at an index of the list of those who are there.
#[inline(always)]
pub fn person_at(inst: &Instance, rooms: &RoomDays, there: RoomDay, index: u32) -> PersonNo
    requires stands { (P : Timetable) × IsLedgerOf inst.now.draft P rooms.now }
    requires there { IsRoomDay inst.now.draft there }
    requires place { index < length (persons_at rooms.now there.room.0 there.day.0) }
    ensures { result.0 < person_count inst.now.draft }
{
    rooms.member(there.room, there.day, index)
}
