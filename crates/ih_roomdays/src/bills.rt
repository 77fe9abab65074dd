//! The part of the bill of a room on a day, and its change.

ghost use Rattle.std.specs.Prelude.{◌≡◌, ◌^◌};
ghost use Rattle.ih_tables.specs.Bills.{IsWithin, sub_bills};
ghost use Rattle.ih_plan.specs.BillOf.{as_bill};
ghost use Rattle.ih_roomdays.specs.Parts.{room_day_part};

use ih_plan::{bit, increase};
use ih_tables::Bill;
use ih_tables::bill_numbers::{MIXED_AGE, MIXED_GENDER, ROOM_CAPACITY};

/// What a room breaks and costs on a day.
#[derive(Clone, Copy)]
pub struct RoomDayCounts {
    /// Two genders are in the room.
    pub mixed: bool,
    /// Persons above the room's capacity.
    pub over: u32,
    /// The greatest age group less the least.
    pub spread: u32,
}

/// The bill with these numbers alone.
pub fn room_day_bill(counts: RoomDayCounts) -> Bill
    ensures value { result ≡ as_bill (room_day_part counts) }
    ensures within { IsWithin (10 ^ 11) result }
{
    let mut bill = Bill::zero();
    bill.v[MIXED_GENDER] = bit(counts.mixed) as i64;
    bill.v[ROOM_CAPACITY] = counts.over as i64;
    bill.s[MIXED_AGE] = counts.spread as i64;
    bill
}

/// The bill of the new numbers less that of the old ones.
pub fn room_day_change(new: RoomDayCounts, old: RoomDayCounts) -> Bill
    ensures value { result ≡ sub_bills (as_bill (room_day_part new)) (as_bill (room_day_part old)) }
    ensures within { IsWithin (10 ^ 11) result }
{
    let mixed = increase(bit(new.mixed), bit(old.mixed));
    let mut bill = Bill::zero();
    bill.v[MIXED_GENDER] = mixed;
    bill.v[ROOM_CAPACITY] = increase(new.over, old.over);
    bill.s[MIXED_AGE] = increase(new.spread, old.spread);
    bill
}
