//! Who is in a room: those who are there on some day, and those of them who are there on a given day.

ghost use Rattle.std.specs.Prelude.{◌≡◌};
ghost use Rattle.ih_plan.specs.{Timetable.IsPlanOf, Presence.present};
ghost use Rattle.ih_validate.specs.Members.{residents_of};

use crate::number_lists::NumberList;
use ih_plan::{Plan, is_present, stays_in};
use ih_tables::{Instance, RoomNo};

/// Lists the persons whose room it is.
pub fn list_residents(inst: &Instance, plan: &Plan, room: RoomNo, out: &mut NumberList)
    requires { IsPlanOf inst.now.draft plan.now }
    ensures { out.new ≡ residents_of inst.now.draft plan.now room.0 }
{
    out.list_below(inst.persons(), |x| stays_in(inst, plan, room, x));
}

/// Lists those of a room's persons who are there on the day.
pub fn list_present(
    inst: &Instance,
    plan: &Plan,
    residents: &[u32],
    room: RoomNo,
    day: u32,
    out: &mut NumberList,
)
    requires plan { IsPlanOf inst.now.draft plan.now }
    requires residents { residents.now ≡ residents_of inst.now.draft plan.now room.0 }
    ensures { out.new ≡ present inst.now.draft plan.now room.0 day }
{
    out.list_among(residents, |x| is_present(inst, plan, room, day, x));
}
