//! Who is in each room on each day: lists of persons, entered and left day by day.

ghost use Rattle.std.specs.Prelude.{◌≡◌, ◌<◌, ◌≤◌, ℕ, ◌||◌, ◌&&◌, ◌==◌, not, true, false};
ghost use Rattle.ih_tables.specs.Sizes.{person_count, room_count};
ghost use Rattle.ih_plan.specs.Presence.{in_span};
ghost use Rattle.ih_nurses.specs.Here.{AreSized, is_here};

use ih_links::CompactLinks;
use ih_tables::{Instance, RoomNo};

// Lists a person in a room on a day.
fn enter_day(inst: &Instance, here: &mut [CompactLinks], room: RoomNo, day: u32, person: u32)
    requires sized { AreSized inst.now.draft here.old }
    requires room { room.0 < room_count inst.now.draft }
    requires day { day < inst.now.draft.days }
    requires person { person < person_count inst.now.draft }
    requires free { (r : ℕ) → r < room_count inst.now.draft → is_here here.old r day person ≡ false }
    ensures sized { AreSized inst.now.draft here.new }
    ensures each { (r d y : ℕ) → is_here here.new r d y
        ≡ (is_here here.old r d y || ((room.0 == r) && ((day == d) && (person == y)))) }
{
    here[day as usize].push_back(room.0, person);
}

/// Lists a person in a room from day `from` on and before day `to`.
pub fn enter_days(
    inst: &Instance,
    here: &mut [CompactLinks],
    room: RoomNo,
    from: u32,
    to: u32,
    person: u32,
)
    requires sized { AreSized inst.now.draft here.old }
    requires room { room.0 < room_count inst.now.draft }
    requires order { from ≤ to }
    requires days { to ≤ inst.now.draft.days }
    requires person { person < person_count inst.now.draft }
    requires free { (r d : ℕ) → r < room_count inst.now.draft → d < inst.now.draft.days
        → is_here here.old r d person ≡ false }
    ensures sized { AreSized inst.now.draft here.new }
    ensures each { (r d y : ℕ) → is_here here.new r d y
        ≡ (is_here here.old r d y || ((room.0 == r) && (in_span from to d && (person == y)))) }
{
    for d in from..to {
        enter_day(inst, here, room, d, person);
    }
}

// Takes a person out of the lists of a day.
fn leave_day(inst: &Instance, here: &mut [CompactLinks], room: RoomNo, day: u32, person: u32)
    requires sized { AreSized inst.now.draft here.old }
    requires day { day < inst.now.draft.days }
    requires person { person < person_count inst.now.draft }
    requires there { is_here here.old room.0 day person ≡ true }
    ensures sized { AreSized inst.now.draft here.new }
    ensures each { (r d y : ℕ)
        → is_here here.new r d y ≡ (is_here here.old r d y && not ((day == d) && (person == y))) }
{
    here[day as usize].remove(person);
}

/// Takes a person, who is in a room on these days, out of their lists.
pub fn leave_days(
    inst: &Instance,
    here: &mut [CompactLinks],
    room: RoomNo,
    from: u32,
    to: u32,
    person: u32,
)
    requires sized { AreSized inst.now.draft here.old }
    requires order { from ≤ to }
    requires days { to ≤ inst.now.draft.days }
    requires person { person < person_count inst.now.draft }
    requires there { (d : ℕ) → in_span from to d ≡ true → is_here here.old room.0 d person ≡ true }
    ensures sized { AreSized inst.now.draft here.new }
    ensures each { (r d y : ℕ) → is_here here.new r d y
        ≡ (is_here here.old r d y && not (in_span from to d && (person == y))) }
{
    for d in from..to {
        leave_day(inst, here, room, d, person);
    }
}
