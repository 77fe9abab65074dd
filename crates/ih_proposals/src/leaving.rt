//! Who has to leave a room so that a patient may come.

ghost use Rattle.std.specs.Prelude.{◌<◌};
ghost use Rattle.ih_proposals.specs.{Arrivals.IsArrival, RoomDays.IsRoomDay};

use crate::arrivals::{Arrival, Exit};
use crate::room_days::{RoomDay, person_at};
use crate::situation::Situation;
use crate::words::RandomWords;
use ih_moves::Chain;
use ih_plan::Members;
use ih_tables::{Day, PersonNo};

/// Who has to leave.
pub enum Leaving {
    /// Nobody has to.
    Nobody,
    /// This person, or another one in its place.
    One(PersonNo),
    /// More than are there.
    TooMany,
}

// How many persons of the room on the day the attempt moves.
fn count_moved(here: &Situation<'_>, there: RoomDay, attempt: &Chain) -> u32
    requires { IsRoomDay here.now.inst.now.draft there }
{
    let rooms = here.room_days();
    let mut moved = 0;
    for i in 0..rooms.count(there.room, there.day) {
        if attempt.moves_person(person_at(here.inst, rooms, there, i)) {
            moved += 1;
        }
    }
    moved
}

// How many come to the patient's room on the day: the patient alone or, where two rooms exchange persons, all of the
// other room whom the attempt moves.
fn count_coming(here: &Situation<'_>, arrival: Arrival, day: Day, attempt: &Chain) -> u32
    requires arrival { IsArrival here.now.inst.now.draft arrival }
    requires day { day.0 < here.now.inst.now.draft.days }
{
    match arrival.exit {
        Exit::Out => 1,
        Exit::To(room) => count_moved(here, RoomDay { room, day }, attempt),
    }
}

/// Who of the patient's room on a day, other than those whom the attempt moves, has to leave: a person of another
/// gender or, where the room would have more persons than beds, one by random words.
pub fn one_to_leave(
    here: &Situation<'_>,
    words: &mut RandomWords,
    arrival: Arrival,
    day: Day,
    attempt: &Chain,
) -> Leaving
    requires arrival { IsArrival here.now.inst.now.draft arrival }
    requires day { day.0 < here.now.inst.now.draft.days }
{
    let room = arrival.at.room;
    let rooms = here.room_days();
    let mut drawn = None;
    let mut staying = 0;
    for i in 0..rooms.count(room, day) {
        let x = person_at(here.inst, rooms, RoomDay { room, day }, i);
        if !attempt.moves_person(x) {
            if !rooms.same_gender(PersonNo(arrival.patient.0), x) {
                return Leaving::One(x);
            }
            staying += 1;
            if words.below(staying) == 0 {
                drawn = Some(x);
            }
        }
    }
    let coming = count_coming(here, arrival, day, attempt);
    if staying as u64 + coming as u64 <= here.inst.room(room).capacity as u64 {
        return Leaving::Nobody;
    }
    match drawn {
        Some(x) => Leaving::One(x),
        None => Leaving::TooMany,
    }
}
