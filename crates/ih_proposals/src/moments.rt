//! The shifts in which a person needs care, by random words: with them each kind that changes nurses begins.

ghost use Rattle.std.specs.Prelude.{◌<◌, IfSome};
ghost use Rattle.ih_tables.specs.Sizes.{person_count};
ghost use Rattle.ih_proposals.specs.Moments.{AreDays, IsMoment};

use crate::situation::Situation;
use crate::words::RandomWords;
use ih_plan::{end_from, end_of};
use ih_tables::{PatientNo, RoomNo};

/// A person's stay: the room, and its days from one on and before another.
#[derive(Clone, Copy)]
pub struct StayDays {
    pub room: RoomNo,
    pub from: u32,
    pub to: u32,
}

/// A person's stay, and one of its shifts.
#[derive(Clone, Copy)]
pub struct Moment {
    pub days: StayDays,
    pub shift: u32,
}

// The stay of a person, where it has one.
fn days_of(here: &Situation<'_>, person: u32) -> Option<StayDays>
    requires { person < person_count here.now.inst.now.draft }
    ensures { IfSome result (AreDays here.now.inst.now.draft) }
{
    let inst = here.inst;
    let patients = inst.patients();
    if person < patients {
        let at = here.stay(PatientNo(person))?;
        Some(StayDays {
            room: at.room,
            from: at.day.0,
            to: end_of(inst, PatientNo(person), at),
        })
    } else {
        let occupant = inst.occupant(person - patients);
        Some(StayDays {
            room: occupant.room_id,
            from: 0,
            to: end_from(inst, 0, occupant.length_of_stay),
        })
    }
}

/// A shift of a person's stay, both by random words; none where the person isn't admitted.
pub fn draw_moment(here: &Situation<'_>, words: &mut RandomWords) -> Option<Moment>
    ensures { IfSome result (IsMoment here.now.inst.now.draft) }
{
    let persons = here.inst.persons();
    if persons == 0 {
        return None;
    }
    let days = days_of(here, words.below(persons))?;
    if days.to <= days.from {
        return None;
    }
    let shift = 3 * days.from + words.below(3 * (days.to - days.from));
    Some(Moment { days, shift })
}
