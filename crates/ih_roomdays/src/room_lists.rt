//! Lists of who is in which room on which day.

ghost use Rattle.std.specs.Prelude.{◌≡◌, ℕ, ◌*◌, ◌^◌, ◌<◌, ◌≤◌, ◌==◌, false, IfOk};
ghost use Rattle.ih_roomdays.specs.Profiles.{AreInRange, most_persons};
ghost use Rattle.ih_roomdays.specs.RoomLists.{AreVacant, HasSpan, IsEntered, IsLeft, is_at};

use crate::occupancies::{Crowd, NOBODY, crowd_of};
use crate::profiles::Profiles;
use ih_links::{CompactLinks, empty_days};
use std::alloc::{AllocError, Global};

/// For each day the persons in each room, and a summary of them.
#[derive(Drop)]
pub struct RoomLists {
    /// For each day a list for each room; its nodes are the persons.
    pub links: Vec<CompactLinks>,
    pub rooms: u32,
    pub days: u32,
    pub persons: u32,
    pub profiles: Profiles,
    /// The summary of each list's persons: those of room 0 first, rising by day.
    pub crowds: Vec<Crowd>,
}

impl RoomLists {
    /// Nobody is in any room.
    pub fn new(
        alloc: Global,
        rooms: u32,
        days: u32,
        persons: u32,
        profiles: Profiles,
    ) -> Result<RoomLists, AllocError>
        requires places { rooms * days < 2 ^ 32 }
        requires few_persons { persons ≤ most_persons }
        requires profiles { AreInRange persons profiles }
        ensures { IfOk result (λ rows. AreVacant rooms days persons profiles rows) }
    {
        let links = empty_days(alloc, days, rooms, persons)?;
        let crowds = vec![in alloc; NOBODY; (rooms * days) as usize]?;
        Ok(RoomLists {
            links,
            rooms,
            days,
            persons,
            profiles,
            crowds,
        })
    }

    /// Brings a person into a room, from one day on and before another.
    pub fn enter(&mut self, room: u32, person: u32, from: u32, to: u32)
        requires span { HasSpan self.old room person from to }
        requires nowhere { (r d : ℕ) → d < self.old.days → is_at self.old r d person ≡ false }
        ensures { IsEntered self.old self.new room person from to }
    {
        let who = self.profiles.of(person);
        for d in from..to {
            let place = (room * self.days + d) as usize;
            self.links[d as usize].push_back(room, person);
            self.crowds[place] = self.crowds[place].with(who);
        }
    }

    /// Takes a person out of the room that it is in, from one day on and before another.
    pub fn leave(&mut self, room: u32, person: u32, from: u32, to: u32)
        requires span { HasSpan self.old room person from to }
        requires there { (r d : ℕ) → from ≤ d → d < to → is_at self.old r d person ≡ (room == r) }
        ensures { IsLeft self.old self.new person from to }
    {
        for d in from..to {
            let place = (room * self.days + d) as usize;
            let day = &mut self.links[d as usize];
            day.remove(person);
            self.crowds[place] = crowd_of(&self.profiles, day, room);
        }
    }
}
