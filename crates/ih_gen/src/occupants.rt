//! The occupants.

ghost use Rattle.std.specs.Prelude.{map};
ghost use Rattle.serde_json.specs.{Data.object, View.view};
ghost use Rattle.ih_gen.specs.Generated.{occupant_members, occupant_data, occupant_words};
ghost use Rattle.ih_gen.specs.Members.{IsMade};

use crate::members::with_member;
use crate::names::{Made, id_value};
use crate::persons::{Needs, PersonPicks, person_value, pick_needs, pick_person};
use crate::picks::Picks;
use crate::rows::Makes;
use std::alloc::Global;

// The occupant of the room of the same number, with these picks.
fn picked_value(alloc: Global, number: u32, picked: &PersonPicks, needs: Needs) -> Made
    ensures { IsMade (object
        (occupant_members number picked.now (map view needs.skills.items) (map view needs.workloads.items))) result }
{
    let person = person_value(alloc, "a", number, picked, needs)?;
    let room = id_value(alloc, "r", number)?;
    with_member(alloc, person, "room_id", room)
}

/// Occupants of the rooms of the same numbers.
pub struct Occupants;

impl Makes for Occupants {
    ghost thing = { λ _. occupant_data };

    ghost words = { λ _. occupant_words };

    #[tactic(auto, using(crate::proofs::Streams::stream_steps))]
    fn make_item(&self, alloc: Global, picks: &mut Picks, number: u32) -> Made {
        let picked = pick_person(picks, 5);
        let needs = pick_needs(alloc, picks, 3 * picked.length_of_stay)?;
        picked_value(alloc, number, &picked, needs)
    }
}
