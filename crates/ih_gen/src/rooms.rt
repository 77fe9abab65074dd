//! The rooms.

ghost use Rattle.ih_gen.specs.Generated.{room_data, room_words};

use crate::names::{Made, id_value};
use crate::picks::Picks;
use crate::rows::Makes;
use serde_json::json;
use std::alloc::Global;

/// Rooms for 1 to 3 persons.
pub struct Rooms;

impl Makes for Rooms {
    ghost thing = { λ _. room_data };

    ghost words = { λ _. room_words };

    fn make_item(&self, alloc: Global, picks: &mut Picks, room: u32) -> Made {
        let capacity = 1 + picks.pick(3);
        let id = id_value(alloc, "r", room)?;
        json!(in alloc; {"capacity": capacity, "id": id})
    }
}
