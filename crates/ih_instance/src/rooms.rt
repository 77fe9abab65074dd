//! Rooms.

ghost use Rattle.ih_instance.specs.Instance.{room};

use ih_format::reads::Reads;
use ih_format::{FormatError, Row, keys};
use ih_tables::{Key, Room};
use std::alloc::Global;

/// The reader of rooms.
#[derive(Drop)]
pub struct Rooms;

impl Reads for Rooms {
    type Item = Room;

    ghost reading = { λ _. room };

    #[tactic(auto, unfolding(crate::specs::Instance::room))]
    fn read(&self, alloc: Global, row: Row) -> Result<Room, FormatError> {
        let id = row.id(alloc)?;
        let capacity = keys::number(row.value, Key::Capacity, 0, 1000, row.at)?;
        Ok(Room { id, capacity })
    }
}
