//! Who tells which persons are in a room on a day.

ghost use Rattle.std.specs.Prelude.{◌≡◌, ◌<◌, ℕ, List, length, slice_index};

use ih_tables::{Day, PersonNo, RoomNo};

/// The persons present in each room on each day, each once, in any order.
pub trait Members {
    // How many rooms and days there are, and the persons of each.
    ghost rooms: { Self → ℕ };

    ghost days: { Self → ℕ };

    ghost persons: { Self → ℕ → ℕ → List ℕ };

    /// How many persons are in a room on a day.
    fn count(&self, room: RoomNo, day: Day) -> u32
        requires room { room.0 < rooms self.now }
        requires day { day.0 < days self.now }
        ensures { result ≡ length (persons self.now room.0 day.0) };

    /// The one at an index of their list, from 0.
    fn member(&self, room: RoomNo, day: Day, index: u32) -> PersonNo
        requires room { room.0 < rooms self.now }
        requires day { day.0 < days self.now }
        requires place { index < length (persons self.now room.0 day.0) }
        ensures { result.0 ≡ slice_index (persons self.now room.0 day.0) index };
}
