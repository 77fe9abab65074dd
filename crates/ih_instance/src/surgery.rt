//! Surgeons and operating theatres, with their minutes on each day of the horizon.

ghost use Rattle.std.specs.Prelude.{◌<◌};
ghost use Rattle.ih_instance.specs.Instance.{surgeon, theatre};

use ih_format::reads::Reads;
use ih_format::{FormatError, Row};
use ih_tables::{Key, Surgeon, Theatre};
use std::alloc::Global;

/// The reader of surgeons.
#[derive(Drop)]
pub struct Surgeons {
    pub days: u32,
}

impl Reads for Surgeons {
    type Item = Surgeon;

    ghost reading = { λ r. surgeon r.days };

    #[tactic(auto, unfolding(crate::specs::Instance::surgeon))]
    fn read(&self, alloc: Global, row: Row) -> Result<Surgeon, FormatError> {
        let id = row.id(alloc)?;
        let max_surgery_time = row.vector(alloc, Key::MaxSurgeryTime, self.days as usize, 100_000)?;
        Ok(Surgeon {
            id,
            max_surgery_time,
        })
    }
}

/// The reader of operating theatres.
#[derive(Drop)]
pub struct Theatres {
    pub days: u32,
}

impl Reads for Theatres {
    type Item = Theatre;

    ghost reading = { λ r. theatre r.days };

    #[tactic(auto, unfolding(crate::specs::Instance::theatre))]
    fn read(&self, alloc: Global, row: Row) -> Result<Theatre, FormatError> {
        let id = row.id(alloc)?;
        let availability = row.vector(alloc, Key::Availability, self.days as usize, 100_000)?;
        Ok(Theatre { id, availability })
    }
}
