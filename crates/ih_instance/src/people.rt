//! The lists of people, whose items refer to lists that were read before.

ghost use Rattle.std.specs.Prelude.{◌<◌, ◌≤◌, ◌^◌, length};
ghost use Rattle.serde_json.specs.View.{view};
ghost use Rattle.ih_tables.specs.Lookups.{IsIndexOf};
ghost use Rattle.ih_format.specs.{Gives.Gives, Checks.named, Checks.under};
ghost use Rattle.ih_instance.specs.Instance.{nurses, occupants, patients, names_of_rooms, names_of_surgeons};

use crate::nurses::Nurses;
use crate::occupants::Occupants;
use crate::patients::Patients;
use ih_format::FormatError;
use ih_format::reads::{self, Reads};
use ih_tables::{Key, List, Name, Names, Nurse, Occupant, Patient, Place, Room, Surgeon};
use serde_json::Value;
use std::alloc::Global;

/// Where people are read: an object with lists of them, and what they refer to.
#[derive(Drop)]
pub struct People<'a> {
    pub alloc: Global,
    pub object: &'a Value,
    pub at: Place,
    pub days: u32,
    pub types: &'a (List<Name>, Names),
    pub groups: &'a (List<Name>, Names),
    pub surgeons: &'a (List<Surgeon>, Names),
    pub rooms: &'a (List<Room>, Names),
    pub ghost least: { 1 ≤ days },
    pub ghost most: { days ≤ 56 },
    pub ghost few: { length types.now.0 ≤ 3 },
    pub ghost types_by_name: { IsIndexOf types.now.1 types.now.0 },
    pub ghost groups_by_name: { IsIndexOf groups.now.1 groups.now.0 },
    pub ghost surgeons_by_name: { IsIndexOf surgeons.now.1 (names_of_surgeons surgeons.now.0) },
    pub ghost rooms_by_name: { IsIndexOf rooms.now.1 (names_of_rooms rooms.now.0) },
}

impl<'a> People<'a> {
    // The list under a key.
    fn listed<R: Reads>(
        &self,
        reader: &R,
        key: Key,
        high: usize,
    ) -> Result<List<R::Item>, FormatError>
        requires { high < 2 ^ 32 }
        ensures { Gives (λ x. x) result (under self.now.at (view self.now.object.now) key
            (named 0 high R.Item.id (R.reading reader.now))) }
    {
        reads::items_under(self.alloc, reader, self.object, key, high, self.at)
    }

    /// The nurses, at most 512, in the order of the file. Their shifts are within the horizon.
    ///
    /// # Errors
    /// The first refusal of the list, or that memory ran out.
    pub fn nurses(&self) -> Result<List<Nurse>, FormatError>
        ensures { Gives (λ xs. xs) result
            (under self.now.at (view self.now.object.now) Key.Nurses (nurses self.now.days self.now.types.now.0)) }
    {
        let reader = Nurses {
            days: self.days,
            types: &self.types.1,
        };
        self.listed(&reader, Key::Nurses, 512)
    }

    /// The occupants, at most 512, in the order of the file. Their rooms and age groups are numbers in lists that were
    /// read before.
    ///
    /// # Errors
    /// The first refusal of the list, or that memory ran out.
    pub fn occupants(&self) -> Result<List<Occupant>, FormatError>
        ensures { Gives (λ xs. xs) result (under self.now.at (view self.now.object.now) Key.Occupants
            (occupants self.now.days self.now.groups.now.0 self.now.rooms.now.0)) }
    {
        let reader = Occupants {
            days: self.days,
            groups: &self.groups.1,
            rooms: &self.rooms.1,
        };
        self.listed(&reader, Key::Occupants, 512)
    }

    /// The patients, at most 2048, in the order of the file. Their rooms, surgeons and age groups are numbers in lists
    /// that were read before.
    ///
    /// # Errors
    /// The first refusal of the list, or that memory ran out.
    pub fn patients(&self) -> Result<List<Patient>, FormatError>
        ensures { Gives (λ xs. xs) result (under self.now.at (view self.now.object.now) Key.Patients
            (patients self.now.days self.now.groups.now.0 self.now.surgeons.now.0 self.now.rooms.now.0)) }
    {
        let reader = Patients {
            days: self.days,
            groups: &self.groups.1,
            surgeons: &self.surgeons.1,
            rooms: &self.rooms.1,
        };
        self.listed(&reader, Key::Patients, 2048)
    }
}
