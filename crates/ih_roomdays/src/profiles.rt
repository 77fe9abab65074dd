//! What is asked of persons who are together, in tables by person: an instance's own records lie far apart.

ghost use Rattle.std.specs.Prelude.{◌≡◌, ◌<◌, IfOk, length};
ghost use Rattle.std.specs.Str.{bytes_eq};
ghost use Rattle.ih_tables.specs.declared.drafts.Draft.{Draft};
ghost use Rattle.ih_plan.specs.Persons.{person_of};
ghost use Rattle.ih_roomdays.specs.Profiles.{AreAges, AreInRange, AreProfiles, most_persons, profile_of};

use crate::genders::gender_numbers;
use ih_plan::age_group;
use ih_tables::Instance;
use std::alloc::{AllocError, Global};

/// The genders and the ages of the persons.
#[derive(Drop)]
pub struct Profiles {
    /// A number of each person's gender: persons who are together are of one gender where they have one number.
    pub genders: Vec<u32>,
    /// Each person's age group.
    pub ages: Vec<u32>,
}

/// The profile of one person.
#[derive(Clone, Copy)]
pub struct Profile {
    /// The number of the gender.
    pub gender: u32,
    /// The age group.
    pub age: u32,
}

impl Profiles {
    /// The profile of a person.
    #[inline(always)]
    pub fn of(&self, person: u32) -> Profile
        requires profiles { AreInRange (length self.now.genders.items) self.now }
        requires person { person < length self.now.genders.items }
        ensures value { result ≡ profile_of self.now person }
        ensures gender { result.gender < most_persons }
        ensures age { result.age < 64 }
    {
        Profile {
            gender: self.genders[person as usize],
            age: self.ages[person as usize],
        }
    }

    /// Whether two persons have one gender.
    #[inline(always)]
    pub fn same_gender(&self, person: u32, other: u32) -> bool
        requires first { person < length self.now.genders.items }
        requires second { other < length self.now.genders.items }
        ensures { (I : Draft) → AreProfiles I self.now
            → result ≡ bytes_eq (person_of I person).gender (person_of I other).gender }
    {
        let genders = self.genders.as_slice();
        genders[person as usize] == genders[other as usize]
    }
}

fn age_groups(alloc: Global, inst: &Instance) -> Result<Vec<u32>, AllocError>
    ensures { IfOk result (λ ages. AreAges inst.now.draft ages.items) }
{
    let mut ages = Vec::new(alloc);
    for x in 0..inst.persons() {
        ages.push(age_group(inst, x))?;
    }
    Ok(ages)
}

/// The profiles of the instance's persons.
pub fn profiles_of(alloc: Global, inst: &Instance) -> Result<Profiles, AllocError>
    ensures { IfOk result (AreProfiles inst.now.draft) }
{
    let genders = gender_numbers(alloc, inst)?;
    let ages = age_groups(alloc, inst)?;
    Ok(Profiles { genders, ages })
}
