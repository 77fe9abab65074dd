//! A summary of the persons in a room on a day, from which what they cost is computed without going over them.

ghost use Rattle.std.specs.Prelude.{◌≡◌, ℕ, ◌-◌, ◌*◌, ◌<◌, ◌≤◌, ◌∷◌, ◌++◌, [], true, List, length};
ghost use Rattle.ih_tables.specs.declared.drafts.Draft.{Draft};
ghost use Rattle.ih_plan.specs.Costs.{genders_differ, age_spread};
ghost use Rattle.ih_links.specs.Lists.{IsOnce, has, list_of, without};
ghost use Rattle.ih_roomdays.specs.declared.profiles.Profiles.{Profiles};
ghost use Rattle.ih_roomdays.specs.Occupancy.{IsOccupancy, IsCrowd, IsSmall};
ghost use Rattle.ih_roomdays.specs.Profiles.{AreInRange, AreProfiles, ArePersons, most_persons, profile_of};

use crate::profiles::{Profile, Profiles};
use ih_links::CompactLinks;

/// A summary of persons who are together: what they break and cost follows from it.
#[derive(Clone, Copy)]
pub struct Occupancy {
    /// The bits of their age groups.
    pub ages: u64,
    /// The sum of the squares of their gender numbers.
    pub squares: u64,
    /// The sum of their gender numbers.
    pub genders: u32,
    /// How many they are.
    pub count: u32,
}

/// A summary from which one person can be taken off. A room and a day have 32 bytes of it.
#[derive(Clone, Copy)]
pub struct Crowd {
    pub occupancy: Occupancy,
    /// The bits of the age groups that two of them or more are in.
    pub twice: u64,
}

/// The summary of nobody.
pub const NOBODY: Crowd = Crowd {
    occupancy: Occupancy {
        ages: 0,
        squares: 0,
        genders: 0,
        count: 0,
    },
    twice: 0,
};

// The number times itself.
fn square(number: u32) -> u64
    ensures { result ≡ number * number }
{
    number as u64 * number as u64
}

impl Occupancy {
    /// With one person more.
    #[inline(always)]
    pub fn with(self, who: Profile) -> Occupancy
        requires small { IsSmall self }
        requires gender { who.gender < most_persons }
        requires age { who.age < 64 }
        ensures { (p : Profiles) (xs : List ℕ) (x : ℕ) → who ≡ profile_of p x → IsOccupancy p xs self
            → IsOccupancy p (xs ++ x ∷ []) result }
    {
        Occupancy {
            ages: self.ages | 1u64 << who.age,
            squares: self.squares + square(who.gender),
            genders: self.genders + who.gender,
            count: self.count + 1,
        }
    }

    /// Whether two of them have different genders. Numbers are all equal exactly where so many times the sum of their
    /// squares is the square of their sum.
    #[inline(always)]
    pub fn is_mixed(self) -> bool
        requires small { IsSmall self }
        ensures { (I : Draft) (p : Profiles) (xs : List ℕ) → AreProfiles I p → ArePersons I xs
            → IsOccupancy p xs self → result ≡ genders_differ I xs }
    {
        self.count as u64 * self.squares != square(self.genders)
    }

    /// The greatest of their age groups less the least.
    #[inline(always)]
    pub fn spread(self) -> u32
        ensures { (I : Draft) (p : Profiles) (xs : List ℕ) → AreProfiles I p → ArePersons I xs
            → IsOccupancy p xs self → result ≡ age_spread I xs }
    {
        if self.ages == 0 {
            0
        } else {
            63 - self.ages.leading_zeros() - self.ages.trailing_zeros()
        }
    }
}

impl Crowd {
    /// With one person more.
    #[inline(always)]
    pub fn with(self, who: Profile) -> Crowd
        requires small { IsSmall self.occupancy }
        requires gender { who.gender < most_persons }
        requires age { who.age < 64 }
        ensures { (p : Profiles) (xs : List ℕ) (x : ℕ) → who ≡ profile_of p x → IsCrowd p xs self
            → IsCrowd p (xs ++ x ∷ []) result }
    {
        Crowd {
            occupancy: self.occupancy.with(who),
            twice: self.twice | self.occupancy.ages & 1u64 << who.age,
        }
    }

    /// Without one of them.
    #[inline(always)]
    pub fn without(self, who: Profile) -> Occupancy
        requires some { 0 < self.occupancy.count }
        requires genders { who.gender ≤ self.occupancy.genders }
        requires squares { who.gender * who.gender ≤ self.occupancy.squares }
        requires age { who.age < 64 }
        ensures { (p : Profiles) (xs : List ℕ) (x : ℕ) → who ≡ profile_of p x → IsCrowd p xs self
            → IsOnce xs → has x xs ≡ true → IsOccupancy p (without x xs) result }
    {
        // Its age group stays where somebody else is in it too.
        Occupancy {
            ages: self.occupancy.ages & (self.twice | !(1u64 << who.age)),
            squares: self.occupancy.squares - square(who.gender),
            genders: self.occupancy.genders - who.gender,
            count: self.occupancy.count - 1,
        }
    }
}

/// The summary of the persons in a room, by a day's lists.
pub fn crowd_of(profiles: &Profiles, lists: &CompactLinks, room: u32) -> Crowd
    requires profiles { AreInRange (length profiles.now.genders.items) profiles.now }
    requires room { room < length lists.now.lists }
    requires persons { lists.now.nodes ≡ length profiles.now.genders.items }
    requires few { length (list_of lists.now room) ≤ most_persons }
    ensures { IsCrowd profiles.now (list_of lists.now room) result }
{
    let mut crowd = NOBODY;
    let mut at = lists.first(room);
    while let Some(x) = at {
        crowd = crowd.with(profiles.of(x));
        at = lists.next(x);
    }
    crowd
}
