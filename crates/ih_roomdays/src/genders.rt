//! Genders as numbers, so that no texts are compared where persons are.

ghost use Rattle.std.specs.Prelude.{◌≡◌, ◌<◌, ℕ, true, false, IfOk};
ghost use Rattle.std.specs.Str.{bytes_eq};
ghost use Rattle.ih_tables.specs.Sizes.{person_count};
ghost use Rattle.ih_plan.specs.Persons.{person_of};
ghost use Rattle.ih_roomdays.specs.Genders.{AreGenders};

use ih_plan::same_gender;
use ih_tables::Instance;
use std::alloc::{AllocError, Global};

// The first person who has the gender of a person.
fn first_alike(inst: &Instance, person: u32) -> u32
    requires { person < person_count inst.now.draft }
    ensures same { bytes_eq (person_of inst.now.draft person).gender (person_of inst.now.draft result).gender ≡ true }
    ensures first { (y : ℕ) → y < result
        → bytes_eq (person_of inst.now.draft person).gender (person_of inst.now.draft y).gender ≡ false }
{
    for y in 0..person {
        if same_gender(inst, person, y) {
            return y;
        }
    }
    person
}

/// A number of each person's gender: that of the first person who has it.
pub fn gender_numbers(alloc: Global, inst: &Instance) -> Result<Vec<u32>, AllocError>
    ensures { IfOk result (λ numbers. AreGenders inst.now.draft numbers.items) }
{
    let mut numbers = Vec::new(alloc);
    for x in 0..inst.persons() {
        numbers.push(first_alike(inst, x))?;
    }
    Ok(numbers)
}
