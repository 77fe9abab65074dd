//! What the persons who are in a room on a day cost.

ghost use Rattle.std.specs.Prelude.{◌≡◌, ◌<◌, ◌≤◌, not, All};
ghost use Rattle.std.specs.{List.list_any, Str.bytes_eq};
ghost use Rattle.ih_tables.specs.Sizes.{person_count};
ghost use Rattle.ih_plan.specs.{Persons.person_of, Costs.genders_differ, Costs.age_spread, Sums.lower};

use ih_plan::{age_group, same_gender};
use ih_tables::Instance;

fn differs(inst: &Instance, person: u32, others: &[u32]) -> bool
    requires person { person < person_count inst.now.draft }
    requires others { All (λ y. y < person_count inst.now.draft) others.now }
    ensures { result ≡ list_any
        (λ y. not (bytes_eq (person_of inst.now.draft person).gender (person_of inst.now.draft y).gender)) others.now }
{
    for y in others {
        if !same_gender(inst, person, *y) {
            return true;
        }
    }
    false
}

/// Whether two of the persons have different genders.
pub fn genders_differ(inst: &Instance, here: &[u32]) -> bool
    requires { All (λ y. y < person_count inst.now.draft) here.now }
    ensures { result ≡ genders_differ inst.now.draft here.now }
{
    match here {
        [] => false,
        [first, others @ ..] => differs(inst, *first, others),
    }
}

fn lower(found: bool, low: u32, age: u32) -> u32
    ensures { result ≡ lower found low age }
{
    if found { low.min(age) } else { age }
}

/// Oldest minus youngest age group of those who are here. 0 if nobody is.
pub fn age_spread(inst: &Instance, here: &[u32]) -> u64
    requires { All (λ y. y < person_count inst.now.draft) here.now }
    ensures value { result ≡ age_spread inst.now.draft here.now }
    ensures bound { result ≤ 64 }
{
    let mut found = false;
    let mut low = 0;
    let mut high = 0;
    for x in here {
        let age = age_group(inst, *x);
        low = lower(found, low, age);
        high = high.max(age);
        found = true;
    }
    high.saturating_sub(low) as u64
}
