//! Tests of a number, a text and a list against their limits.

ghost use Rattle.std.specs.Prelude.{◌≡◌, ◌≢◌, ◌≤◌, ◌↔◌, IsTrue, All, AllPairs, Any};
ghost use Rattle.ih_tables.specs.Valid.{IsVector, Between, IsName, IsListed};

use crate::lookups::HasId;

/// Whether a number is from `low` to `high`.
pub fn between(low: usize, high: usize, number: usize) -> bool
    ensures { IsTrue result ↔ Between low high number }
{
    low <= number && number <= high
}

/// Whether a text has 1 to 100 bytes.
pub fn is_name(text: &str) -> bool
    ensures { IsTrue result ↔ IsName text.now }
{
    between(1, 100, text.len())
}

/// Whether each number is at most `high`.
pub fn are_at_most(high: u32, numbers: &[u32]) -> bool
    ensures { IsTrue result ↔ All (λ x. x ≤ high) numbers.now }
{
    numbers.iter().all(|x| *x <= high)
}

/// Whether there are `length` numbers, each at most `high`.
pub fn is_vector(length: usize, high: u32, numbers: &[u32]) -> bool
    ensures { IsTrue result ↔ IsVector length high numbers.now }
{
    numbers.len() == length && are_at_most(high, numbers)
}

/// Whether there are from `low` to `high` items, whose ids are names, no two the same.
pub fn is_listed<T: HasId>(low: usize, high: usize, items: &[T]) -> bool
    ensures { IsTrue result ↔ IsListed low high T.id items.now }
{
    between(low, high, items.len()) && are_named(items) && are_distinct(items)
}

fn are_named<T: HasId>(items: &[T]) -> bool
    ensures { IsTrue result ↔ All (λ x. IsName (T.id x)) items.now }
{
    items.iter().all(|x| is_name(x.id()))
}

fn are_distinct<T: HasId>(items: &[T]) -> bool
    ensures { IsTrue result ↔ AllPairs (λ x y. T.id x ≢ T.id y) items.now }
{
    for (i, item) in items.iter().enumerate() {
        if has_id(&items[..i], item.id()) {
            return false;
        }
    }
    true
}

fn has_id<T: HasId>(items: &[T], id: &str) -> bool
    ensures { IsTrue result ↔ Any (λ x. T.id x ≡ id.now) items.now }
{
    items.iter().any(|x| x.id() == id)
}
