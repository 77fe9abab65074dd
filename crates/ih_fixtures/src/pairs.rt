//! Two things, out of a list and back in one.

ghost use Rattle.std.specs.Prelude.{◌≡◌, [], ◌∷◌, IfSome};

use std::alloc::Global;

/// The two elements of a list, if it has just two.
pub fn two_of<S: Drop>(list: Vec<S>) -> Option<(S, S)>
    ensures { IfSome result (λ t. list.items ≡ t.0 ∷ t.1 ∷ []) }
{
    let mut list = list;
    if list.len() != 2 {
        return None;
    }
    match list.pop() {
        Some(two) => match list.pop() {
            Some(one) => Some((one, two)),
            None => None,
        },
        None => None,
    }
}

/// A list of two elements, if there is memory for it.
pub fn list_of<S: Drop>(alloc: Global, one: S, two: S) -> Option<Vec<S>>
    ensures { IfSome result (λ v. v.items ≡ one ∷ two ∷ []) }
{
    let mut list = Vec::new(alloc);
    match list.push(one) {
        Ok(()) => match list.push(two) {
            Ok(()) => Some(list),
            Err(_) => None,
        },
        Err(_) => None,
    }
}
