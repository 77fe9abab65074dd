//! Laws of the fill, each on a function that does nothing.

ghost use Rattle.ih_fill.specs.Laws.{ChoicesAreFirstLeast};

/// A choice of a fill that is open is made by the first least of its candidates, where it has any; else nothing
/// changes.
pub fn choices_are_first_least()
    ensures { ChoicesAreFirstLeast }
{}
