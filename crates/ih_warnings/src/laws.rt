//! The law of the warnings, on a function that does nothing.

ghost use Rattle.ih_warnings.specs.Laws.{NothingIsPassedOver};

use ih_tables::Instance;

/// Each slip of each thing is said, and where there is none nothing is said.
pub fn nothing_is_passed_over(_inst: &Instance)
    ensures { NothingIsPassedOver _inst.now.draft }
{}
