//! Choices that lie before the freeze day and may not be changed.

ghost use Rattle.std.specs.Prelude.{◌≡◌};
ghost use Rattle.ih_plan.specs.Writes.{IsInside};
ghost use Rattle.ih_plan.specs.Frozen.{is_before, is_frozen_write};

use crate::moves::{Placement, Write};
use crate::plans::Plan;

fn before(stay: Option<Placement>, freeze: u32) -> bool
    ensures { result ≡ is_before freeze stay }
{
    match stay {
        Some(at) => at.day.0 < freeze,
        None => false,
    }
}

/// Whether a write is of a choice of a day before `freeze`, or makes one: a nurse of such a day, a stay that begins
/// there in the start, or a stay that would begin there.
pub fn frozen(start: &Plan, freeze: u32, write: &Write) -> bool
    requires { IsInside start.now write.now }
    ensures { result ≡ is_frozen_write start.now freeze write.now }
{
    match *write {
        Write::SetStay(p, new) => before(start.stay(p), freeze) || before(new, freeze),
        Write::SetCare(_, k, _) => k.0 / 3 < freeze,
    }
}
