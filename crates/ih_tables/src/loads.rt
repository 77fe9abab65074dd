//! The table of the nurses' maximum loads, made once so that a look-up takes one step.

ghost use Rattle.std.specs.Prelude.{◌≡◌, ◌<◌, ◌*◌, ◌/◌, ◌%◌, IfOk};
ghost use Rattle.ih_tables.specs.Works.{load_in, max_load, load_table};
ghost use Rattle.ih_tables.specs.{Sizes.nurse_count, Sizes.shift_count, Valid.IsValid};

use crate::drafts::{Draft, WorkedShift};
use crate::lists::List;
use std::alloc::{AllocError, Global};

// The maximum load among worked shifts for a shift of the horizon, if it is among them.
fn load_in(worked: &[WorkedShift], shift: usize) -> Option<u32>
    ensures { result ≡ load_in worked.now shift }
{
    for w in worked {
        if 3 * w.day.0 as usize + w.shift as usize == shift {
            return Some(w.max_load);
        }
    }
    None
}

/// A nurse's maximum load in a shift; none where the nurse doesn't work it.
pub fn max_load(draft: &Draft, nurse: usize, shift: usize) -> Option<u32>
    requires { nurse < nurse_count draft.now }
    ensures { result ≡ max_load draft.now nurse shift }
{
    load_in(
        draft.nurses.as_slice()[nurse].working_shifts.as_slice(),
        shift,
    )
}

// The maximum load at an index of the table.
fn load_at(draft: &Draft, index: usize) -> Option<u32>
    requires valid { IsValid draft.now }
    requires inside { index < nurse_count draft.now * shift_count draft.now }
    ensures { result ≡ max_load draft.now (index / shift_count draft.now) (index % shift_count draft.now) }
{
    let shifts = 3 * draft.days as usize;
    max_load(draft, index / shifts, index % shifts)
}

/// Each nurse's maximum load in each shift: those of nurse 0 first, rising by shift.
pub fn load_table(alloc: Global, draft: &Draft) -> Result<List<Option<u32>>, AllocError>
    requires { IsValid draft.now }
    ensures { IfOk result (λ loads. loads ≡ load_table draft.now) }
{
    let shifts = 3 * draft.days as usize;
    let mut loads = Vec::new(alloc);
    for index in 0..draft.nurses.as_slice().len() * shifts {
        loads.push(load_at(draft, index))?;
    }
    Ok(List::new(loads))
}
