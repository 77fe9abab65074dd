//! The table of the nurses who work each shift, made once so that one of them is found in one step.

ghost use Rattle.std.specs.Prelude.{◌≡◌, IfOk};
ghost use Rattle.ih_tables.specs.{Valid.IsValid, Works.working, Works.roster_table};

use crate::drafts::Draft;
use crate::ids::NurseNo;
use crate::lists::List;
use crate::loads::max_load;
use std::alloc::{AllocError, Global};

// The nurses who work a shift, rising.
fn working(alloc: Global, draft: &Draft, shift: usize) -> Result<List<NurseNo>, AllocError>
    requires { IsValid draft.now }
    ensures { IfOk result (λ nurses. nurses ≡ working draft.now shift) }
{
    let mut nurses = Vec::new(alloc);
    for n in 0..draft.nurses.as_slice().len() {
        if max_load(draft, n, shift).is_some() {
            nurses.push(NurseNo(n as u32))?;
        }
    }
    Ok(List::new(nurses))
}

/// For each shift of the horizon, the nurses who work it, rising.
pub fn roster_table(alloc: Global, draft: &Draft) -> Result<List<List<NurseNo>>, AllocError>
    requires { IsValid draft.now }
    ensures { IfOk result (λ rosters. rosters ≡ roster_table draft.now) }
{
    let mut rosters = Vec::new(alloc);
    for shift in 0..3 * draft.days as usize {
        rosters.push(working(alloc, draft, shift)?)?;
    }
    Ok(List::new(rosters))
}
