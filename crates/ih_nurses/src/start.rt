//! The ledger's tables at the empty timetable: the occupants are in their rooms, and no room has a nurse.

ghost use Rattle.std.specs.Prelude.{◌≡◌, ◌<◌, ◌+◌, ◌*◌, IfOk};
ghost use Rattle.ih_tables.specs.Sizes.{occupant_count, nurse_count, shift_count};
ghost use Rattle.ih_plan.specs.Timetable.{empty};
ghost use Rattle.ih_nurses.specs.{Here.AreFilled, Here.AreHere, Loads.AreLoads, Loads.free_load, Counts.AreCounts};

use crate::loads::NurseLoad;
use crate::presence::enter_days;
use ih_links::{CompactLinks, empty_days};
use ih_plan::end_from;
use ih_tables::{Instance, NurseNo, Shift};
use std::alloc::{AllocError, Global};

// The load 0 at an index of the table, beside the nurse's maximum.
fn no_load(inst: &Instance, index: usize) -> NurseLoad
    requires { index < nurse_count inst.now.draft * shift_count inst.now.draft }
    ensures { result ≡ free_load inst.now.draft index }
{
    let shifts = inst.shifts() as usize;
    let nurse = NurseNo((index / shifts) as u32);
    let shift = Shift((index % shifts) as u32);
    NurseLoad {
        work: 0,
        most: inst.works(nurse, shift).unwrap_or(u32::MAX),
    }
}

/// The load 0 for each nurse and shift.
pub fn no_loads(alloc: Global, inst: &Instance) -> Result<Vec<NurseLoad>, AllocError>
    ensures { IfOk result (λ loads. AreLoads inst.now.draft (empty inst.now.draft) loads.items) }
{
    let places = inst.nurses() as usize * inst.shifts() as usize;
    let mut loads = Vec::with_capacity(alloc, places)?;
    for index in 0..places {
        loads.push(no_load(inst, index))?;
    }
    Ok(loads)
}

/// The count 0 for each person and nurse.
pub fn no_counts(alloc: Global, inst: &Instance) -> Result<Vec<u8>, AllocError>
    ensures { IfOk result (λ counts. AreCounts inst.now.draft (empty inst.now.draft) counts.items) }
{
    let places = inst.persons() as usize * inst.nurses() as usize;
    let counts = vec![in alloc; 0; places]?;
    Ok(counts)
}

// Lists an occupant in its room from day 0 on, within the horizon.
fn enter_occupant(inst: &Instance, here: &mut [CompactLinks], occupant_no: u32)
    requires occupant { occupant_no < occupant_count inst.now.draft }
    requires so_far { AreFilled inst.now.draft here.old occupant_no }
    ensures { AreFilled inst.now.draft here.new (occupant_no + 1) }
{
    let occupant = inst.occupant(occupant_no);
    let end = end_from(inst, 0, occupant.length_of_stay);
    enter_days(
        inst,
        here,
        occupant.room_id,
        0,
        end,
        inst.patients() + occupant_no,
    );
}

// Lists each occupant.
fn enter_occupants(inst: &Instance, here: &mut [CompactLinks])
    requires { AreFilled inst.now.draft here.old 0 }
    ensures { AreHere inst.now.draft (empty inst.now.draft) here.new }
{
    for o in 0..inst.occupants() {
        enter_occupant(inst, here, o);
    }
}

/// For each day, the occupants in each room.
pub fn occupants_here(alloc: Global, inst: &Instance) -> Result<Vec<CompactLinks>, AllocError>
    ensures { IfOk result (λ here. AreHere inst.now.draft (empty inst.now.draft) here.items) }
{
    let mut here = empty_days(alloc, inst.days(), inst.rooms(), inst.persons())?;
    enter_occupants(inst, here.as_mut_slice());
    Ok(here)
}
