//! A patient joins an occupant under a nurse.

ghost use Rattle.ih_plan.specs.Timetable.{empty};
ghost use Rattle.ih_nurses.specs.Ledger.{IsLedgerOf};
ghost use Rattle.ih_fixtures.specs.Two.{IsOfTwo};

use crate::tests::bills::{FREE, KEPT, has};
use ih_fixtures::{first_day, share};
use ih_nurses::Nurses;
use ih_tables::{Instance, NurseNo, PatientNo, PersonNo, RoomNo, Shift};
use std::alloc::Global;

const UNCOVERED: &str = "0 0 0 0 0 0 0 0 1";

const SKILL_OF_2: &str = "0 2 0 0 0 0 0 0";

const ONE_NURSE: &str = "0 0 1 0 0 0 0 0";

// Whether each bill is right after the first patient joins the occupant, and the unskilled nurse has the room in the
// night.
fn one_is_right(inst: &Instance, ledger: &mut Nurses) -> bool
    requires new { IsLedgerOf inst.now.draft (empty inst.now.draft) ledger.old }
    requires two { IsOfTwo inst.now.draft }
{
    ledger.enter(inst, PatientNo(0), first_day(0));
    ledger.set_care(inst, RoomNo(0), Shift(2), Some(NurseNo(0)));
    let night = ledger.room_shift_bill(inst, RoomNo(0), Shift(2));
    let early = ledger.room_shift_bill(inst, RoomNo(0), Shift(0));
    let care = ledger.care_bill(inst, PersonNo(0));
    has(&night, KEPT, SKILL_OF_2) && has(&early, UNCOVERED, FREE) && has(&care, KEPT, ONE_NURSE)
}

/// A nurse lacks skill in the night, while the early shift has none.
pub fn hold(alloc: Global, inst: &Instance) -> bool
    requires { IsOfTwo inst.now.draft }
{
    match Nurses::new(alloc, inst) {
        Ok(mut ledger) => {
            share(&ledger);
            one_is_right(inst, &mut ledger)
        }
        Err(_) => false,
    }
}
