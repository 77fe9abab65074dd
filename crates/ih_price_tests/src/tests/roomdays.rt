//! An occupant and a patient in one room.

ghost use Rattle.std.specs.Prelude.{◌<◌};
ghost use Rattle.ih_plan.specs.Timetable.{empty};
ghost use Rattle.ih_roomdays.specs.Ledger.{IsLedgerOf};
ghost use Rattle.ih_fixtures.specs.Two.{IsOfTwo};

use crate::tests::bills::{KEPT, has};
use ih_fixtures::{first_day, share};
use ih_plan::Members;
use ih_roomdays::RoomDays;
use ih_tables::{Day, Instance, PatientNo, RoomNo};
use std::alloc::Global;

// Whether two persons are in the first room on the first day, and just these, in any order.
fn are_there(ledger: &RoomDays, person: u32, other: u32) -> bool
    requires rooms { 0 < ledger.now.rooms }
    requires days { 0 < ledger.now.days }
{
    let count = ledger.count(RoomNo(0), Day(0));
    if count == 2 {
        let a = ledger.member(RoomNo(0), Day(0), 0);
        let b = ledger.member(RoomNo(0), Day(0), 1);
        (a.0 == person && b.0 == other) || (a.0 == other && b.0 == person)
    } else {
        false
    }
}

// Whether the ledger is right once the first patient has entered, and once the second has joined and the first left.
fn is_right(inst: &Instance, ledger: &mut RoomDays) -> bool
    requires new { IsLedgerOf inst.now.draft (empty inst.now.draft) ledger.old }
    requires two { IsOfTwo inst.now.draft }
{
    let here = first_day(0);
    let beside = first_day(1);
    ledger.enter(inst, PatientNo(0), here);
    let both = are_there(ledger, 0, 2);
    let later = ledger.count(RoomNo(0), Day(1));
    let bill = ledger.cell_bill(inst, RoomNo(0), Day(0));
    ledger.enter(inst, PatientNo(1), beside);
    ledger.leave(inst, PatientNo(0), here);
    let other = are_there(ledger, 1, 2);
    both && later == 1 && has(&bill, KEPT, "1 0 0 0 0 0 0 0") && other
}

/// A patient joins an occupant, and leaves again when another has come.
pub fn hold(alloc: Global, inst: &Instance) -> bool
    requires { IsOfTwo inst.now.draft }
{
    match RoomDays::new(alloc, inst) {
        Ok(mut ledger) => {
            share(&ledger);
            is_right(inst, &mut ledger)
        }
        Err(_) => false,
    }
}
