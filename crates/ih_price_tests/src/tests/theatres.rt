//! A surgery of one patient, which opens its theatre.

ghost use Rattle.ih_plan.specs.Timetable.{empty};
ghost use Rattle.ih_theatres.specs.Ledger.{IsLedgerOf};
ghost use Rattle.ih_fixtures.specs.Two.{IsOfTwo};

use crate::tests::bills::{FREE, KEPT, has};
use ih_fixtures::{first_day, share};
use ih_tables::{Day, Instance, PatientNo, SurgeonNo, TheatreNo};
use ih_theatres::Theatres;
use std::alloc::Global;

const OPEN: &str = "0 0 0 0 1 0 0 0";

// Whether each bill is right once the first patient has entered, and once the second has joined and the first left:
// then the second patient's theatre alone is open.
fn are_right(inst: &Instance, ledger: &mut Theatres) -> bool
    requires new { IsLedgerOf inst.now.draft (empty inst.now.draft) ledger.old }
    requires two { IsOfTwo inst.now.draft }
{
    let here = first_day(0);
    let beside = first_day(1);
    ledger.enter(inst, PatientNo(0), here);
    let used = ledger.theatre_bill(inst, TheatreNo(0), Day(0));
    let alone = ledger.surgeon_bill(inst, SurgeonNo(0), Day(0));
    ledger.enter(inst, PatientNo(1), beside);
    ledger.leave(inst, PatientNo(0), here);
    let closed = ledger.theatre_bill(inst, TheatreNo(0), Day(0));
    let other = ledger.theatre_bill(inst, TheatreNo(1), Day(0));
    has(&used, KEPT, OPEN)
        && has(&alone, KEPT, FREE)
        && has(&closed, KEPT, FREE)
        && has(&other, KEPT, OPEN)
}

/// A surgery opens a theatre, which is closed again once it is taken back, while another one keeps its own open.
pub fn hold(alloc: Global, inst: &Instance) -> bool
    requires { IsOfTwo inst.now.draft }
{
    match Theatres::new(alloc, inst) {
        Ok(mut ledger) => {
            share(&ledger);
            are_right(inst, &mut ledger)
        }
        Err(_) => false,
    }
}
