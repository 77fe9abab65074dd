//! The parts of a bill that theatres and surgeons have, and their changes.

ghost use Rattle.std.specs.Prelude.{◌≡◌, ◌^◌};
ghost use Rattle.ih_tables.specs.Bills.{IsWithin, sub_bills};
ghost use Rattle.ih_plan.specs.BillOf.{as_bill};
ghost use Rattle.ih_theatres.specs.Parts.{theatre_part, surgeon_part};

use ih_plan::increase;
use ih_tables::Bill;
use ih_tables::bill_numbers::{OPEN_THEATRE, SURGEON_OVERRUN, SURGEON_TRANSFER, THEATRE_OVERRUN};

/// The bill of a theatre's day: minutes above its availability, and 1 where it is used.
pub fn theatre_day_bill(over: u32, used: u32) -> Bill
    ensures value { result ≡ as_bill (theatre_part over used) }
    ensures within { IsWithin (10 ^ 11) result }
{
    let mut bill = Bill::zero();
    bill.v[THEATRE_OVERRUN] = over as i64;
    bill.s[OPEN_THEATRE] = used as i64;
    bill
}

/// The bill of a surgeon's day: minutes above the surgeon's maximum, and transfers between theatres.
pub fn surgeon_day_bill(over: u32, transfers: u32) -> Bill
    ensures value { result ≡ as_bill (surgeon_part over transfers) }
    ensures within { IsWithin (10 ^ 11) result }
{
    let mut bill = Bill::zero();
    bill.v[SURGEON_OVERRUN] = over as i64;
    bill.s[SURGEON_TRANSFER] = transfers as i64;
    bill
}

/// What a day of a theatre, or of a surgeon, breaks and costs.
#[derive(Clone, Copy)]
pub struct DayCounts {
    /// Minutes above the theatre's availability, or the surgeon's maximum.
    pub over: u32,
    /// 1 where the theatre is used; the surgeon's transfers.
    pub cost: u32,
}

/// The bill of a theatre's new numbers less that of the old ones.
pub fn theatre_change(new: DayCounts, old: DayCounts) -> Bill
    ensures value { result
        ≡ sub_bills (as_bill (theatre_part new.over new.cost)) (as_bill (theatre_part old.over old.cost)) }
    ensures within { IsWithin (10 ^ 11) result }
{
    let mut bill = Bill::zero();
    bill.v[THEATRE_OVERRUN] = increase(new.over, old.over);
    bill.s[OPEN_THEATRE] = increase(new.cost, old.cost);
    bill
}

/// The bill of a surgeon's new numbers less that of the old ones.
pub fn surgeon_change(new: DayCounts, old: DayCounts) -> Bill
    ensures value { result
        ≡ sub_bills (as_bill (surgeon_part new.over new.cost)) (as_bill (surgeon_part old.over old.cost)) }
    ensures within { IsWithin (10 ^ 11) result }
{
    let mut bill = Bill::zero();
    bill.v[SURGEON_OVERRUN] = increase(new.over, old.over);
    bill.s[SURGEON_TRANSFER] = increase(new.cost, old.cost);
    bill
}
