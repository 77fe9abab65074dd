//! A bill that has the numbers of nursing alone.

ghost use Rattle.std.specs.Prelude.{◌≡◌, ◌^◌, ◌-ℤ◌, pos};
ghost use Rattle.ih_tables.specs.Bills.{IsWithin};
ghost use Rattle.ih_nurses.specs.Bills.{nursing_bill};

use ih_plan::increase;
use ih_tables::Bill;
use ih_tables::bill_numbers::{
    CONTINUITY_OF_CARE, EXCESS_WORKLOAD, NURSE_PRESENCE, NURSE_SKILL, UNCOVERED_ROOM,
};

/// What nursing gives to a bill, or one part of it.
#[derive(Clone, Copy, Drop)]
pub struct NursingCosts {
    /// Nurses who don't work the shift.
    pub off: u32,
    /// Occupied rooms without a nurse.
    pub uncovered: u32,
    /// Required skill above the nurse's.
    pub missing_skill: u32,
    /// Distinct nurses.
    pub nurses_seen: u32,
    /// Workload above the maximum.
    pub overload: u32,
}

/// The bill of these costs. Each of its numbers is at most 10^11.
pub fn bill_of(costs: NursingCosts) -> Bill
    ensures value { result ≡ nursing_bill (pos costs.off) (pos costs.uncovered) (pos costs.missing_skill)
        (pos costs.nurses_seen) (pos costs.overload) }
    ensures within { IsWithin (10 ^ 11) result }
{
    let mut bill = Bill::zero();
    bill.v[NURSE_PRESENCE] = costs.off as i64;
    bill.v[UNCOVERED_ROOM] = costs.uncovered as i64;
    bill.s[NURSE_SKILL] = costs.missing_skill as i64;
    bill.s[CONTINUITY_OF_CARE] = costs.nurses_seen as i64;
    bill.s[EXCESS_WORKLOAD] = costs.overload as i64;
    bill
}

/// The bill of some costs less that of others. Each of its numbers is at most 10^11 in magnitude.
pub fn difference(after: NursingCosts, before: NursingCosts) -> Bill
    ensures value { result ≡ nursing_bill (pos after.off -ℤ pos before.off)
        (pos after.uncovered -ℤ pos before.uncovered) (pos after.missing_skill -ℤ pos before.missing_skill)
        (pos after.nurses_seen -ℤ pos before.nurses_seen) (pos after.overload -ℤ pos before.overload) }
    ensures within { IsWithin (10 ^ 11) result }
{
    let mut bill = Bill::zero();
    bill.v[NURSE_PRESENCE] = increase(after.off, before.off);
    bill.v[UNCOVERED_ROOM] = increase(after.uncovered, before.uncovered);
    bill.s[NURSE_SKILL] = increase(after.missing_skill, before.missing_skill);
    bill.s[CONTINUITY_OF_CARE] = increase(after.nurses_seen, before.nurses_seen);
    bill.s[EXCESS_WORKLOAD] = increase(after.overload, before.overload);
    bill
}
