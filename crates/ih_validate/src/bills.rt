//! The bill: all seventeen numbers, each summed over the whole timetable.

ghost use Rattle.std.specs.Prelude.{◌≡◌, ◌<◌, ◌^◌, pos};
ghost use Rattle.ih_plan.specs.{Timetable.IsPlanOf, BillOf.bill_of};
ghost use Rattle.ih_tables.specs.Bills.{IsWithin};

use crate::overtime::overtime;
use crate::patients::{StayCost, cost_of_stays};
use crate::surgery::ResourceKind;
use crate::{loads, nurses, rooms, shifts, surgeons, theatres};
use ih_plan::Plan;
use ih_tables::{Bill, Instance};

fn signed(number: u64) -> i64
    requires { number < 2 ^ 63 }
    ensures { result ≡ pos number }
{
    number as i64
}

#[tactic(auto, unfolding(ih_plan::specs::BillOf::bill_of))]
fn all_counts(inst: &Instance, plan: &Plan) -> Bill
    requires { IsPlanOf inst.now.draft plan.now }
    ensures { result ≡ bill_of inst.now.draft plan.now }
{
    let rooms = rooms::room_costs(inst, plan);
    Bill {
        v: [
            signed(rooms.gender_mixes),
            signed(cost_of_stays(inst, plan, StayCost::BadRoom)),
            signed(overtime(inst, plan, ResourceKind::Surgeons)),
            signed(overtime(inst, plan, ResourceKind::Theatres)),
            signed(cost_of_stays(inst, plan, StayCost::MandatoryLeftOut)),
            signed(cost_of_stays(inst, plan, StayCost::OutsideWindow)),
            signed(rooms.over_capacity),
            signed(shifts::nurses_off(inst, plan)),
            signed(rooms.uncovered),
        ],
        s: [
            signed(rooms.mixed_ages),
            signed(rooms.missing_skill),
            signed(nurses::nurses_seen(inst, plan)),
            signed(loads::overloads(inst, plan)),
            signed(theatres::open_theatres(inst, plan)),
            signed(surgeons::transfers(inst, plan)),
            signed(cost_of_stays(inst, plan, StayCost::Delay)),
            signed(cost_of_stays(inst, plan, StayCost::OptionalLeftOut)),
        ],
    }
}

/// The bill of a timetable, by plain loops over all of it: how often each hard rule is broken, and the eight costs,
/// unweighted. Each number is at most 10^11. The timetable has the sizes and the ranges of the instance. It takes no
/// memory.
pub fn bill(inst: &Instance, plan: &Plan) -> Bill
    requires { IsPlanOf inst.now.draft plan.now }
    ensures value { result ≡ bill_of inst.now.draft plan.now }
    ensures within { IsWithin (10 ^ 11) result }
{
    all_counts(inst, plan)
}
