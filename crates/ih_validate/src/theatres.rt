//! Theatres: the days on which they are in use.

ghost use Rattle.std.specs.Prelude.{◌≡◌, ◌≤◌, not};
ghost use Rattle.ih_plan.specs.{Timetable.IsPlanOf, Costs.is_empty, Costs.operated, Sums.count_below};
ghost use Rattle.ih_plan.specs.BillOf.{open_theatres};

use crate::summing::{bit, sum_below};
use crate::surgery::{Resource, sum_days};
use ih_plan::Plan;
use ih_tables::{Instance, TheatreNo};

fn open_days(inst: &Instance, plan: &Plan, theatre: TheatreNo) -> u64
    requires { IsPlanOf inst.now.draft plan.now }
    ensures count { result
        ≡ count_below inst.now.draft.days (λ d. not (is_empty (operated inst.now.draft plan.now theatre.0 d))) }
    ensures bound { result ≤ 56 }
{
    sum_days(
        inst,
        plan,
        Resource::OfTheatre(theatre),
        1,
        |_d, today| bit(!today.is_empty()),
    )
}

/// Theatres and days with surgery.
#[tactic(auto, unfolding(ih_plan::specs::BillOf::open_theatres))]
pub fn open_theatres(inst: &Instance, plan: &Plan) -> u64
    requires { IsPlanOf inst.now.draft plan.now }
    ensures value { result ≡ open_theatres inst.now.draft plan.now }
    ensures bound { result ≤ 3584 }
{
    sum_below(inst.theatres(), 56, |t| open_days(inst, plan, TheatreNo(t)))
}
