//! A timetable beside a bound.

ghost use Rattle.std.specs.Prelude.{◌≡◌};
ghost use Rattle.ih_plan.specs.Timetable.{IsPlanOf};
ghost use Rattle.ih_bound.specs.Judging.{judged, no_infeasibility};

use crate::outcomes::Outcome;
use ih_plan::Plan;
use ih_tables::Instance;
use ih_validate::bill;

/// Whether a timetable breaks no hard rule, and its cost.
#[derive(Clone, Copy, Debug)]
pub struct Judged {
    pub feasible: bool,
    pub cost: i64,
}

/// The timetable's cost, and whether it breaks no hard rule.
pub fn judge(inst: &Instance, plan: &Plan) -> Judged
    requires { IsPlanOf inst.now.draft plan.now }
    ensures { result ≡ judged inst.now.draft plan.now }
{
    let costs = bill(inst, plan);
    Judged {
        feasible: costs.feasible(),
        cost: costs.cost(inst.weights()),
    }
}

/// Whether there may be a feasible timetable, and the one that was judged, if any, breaks no hard rule.
pub fn no_infeasibility(judged: &Option<Judged>, outcome: &Outcome) -> bool
    ensures { result ≡ no_infeasibility judged.now outcome.now }
{
    match outcome {
        Outcome::Infeasible => false,
        Outcome::AtLeast(_) => match judged {
            None => true,
            Some(judged) => judged.feasible,
        },
    }
}
