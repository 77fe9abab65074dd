//! A patient who is withdrawn and placed again is just placed, which leaves room for more moves.

ghost use Rattle.ih_plan.specs.{Expand.IsMoveOf, Series.AreMoves};

use ih_moves::Chain;
use ih_plan::Move;
use ih_tables::{Instance, PatientNo};

// Whether one of the attempt's moves places the patient.
fn places(inst: &Instance, attempt: &Chain, patient: PatientNo) -> bool
    requires { AreMoves inst.now.draft attempt.now }
{
    for i in 0..attempt.len() {
        if let Move::Place(p, _) = attempt.at(inst, i) {
            if p == patient {
                return true;
            }
        }
    }
    false
}

// Whether the move withdraws a patient whom the attempt places.
fn is_needless(inst: &Instance, attempt: &Chain, mv: Move) -> bool
    requires attempt { AreMoves inst.now.draft attempt.now }
    requires one { IsMoveOf inst.now.draft mv }
{
    match mv {
        Move::Withdraw(p) => places(inst, attempt, p),
        _ => false,
    }
}

/// Leaves out who is withdrawn and placed later: the timetable in the end is the same.
pub fn merge(inst: &Instance, attempt: &mut Chain)
    requires { AreMoves inst.now.draft attempt.old }
    ensures { AreMoves inst.now.draft attempt.new }
{
    let all = *attempt;
    attempt.begin(inst);
    for i in 0..all.len() {
        let mv = all.at(inst, i);
        if !is_needless(inst, &all, mv) {
            attempt.add(inst, mv);
        }
    }
}
