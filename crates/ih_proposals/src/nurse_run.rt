//! One nurse in the shifts that the nurse works of a person's stay.

ghost use Rattle.std.specs.Prelude.{◌<◌, IfSome};
ghost use Rattle.ih_tables.specs.Sizes.{nurse_count};
ghost use Rattle.ih_plan.specs.{Expand.IsMoveOf};
ghost use Rattle.ih_proposals.specs.Moments.{IsMoment};

use crate::moments::{Moment, draw_moment};
use crate::nurses::draw_working;
use crate::situation::Situation;
use crate::words::RandomWords;
use ih_plan::Move;
use ih_tables::{Day, NurseNo, Shift};

// The days of a run at most.
const LONGEST: u32 = 7;

// The nurse of the stay's room in the shift, or, every other time, one who works it.
fn draw_nurse(here: &Situation<'_>, at: Moment, words: &mut RandomWords) -> Option<NurseNo>
    requires { IsMoment here.now.inst.now.draft at }
    ensures { IfSome result (λ n. n.0 < nurse_count here.now.inst.now.draft) }
{
    let shift = Shift(at.shift);
    if words.below(2) == 0 {
        here.nurse(at.days.room, shift)
    } else {
        draw_working(here.inst, words, shift)
    }
}

/// A move: over a person's stay, by random words, or its first days, a nurse takes the room in each shift that the
/// nurse works.
pub fn nurse_run(here: &Situation<'_>, words: &mut RandomWords) -> Option<Move>
    ensures { IfSome result (IsMoveOf here.now.inst.now.draft) }
{
    let at = draw_moment(here, words)?;
    let nurse = draw_nurse(here, at, words)?;
    let days = (at.days.to - at.days.from).min(LONGEST);
    Some(Move::NurseRun(nurse, at.days.room, Day(at.days.from), days))
}
