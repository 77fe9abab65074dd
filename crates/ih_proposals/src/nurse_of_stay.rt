//! A nurse of a person's stay in one more of its shifts.

ghost use Rattle.std.specs.Prelude.{◌<◌, IfSome};
ghost use Rattle.ih_tables.specs.Sizes.{nurse_count};
ghost use Rattle.ih_plan.specs.{Expand.IsMoveOf};
ghost use Rattle.ih_proposals.specs.Moments.{IsMoment};

use crate::moments::{Moment, draw_moment};
use crate::situation::Situation;
use crate::stays::cyclic;
use crate::words::RandomWords;
use ih_plan::Move;
use ih_tables::{NurseNo, Shift};

// The first other nurse of the stay's room who works the shift, cyclically from a shift of the stay on.
fn other_nurse(here: &Situation<'_>, at: Moment, words: &mut RandomWords) -> Option<NurseNo>
    requires { IsMoment here.now.inst.now.draft at }
    ensures { IfSome result (λ n. n.0 < nurse_count here.now.inst.now.draft) }
{
    let room = at.days.room;
    let shift = Shift(at.shift);
    let now = here.nurse(room, shift);
    let shifts = 3 * (at.days.to - at.days.from);
    let first = words.below(shifts);
    for i in 0..shifts {
        let k = Shift(3 * at.days.from + cyclic(first, i, shifts));
        let nurse = here.nurse(room, k);
        if let Some(n) = nurse {
            if nurse != now && here.inst.works(n, shift).is_some() {
                return Some(n);
            }
        }
    }
    None
}

/// A move: in a shift of a person's stay, by random words, its room gets another nurse of the stay.
pub fn nurse_of_stay(here: &Situation<'_>, words: &mut RandomWords) -> Option<Move>
    ensures { IfSome result (IsMoveOf here.now.inst.now.draft) }
{
    let at = draw_moment(here, words)?;
    let nurse = other_nurse(here, at, words)?;
    Some(Move::Nurse(at.days.room, Shift(at.shift), nurse))
}
