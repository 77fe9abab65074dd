//! The cheapest of the nurses that a room may get in a shift.

ghost use Rattle.std.specs.Prelude.{◌≡◌, ◌<◌, ◌&&◌, not, is_none, IfSome};
ghost use Rattle.ih_tables.specs.Sizes.{room_count, shift_count};
ghost use Rattle.ih_plan.specs.{Timetable.care_of, Writes.IsWriteOf, Presence.present, Presence.day_of, Costs.is_empty};
ghost use Rattle.ih_fill.specs.{Candidates.care_writes, Candidates.least_of, ScorerState.care_value};

use crate::candidates::{Candidate, cheaper};
use crate::scoring::Scorer;
use ih_tables::{Instance, NurseNo, RoomNo, Shift};

/// The cheapest nurse who works the shift, where one does: the first on a tie.
pub fn cheapest_nurse(
    inst: &Instance,
    scorer: &Scorer<'_>,
    room: RoomNo,
    shift: Shift,
) -> Option<Candidate>
    requires instance { scorer.now.instance ≡ inst.now.draft }
    requires room { room.0 < room_count inst.now.draft }
    requires shift { shift.0 < shift_count inst.now.draft }
    ensures least { result ≡ least_of (care_value scorer.now) (care_writes inst.now.draft room.0 shift.0) }
    ensures fits { IfSome result (λ best. IsWriteOf inst.now.draft best.write) }
{
    let mut best = None;
    for n in 0..inst.nurses() {
        let n = NurseNo(n);
        if inst.works(n, shift).is_some() {
            let candidate = scorer.care(room, shift, n);
            best = match best {
                None => Some(candidate),
                Some(first) => Some(cheaper(first, candidate)),
            };
        }
    }
    best
}

/// Whether the room has persons and no nurse in the shift.
pub(crate) fn is_uncovered(scorer: &Scorer<'_>, room: RoomNo, shift: Shift) -> bool
    requires room { room.0 < room_count scorer.now.instance }
    requires shift { shift.0 < shift_count scorer.now.instance }
    ensures { result ≡ (is_none (care_of scorer.now.plan room.0 shift.0)
        && not (is_empty (present scorer.now.instance scorer.now.plan room.0 (day_of shift.0)))) }
{
    scorer.plan().care(room, shift).is_none() && scorer.is_occupied(room, shift)
}
