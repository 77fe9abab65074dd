//! A worker's share of the nurses that a room may get in a shift.

ghost use Rattle.std.specs.Prelude.{◌≡◌, ◌<◌};
ghost use Rattle.ih_tables.specs.Sizes.{room_count, shift_count};
ghost use Rattle.ih_fill.specs.{Candidates.care_writes, ScorerState.care_value};
ghost use Rattle.ih_parfill.specs.Shares.{IsOfShare, IsShare};

use crate::scans::{Found, ShareScan};
use ih_fill::Scorer;
use ih_tables::{Instance, NurseNo, RoomNo, Shift};

/// The first least of a worker's share of the nurses who work the shift.
pub(crate) fn least_nurse_of_share(
    inst: &Instance,
    scorer: &Scorer<'_>,
    room: RoomNo,
    shift: Shift,
    workers: u32,
    worker: u32,
) -> Option<Found>
    requires instance { scorer.now.instance ≡ inst.now.draft }
    requires room { room.0 < room_count inst.now.draft }
    requires shift { shift.0 < shift_count inst.now.draft }
    requires some { 0 < workers }
    ensures { IsOfShare inst.now.draft (care_value scorer.now) (care_writes inst.now.draft room.0 shift.0)
        (IsShare workers worker) result }
{
    let mut scan = ShareScan::new(workers, worker);
    for n in 0..inst.nurses() {
        let n = NurseNo(n);
        if inst.works(n, shift).is_some() {
            if scan.is_own() {
                scan.look(scorer.care(room, shift, n));
            } else {
                scan.pass();
            }
        }
    }
    scan.best
}
