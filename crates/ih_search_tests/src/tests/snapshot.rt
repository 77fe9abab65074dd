//! What workers see of each other over one book, and at one desk.

ghost use Rattle.ih_plan.specs.Timetable.{IsPlanOf};

use crate::tests::playing::comes_out_so;
use ih_fixtures::on_first_admitted;
use ih_plan::Plan;
use ih_tables::Instance;
use std::alloc::Global;
use std::sync::Wait;

// The price of joining the first patient rests on the stay, the room and the theatre on the day, the surgeon's day, the
// room and its nurse in three shifts, and who cares for the patient, also where it is too dear to be accepted.
const DEAR: &str = "ihjournal 1 seed=0 workers=1 moves=1 heat=0 hard=1000
0
prices 2007 1.0,2.0,8.0,10.0,12.0,13.0,14.0,24.0,25.0,26.0,37.0 0 0 0 0 place:1,0,0,1 1,0,0,0,0,0,1,0,0,1,6,1,3,1,1,0,-1 accepted";

// Behind another's entry it rests on the same cells, but for the night's nurse, at the versions that the entry raised.
const BEHIND: &str = "ihjournal 1 seed=0 workers=2 moves=2 heat=1000000 hard=1000
1
offers 0 1 0 0 nurse:0,2,1 0,0,0,0,0,0,0,0,0,0,-2,2,0,0,0,0,0 accepted

0
prices 2007 1.0,2.0,8.0,10.0,12.0,13.0,14.0,24.0,25.0,26.0,37.0 0 0 0 0 place:1,0,0,1 1,0,0,0,0,0,1,0,0,1,6,1,3,1,1,0,-1 accepted
follows 1 1
prices 1988 1.0,2.0,8.0,10.0,12.0,13.0,14.1,24.0,25.0,32.1,37.0 1 0 0 1 place:1,0,0,1 1,0,0,0,0,0,1,0,0,1,4,2,2,1,1,0,-1 accepted";

// An accepted entry raises the versions of what it touches, and a stale one doesn't. Both are copied.
const STALE: &str = "ihjournal 1 seed=0 workers=2 moves=2 heat=1000000 hard=1000
1
offers 0 1 0 0 nurse:0,2,1 0,0,0,0,0,0,0,0,0,0,-2,2,0,0,0,0,0 accepted

0
offers 1 0 0 0 place:1,0,0,1 1,0,0,0,0,0,1,0,0,1,6,1,3,1,1,0,-1 stale:roomshift.0.2:0:1
version 14 1
version 12 0
copies 0 2 2
copies 2 0 2

1
looks 2 2";

// A move is stale where another changed what it read, and is accepted when it comes again, after a look.
const AGAIN: &str = "ihjournal 2 seed=0 workers=2 moves=2 heat=1000000 hard=1000 retries=1
1
offers 0 1 0 0 0 nurse:0,2,1 0,0,0,0,0,0,0,0,0,0,-2,2,0,0,0,0,0 accepted

0
offers 1 0 0 0 0 place:1,0,0,1 1,0,0,0,0,0,1,0,0,1,6,1,3,1,1,0,-1 stale:roomshift.0.2:0:1
looks 2 2
looks 2 2
prices 1988  2 0 0 1 2 place:1,0,0,1 1,0,0,0,0,0,1,0,0,1,4,2,2,1,1,0,-1 accepted
offers 2 0 0 1 2 place:1,0,0,1 1,0,0,0,0,0,1,0,0,1,4,2,2,1,1,0,-1 accepted";

// A nurse who came back leaves a trace.
const TRACE: &str = "ihjournal 1 seed=0 workers=2 moves=2 heat=1000000 hard=1000
1
offers 0 1 0 0 nurse:0,2,1 0,0,0,0,0,0,0,0,0,0,-2,2,0,0,0,0,0 accepted
looks 1 1
offers 1 1 1 1 nurse:0,2,0 0,0,0,0,0,0,0,0,0,0,2,-2,0,0,0,0,0 accepted

0
offers 2 0 0 0 place:1,0,0,1 1,0,0,0,0,0,1,0,0,1,6,1,3,1,1,0,-1 stale:roomshift.0.2:0:2
start 2";

// Moves that touch nothing in common are both made, the second for what the bills say.
const BOTH: &str = "ihjournal 1 seed=0 workers=2 moves=2 heat=1000000 hard=1000
1
offers 0 1 0 0 nurse:0,2,1 0,0,0,0,0,0,0,0,0,0,-2,2,0,0,0,0,0 accepted

0
prices 2937  1 0 0 0 place:1,0,1,1 0,0,0,0,0,0,0,0,3,0,0,0,0,1,1,0,-1 accepted
offers 1 0 0 0 place:1,0,1,1 0,0,0,0,0,0,0,0,3,0,0,0,0,1,1,0,-1 accepted
exact 1";

// The first day is frozen. A later move and its opposite lead back to the start.
const FROZEN: &str = "ihjournal 1 seed=0 workers=1 moves=3 heat=1000000 hard=1000
0
offers 0 0 0 0 setday:0,1 0,0,0,0,0,0,0,0,0,-1,0,0,0,0,0,1,0 frozen
looks 1 1
prices 2934  1 0 1 1 place:1,1,1,1 0,0,0,0,0,0,0,0,3,0,0,0,0,1,0,1,-1 accepted
offers 1 0 1 1 place:1,1,1,1 0,0,0,0,0,0,0,0,3,0,0,0,0,1,0,1,-1 accepted
looks 2 2
offers 2 0 2 2 withdraw:1 0,0,0,0,0,0,0,0,-3,0,0,0,0,-1,0,-1,1 accepted
start 3";

// Moves that do nothing touch no cell and change no timetable. A look or a copy shows 256 of them at most.
const IDLE: &str = "ihjournal 1 seed=0 workers=2 moves=700 heat=0 hard=1000
1
idles 600

0
looks 256 600
looks 512 600
looks 600 600
looks 600 600
best 0 159
untouched
copies 0 256 600
copies 256 256 600
copies 512 88 600
copies 600 0 600";

// At a desk the night goes to the second nurse and back again. Then the other worker, who has seen neither, offers a
// price that both have made stale. The first one's last look shows that too.
const BY_TURNS: &str = "ihjournal 1 seed=0 workers=2 moves=2 heat=1000000 hard=1000
desk
offers 0 1 0 0 nurse:0,2,1 0,0,0,0,0,0,0,0,0,0,-2,2,0,0,0,0,0 accepted
follows
offers 1 1 1 1 nurse:0,2,0 0,0,0,0,0,0,0,0,0,0,2,-2,0,0,0,0,0 accepted
counts 2 2

offers 2 0 0 0 place:1,0,0,1 1,0,0,0,0,0,1,0,0,1,6,1,3,1,1,0,-1 stale:roomshift.0.2:0:2
counts 3 1

counts 2 2
looks 3 3
counts 3 2
shows 2 0 0 0 place:1,0,0,1 1,0,0,0,0,0,1,0,0,1,6,1,3,1,1,0,-1 stale:roomshift.0.2:0:2";

fn come_out_so<R: Wait>(rt: &R, alloc: Global, inst: &Instance, start: &Plan) -> bool
    requires { IsPlanOf inst.now.draft start.now }
{
    for scene in [DEAR, BEHIND, STALE, AGAIN, TRACE, BOTH, IDLE, BY_TURNS] {
        if !comes_out_so(rt, alloc, inst, start, 0, scene) {
            return false;
        }
    }
    comes_out_so(rt, alloc, inst, start, 1, FROZEN)
}

#[test]
fn workers_see_what_others_touched(rt: HostRuntime) {
    let alloc = rt.alloc();
    assert!(rt; on_first_admitted(alloc, |inst, start| come_out_so(&rt, alloc, inst, start)));
}
