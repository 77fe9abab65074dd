//! Whole calls of searches in rounds, over files in memory.

use crate::tests::program::goes;

// No move of the second round changes the only cheapest timetable, so the first of two rounds that cost the same has
// the best. A replay reads one journal alone, and a salvage takes the first one.
const ROUNDS: &str = r#"
> store i
= ward
> 0 rounds i o j --seed 0 --workers 1 --moves 1 --heat 0 --hard 1000 --rounds 2
best 1 of 1 in round 0
report 0 0 0 0 0 0 0 0 0, 0 1 1 0 0 0 0 0, 12
> has j
ihjournal 1 seed=0 workers=1 moves=1 heat=0 hard=1000
0 0 0 0 nurserun:0,0,0,5 0,0,0,0,0,0,0,0,-3,0,1,1,0,0,0,0,0 accepted
ihjournal 1 seed=64 workers=1 moves=1 heat=0 hard=1000
0 0 0 0 swapnurses:1,0,0 0,0,0,0,0,0,0,0,0,0,0,0,0,0,0,0,0 accepted
> is o
= covered
> 8 replay i j p
journal refused: line 3: Extra
> no p
> 0 salvage i j p
= salvaged
> is p
= covered
> # without moves
> 5 rounds i q j --seed 0 --workers 1 --moves 0 --heat 0 --hard 1000 --rounds 2
none found
> has j
ihjournal 1 seed=0 workers=1 moves=0 heat=0 hard=1000
ihjournal 1 seed=64 workers=1 moves=0 heat=0 hard=1000
> no q
> # past a gate: worker 0 has priced its move before worker 1 offers its own, and offers it afterwards
> hold 1 rounds i o j --seed 18446744073709551615 --workers 2 --moves 1 --heat 1000000 --hard 1000 --start s --rounds 1
best 1 of 2 in round 0
…
cost 139
> has j
ihjournal 1 seed=18446744073709551615 workers=2 moves=1 heat=1000000 hard=1000
0 1 0 0 nurserun:1,0,0,5 0,0,0,0,0,0,0,0,0,0,-2,0,0,0,0,0,0 accepted
1 0 0 0 place:0,1,1,1 0,1,0,0,0,0,0,0,3,-1,0,-1,0,0,0,1,0 stale:roomshift.0.0:0:1
"#;

#[test]
fn rounds(rt: HostRuntime) {
    goes(&rt, rt.alloc(), ROUNDS);
}
