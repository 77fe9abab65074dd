//! Whole calls of several workers, over files in memory.

use crate::tests::program::goes;

// Two workers of whom each attempt of one stands beside one of the other, or meets all others at a gate.
const BESIDE: &str = "
> # worker 0 has priced its move before worker 1 offers its own, and offers it afterwards
> hold 1 solve i o j --seed 18446744073709551615 --workers 2 --moves 1 --heat 1000000 --hard 1000 --start s
best 1 of 2
…
cost 139
> has j
ihjournal 1 seed=18446744073709551615 workers=2 moves=1 heat=1000000 hard=1000
0 1 0 0 nurserun:1,0,0,5 0,0,0,0,0,0,0,0,0,0,-2,0,0,0,0,0,0 accepted
1 0 0 0 place:0,1,1,1 0,1,0,0,0,0,0,0,3,-1,0,-1,0,0,0,1,0 stale:roomshift.0.0:0:1
> # every attempt so, and the replay finds the same
> hold 100 solve i o j --seed 18446744073709551615 --workers 2 --moves 100 --heat 1000000 --hard 1000 --start s
…
> pairs j
> 0 replay i j p --start s
…
> same p o
> # with a try more worker 0 takes over what was new by its stale offer, and its move is then accepted
> hold 1 solve i o j --seed 18446744073709551615 --workers 2 --moves 1 --heat 1000000 --hard 1000 --start s --retries 1
best 1 of 3
…
cost 139
> has j
ihjournal 2 seed=18446744073709551615 workers=2 moves=1 heat=1000000 hard=1000 retries=1
0 1 0 0 0 nurserun:1,0,0,5 0,0,0,0,0,0,0,0,0,0,-2,0,0,0,0,0,0 accepted
1 0 0 0 0 place:0,1,1,1 0,1,0,0,0,0,0,0,3,-1,0,-1,0,0,0,1,0 stale:roomshift.0.0:0:1
2 0 0 1 2 place:0,1,1,1 0,1,0,0,0,0,0,0,3,-1,0,-1,0,0,0,1,0 accepted
> 0 replay i j p --start s
best 1 of 3
…
cost 139
> same p o
> # no worker offers its first move before all have priced theirs
> meet 3 solve i o j --seed 5 --workers 3 --moves 20 --heat 300 --hard 1000 --start s
…
> together 3
> 0 replay i j p --start s
…
> same p o
> meet 64 solve i o j --seed 5 --workers 64 --moves 3 --heat 300 --hard 1000 --start s
…
> together 64
> 0 replay i j p --start s
…
> same p o
> # each of two workers passes a gate once for each of its moves, and once for advice
> pass 5 solve i o j --seed 0 --workers 2 --moves 5 --heat 0 --hard 1000 --start s
…
> pass 1 advise i s --hard 1000 --workers 2
…
";

#[test]
fn workers_side_by_side(rt: HostRuntime) {
    goes(&rt, rt.alloc(), BESIDE);
}

// Journals of many workers are replayed to the same text and solution.
const REPLAYED: &str = "
> lay two admitted
> replays
replay i j p --start s
solve i o j --seed 5 --workers 1 --moves 30 --heat 300 --hard 1000 --start s
solve i o j --seed 5 --workers 2 --moves 30 --heat 300 --hard 1000 --start s --retries 1
solve i o j --seed 5 --workers 8 --moves 30 --heat 300 --hard 1000 --start s
solve i o j --seed 5 --workers 8 --moves 30 --heat 300 --hard 1000 --start s --retries 3
solve i o j --seed 5 --workers 64 --moves 30 --heat 300 --hard 1000 --start s
> replays
replay i j p --start s --freeze 1
solve i o j --seed 5 --workers 3 --moves 30 --heat 300 --hard 1000 --start s --freeze 1
solve i o j --seed 5 --workers 64 --moves 30 --heat 300 --hard 1000 --start s --retries 1 --freeze 1
> # two workers whom no gate holds
> replays
replay i j p --start s
solve i o j --seed 5 --workers 2 --moves 500 --heat 300 --hard 1000 --start s
> lines j 1001
";

#[test]
fn any_number_of_workers(rt: HostRuntime) {
    goes(&rt, rt.alloc(), REPLAYED);
}

// Searches with 2,000 moves each, from the fill of a generated instance.
const GENERATED: &str = "
> 0 gen 7 i
> replays
replay i j p --fill
solve i o j --seed 5 --workers 1 --moves 2000 --heat 50 --hard 100000 --fill
solve i o j --seed 5 --workers 2 --moves 2000 --heat 50 --hard 100000 --fill --retries 1
solve i o j --seed 5 --workers 3 --moves 2000 --heat 0 --hard 100000 --fill
solve i o j --seed 5 --workers 8 --moves 2000 --heat 50 --hard 100000 --fill --retries 3
solve i o j --seed 5 --workers 64 --moves 2000 --heat 20 --hard 100000 --fill --retries 1
";

#[test]
fn any_number_of_workers_on_a_generated_instance(rt: HostRuntime) {
    goes(&rt, rt.alloc(), GENERATED);
}
