//! Whole calls of searches by chains, over files in memory.

use crate::tests::program::goes;

// Both moves of a chain stand in one line, with one price. A replay takes no journal of chains. Chains of one move
// leave what single moves leave: the same lines behind the heading, and the same solution.
const SHORT: &str = r#"
> # both moves in one line
> store i
= ward
> 0 chain i o j --seed 0 --workers 1 --moves 1 --heat 0 --hard 1000 --length 2
best 1 of 1
report 0 0 0 0 0 0 0 0 0, 0 1 1 0 0 0 0 0, 12
> has j
ihchain 1 seed=0 workers=1 moves=1 heat=0 hard=1000 length=2
0 0 0 0 nurserun:0,0,0,5;nurse:0,2,0 0,0,0,0,0,0,0,0,-3,0,1,1,0,0,0,0,0 accepted
> is o
= covered
> 8 replay i j p
journal refused: line 1: Heading
> no p
> # chains of one move
> 0 solve i o j --seed 0 --workers 1 --moves 2 --heat 0 --hard 1000
= found
> 0 chain i p k --seed 0 --workers 1 --moves 2 --heat 0 --hard 1000 --length 1
= found
> same-lines j k
> same o p
> # a chain that another made stale: none of its moves is made
> hold 1 chain i o j --seed 18446744073709551615 --workers 2 --moves 1 --heat 1000000 --hard 1000 --start s --length 1
best 1 of 2
…
cost 139
> has j
ihchain 1 seed=18446744073709551615 workers=2 moves=1 heat=1000000 hard=1000 length=1
0 1 0 0 nurserun:1,0,0,5 0,0,0,0,0,0,0,0,0,0,-2,0,0,0,0,0,0 accepted
1 0 0 0 place:0,1,1,1 0,1,0,0,0,0,0,0,3,-1,0,-1,0,0,0,1,0 stale:roomshift.0.0:0:1
> hold 1 chain i o j --seed 18446744073709551615 --workers 2 --moves 1 --heat 1000000 --hard 1000 --start s --length 2
best 1 of 2
…
cost 139
> has j
ihchain 1 seed=18446744073709551615 workers=2 moves=1 heat=1000000 hard=1000 length=2
0 1 0 0 nurserun:1,0,0,5;nurse:1,5,0 0,0,0,0,0,0,0,0,0,0,-2,0,0,0,0,0,0 accepted
1 0 0 0 place:0,1,1,1;settheatre:1,1 0,1,0,0,0,0,0,0,3,-1,0,-1,0,0,0,1,0 stale:roomshift.0.0:0:1
> # each of a hundred chains beside another: some are accepted, and some are stale by what the other made since
> hold 100 chain i o j --seed 18446744073709551615 --workers 2 --moves 100 --heat 1000000 --hard 1000 --start s --length 3
…
> pairs j
> shows j
 accepted
> shows j
 stale:
"#;

#[test]
fn chains(rt: HostRuntime) {
    goes(&rt, rt.alloc(), SHORT);
}

// Searches from the fill of a generated instance, and how many lines their journals have. Single moves and chains of
// one leave the same. With one worker the same call leaves the same bytes.
const GENERATED: &str = "
> 0 gen 7 i
> alike
solve i o j --seed 5 --workers 1 --moves 500 --heat 50 --hard 100000 --fill
chain i p k --seed 5 --workers 1 --moves 500 --heat 50 --hard 100000 --fill --length 1
> same-lines j k
> same o p
> alike
chain i o j --seed 5 --workers 1 --moves 300 --heat 50 --hard 100000 --fill --length 3
chain i p k --seed 5 --workers 1 --moves 300 --heat 50 --hard 100000 --fill --length 3
> same j k
> same o p
> lines j 301
> says 0 chain i o j --seed 5 --workers 2 --moves 100 --heat 50 --hard 100000 --fill --length 8
…
> lines j 201
> says 0 chain i o j --seed 5 --workers 8 --moves 200 --heat 20 --hard 100000 --fill --length 3
…
> lines j 1601
> says 0 chain i o j --seed 5 --workers 64 --moves 30 --heat 20 --hard 100000 --fill --length 8
…
> lines j 1921
";

#[test]
fn any_number_of_workers_by_chains(rt: HostRuntime) {
    goes(&rt, rt.alloc(), GENERATED);
}
