//! Whole calls of improve where OUT is there.

use crate::tests::program::goes;

// A plan of OUT that is as cheap as the best stays, and the report is on it. One that breaks a rule makes way, and so does a
// dearer one. A start may be OUT itself. `--replace` doesn't read OUT.
const KEPT: &str = "
> lay two uncovered
> says 0 improve i o --seed 1 --workers 1 --attempts 2000 --rounds 2 --hot 50 --cold 1 --start s --keep 0
round 1 of 2: 1000 attempts, cost 70, temperature 7
round 2 of 2: 2000 attempts, cost 70, temperature 1
report 0 0 0 0 0 0 0 0 0, 0 0 3 0 2 0 1 0, 70
> says 0 improve i o --workers 1 --attempts 0 --rounds 1 --start s --keep 0 --draft d
round 1 of 1: 0 attempts, none yet, temperature …
o keeps the plan of cost 70
report 0 0 0 0 0 0 0 0 0, 0 0 3 0 2 0 1 0, 70
> no d
> says 0 improve i o --workers 1 --attempts 0 --rounds 1 --start o --keep 0
round 1 of 1: 0 attempts, cost 70, temperature …
o keeps the plan of cost 70
report 0 0 0 0 0 0 0 0 0, 0 0 3 0 2 0 1 0, 70
> store p
= admitted
> lay two admitted
> says 0 improve i o --workers 1 --attempts 0 --rounds 1 --start s --keep 0
round 1 of 1: 0 attempts, cost 159, temperature …
o keeps the plan of cost 70
report 0 0 0 0 0 0 0 0 0, 0 0 3 0 2 0 1 0, 70
> says 0 improve i p --seed 0 --workers 1 --attempts 2000 --rounds 2 --hot 50 --cold 1 --start o --keep 0
round 1 of 2: 1000 attempts, cost 70, temperature …
cost 70
> same o p
> store p
= uncovered
> says 0 improve i p --workers 1 --attempts 0 --rounds 1 --start o --keep 0
round 1 of 1: 0 attempts, cost 70, temperature …
cost 70
> same o p
> says 0 improve i o --workers 1 --attempts 0 --rounds 1 --start s --keep 0 --replace
round 1 of 1: 0 attempts, cost 159, temperature …
cost 159
> 0 check i o
…
cost 159
";

#[test]
fn a_cheaper_plan_stays(rt: HostRuntime) {
    goes(&rt, rt.alloc(), KEPT);
}

// What is no plan of the instance is refused before the search, and stays; an OUT that can't be read too. Where nothing
// feasible is there or found, OUT stays and the draft is written.
const REFUSED: &str = "
> lay two uncovered
> store o
an older plan
> 4 improve i o --workers 1 --attempts 9 --start s --keep 0
o: older solution refused: NotJson at $
  line 1, column 1: texts stand between double quotes
> is o
an older plan
> anew
> lay two uncovered
> store o
= uncovered
> fail-read 3
> 2 improve i o --workers 1 --attempts 9 --start s --keep 0
cannot read o
> says 5 improve i o --workers 1 --attempts 0 --rounds 1 --start s --keep 0 --draft d
round 1 of 1: 0 attempts, none yet, temperature …
none found
> is o
= uncovered
> 9 check i d
…
";

#[test]
fn what_is_no_plan_is_refused(rt: HostRuntime) {
    goes(&rt, rt.alloc(), REFUSED);
}
