//! Whole calls of why, over files in memory.

use crate::tests::program::goes;

// Of the two patients' ward nothing is said, nor of one that is merely full; of a plan it is said who waits, and a weight
// of 0 is warned of. Then the surgeon has too little time for one, or for both together; then the ward has no bed and
// nobody works late. A full standard output takes no text. A refused file is named.
const REASONS: &str = r#"
> lay two admitted
> 0 why i
nothing found that no plan can keep
> cut 1 6 why i
> 0 why i s
nothing found that no plan can keep
p1 could come on day 1 to r0, theatre t0 only by breaking rules: 1 more, cost +6
> change i two
"room_mixed_age":5
"room_mixed_age":0
> 0 why i --workers 1
nothing found that no plan can keep
warning: the weight of mixed ages is 0
> change i two
"mandatory":false
"mandatory":true,"surgery_due_day":1
> change i i
[100,100]
[60,30]
> 9 why i
no feasible plan exists: together the patients who must be admitted need more than there is…
> change i ward
"capacity":2
"capacity":1
> 0 why i
nothing found that no plan can keep
> change i two
"max_surgery_time":[100,100]
"max_surgery_time":[50,59]
> 9 why i
p0 must be admitted, and s0 has no 60 minutes on any day from 0 to 1
> cut 1 6 why i
> change i ward
"capacity":2
"capacity":0
> change i i
},{"day":0,"shift":"late","max_load":2}
}
> 9 why i
r0 has more occupants than beds on day 0: 1 for 0
nobody works on day 0, late, and r0 is occupied
> 3 why s
s: instance refused: …
> store i
> 3 why i
i: instance refused: NotJson at $
  line 1, column 1: the file is empty
> 2 why k
cannot read k
> each 1 error: …'--help'.
why
why i s t
why i --rounds 3
why i --workers 0
whys i
> says 0 why --help
Says why no plan can keep all rules, and who could still be admitted…
> no o
"#;

#[test]
fn reasons(rt: HostRuntime) {
    goes(&rt, rt.alloc(), REASONS);
}
