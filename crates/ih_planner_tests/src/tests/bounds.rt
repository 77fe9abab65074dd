//! Calls of `bound`: what no feasible timetable costs less than, with any number of workers.

use crate::tests::program::goes;

// The number is the same for several numbers of workers. One patient alone in the first room costs 159. Of a ward without
// patients the bound is the cost itself. A mandatory patient whose surgeon never works makes each timetable break a
// rule. A solution without the nurses breaks one too. Words that name no call are explained. A full standard output
// takes no text: what was found out is answered all the same, if it isn't that all went well. With a bed less the bound is
// 60, and a bed more on the first day takes 3 off.
const BOUNDS: &str = r#"
> lay two admitted
> 0 bound i
no feasible timetable costs less than 56
delay 0, left out 0, theatres 50, nurses 6; rounds 526
> alike
bound i
bound i --workers 1
> alike
bound i
bound i --workers 64
> says 0 bound i s
no feasible timetable costs less than 56
delay 0, left out 0, theatres 50, nurses 6; rounds 526
…
this one costs 159, at most 184.0 % above the best
> store s
= uncovered
> says 9 bound i s
no feasible timetable costs less than 56
delay 0, left out 0, theatres 50, nurses 6; rounds 526
…this one breaks hard rules
> change i two
"capacity":2
"capacity":1
> 0 bound i --prices
no feasible timetable costs less than 60
delay 4, left out 0, theatres 50, nurses 6; rounds 526
60 more minutes in theatre t0 on day 0: up to 30 points
60 more minutes in theatre t0 on day 1: up to 30 points
60 more minutes in theatre t1 on day 0: up to 30 points
60 more minutes in theatre t1 on day 1: up to 30 points
one more bed on day 0: up to 3 points
these are hints for the cost: by so much the bound above falls, at its prices
> lay two admitted
> cut 1 6 bound i
> cut 1 1 bound
> cut 1 2 bound k
> each 1 error: …'--help'.
bound
bound i --workers 65
bound i s --rounds 0
> lay ward covered
> says 0 bound i s
no feasible timetable costs less than 12
…
this one costs 12, at most 0.0 % above the best
> change i two
"max_surgery_time":[100,100]
"max_surgery_time":[0,0]
> store s
= admitted
> 9 bound i --prices
no feasible timetable exists
> 9 bound i s
no feasible timetable exists
this one breaks hard rules
> no o
"#;

#[test]
fn bounds(rt: HostRuntime) {
    goes(&rt, rt.alloc(), BOUNDS);
}
