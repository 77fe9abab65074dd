//! Whole calls of view with the date of the first day, and since an older solution.

use crate::tests::program::goes;

// What changed since an older solution: another day of a patient, another nurse of a room, and nothing.
const SINCE: &str = r#"
> lay two admitted
> change o admitted
"admission_day":0
"admission_day":1
> 0 view i s p --since o
> shows p
,"changes":{"bill":{"cost":158,"costs":[0,2,2,0,1,0,1,1],"rules":[0,0,0,0,0,0,0,0,0]},"patients":[[0,[1,0,0]]],"shifts":[[],[]]},
> shows p
,"heading":{"instance":"i","older":"o","solution":"s","title":"i"},
> change o admitted
{"day":0,"shift":"late","rooms":["r0"]},

> 0 view i s p --since o
> shows p
"patients":[],"shifts":[[[1,null]],[]]},
> store o
= admitted
> 0 view i s p --since o
> shows p
"patients":[],"shifts":[[],[]]},
"#;

#[test]
fn what_changed(rt: HostRuntime) {
    goes(&rt, rt.alloc(), SINCE);
}

// The date of the first day, a leap day and the last date that there is. No page is written where the older solution isn't there, is
// refused or has another file's name, or where a word names no day.
const DATED: &str = "
> lay two admitted
> 0 view i s p --from 2028-02-29
> shows p
,\"first\":[2028,2,29],
> 0 view i s p --from 9999-12-31
> shows p
,\"first\":[9999,12,31],
> store o
> 2 view i s q --since k
cannot read k
> 4 view i s q --since o
o: older solution refused: NotJson at $
  line 1, column 1: the file is empty
> says 1 view i s q --since s
error: two files…'--help'.
> says 1 view i s q --from 2026-02-29
error: '2026-02-29' for '--from'…'--help'.
> says 1 view i s q --from 2026-1-05
error: '2026-1-05' for '--from'…'--help'.
> says 1 view i s q --from 20260105
error: '20260105' for '--from'…'--help'.
> says 1 view i s q --from 1900-02-29
error: '1900-02-29' for '--from'…'--help'.
> no q
";

#[test]
fn days_have_dates(rt: HostRuntime) {
    goes(&rt, rt.alloc(), DATED);
}
