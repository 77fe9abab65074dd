//! Whole calls of check, over files in memory.

use crate::tests::program::goes;

// The two patients' timetable keeps to all rules, and then an operation is a minute too long. A refused file is named.
const CHECKS: &str = r#"
> lay two admitted
> 0 check i s
= checked
> change i two
"surgery_duration":60
"surgery_duration":61
> 9 check i s
report 0 0 0 1 0 0 0 0 0, 1 2 2 0 1 0 0 1, 159
> cut 1 6 check i s
> 4 check i i
i: solution refused: …
> 2 check i k
cannot read k
> 3 check s i
s: instance refused: …
> each 1 error: …'--help'.
check i
check i s o
> no o
"#;

#[test]
fn checks(rt: HostRuntime) {
    goes(&rt, rt.alloc(), CHECKS);
}
