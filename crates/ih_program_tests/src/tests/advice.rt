//! Whole calls of advise, over files in memory.

use crate::tests::program::goes;

// A stay one day later lowers the score by 1, another nurse in the first night by 16, and each is the best of its
// choice. Each of two workers looks for its advice before the other is done. No single change of the ward's best
// timetable lowers the score.
const ADVICE: &str = "
> lay two admitted
> 0 advise i s --hard 1000 --workers 2
setstay:0,1,0,0 -1 0,0,0,0,0,0,0,0,0,-1,0,0,0,0,0,1,0
setcare:0,2,1 -16 0,0,0,0,0,0,0,0,0,0,-2,2,0,0,0,0,0
improvable 2
> hold 1 advise i s --hard 1000 --workers 2
setstay:0,1,0,0 -1 0,0,0,0,0,0,0,0,0,-1,0,0,0,0,0,1,0
setcare:0,2,1 -16 0,0,0,0,0,0,0,0,0,0,-2,2,0,0,0,0,0
improvable 2
> lay ward covered
> 0 advise i s --hard 1000 --workers 1
locally best
";

#[test]
fn advice(rt: HostRuntime) {
    goes(&rt, rt.alloc(), ADVICE);
}
