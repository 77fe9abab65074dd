//! Whole calls of view, over files in memory.

use crate::tests::program::goes;

// No page is written where a file is missing or refused, or where words name no call, which is explained. Help is given
// to those who ask. A page whose write is to fail is cut off, which is said.
const NO_PAGES: &str = "
> lay ward covered
> 2 view k s p
cannot read k
> 2 view i k p
cannot read k
> store i
> 3 view i s p
i: instance refused: NotJson at $
  line 1, column 1: the file is empty
> store i
= ward
> store s
> 4 view i s p
s: solution refused: NotJson at $
  line 1, column 1: the file is empty
> says 1 view i s
error: …'--help'.
> says 1 view i s s
error: …'--help'.
> says 1 look i s p
error: unrecognized subcommand 'look'…'--help'.
> says 0 view --help
Writes a solution…
> says 0 --help
Makes timetables…
> no p
> lay ward covered
> fail-write 1 9
> 6 view i s p
cannot write p
> is p
<!doctype
";

#[test]
fn calls_without_a_page(rt: HostRuntime) {
    goes(&rt, rt.alloc(), NO_PAGES);
}

// What the data of pages of the two patients has.
const SHOWN: &str = "
> # two on a day in one theatre are above its limit, and in a room without a nurse
> lay two admitted
> change s admitted
{\"id\":\"p1\",\"admission_day\":\"none\"}
{\"id\":\"p1\",\"admission_day\":0,\"room\":\"r1\",\"operating_theater\":\"t0\"}
> 0 view i s p
> shows p
,\"findings\":{\"costs\":[[[1,1,0,0]],[[2,4,0,2]],[[1,6,0,0],[1,6,2,0]],[],[[1,2,0,0]],[],[],[]],\"rules\":[[],[],[],[[40,2,0,0]],[],[],[],[],[[1,4,1,0],[1,4,1,1],[1,4,1,2]]]},
> shows p
,\"stays\":[[0,0,0],[0,1,0]],\"waits\":[]}}</script>
> # nobody is admitted, a mandatory patient among them
> lay two admitted
> change s admitted
\"admission_day\":0,\"room\":\"r0\",\"operating_theater\":\"t0\"
\"admission_day\":\"none\"
> 0 view i s p
> shows p
{\"bill\":{\"cost\":122,\"costs\":[0,2,1,0,0,0,0,1],\"rules\":[0,0,0,0,1,0,0,0,0]},
> shows p
\"rules\":[[],[],[],[],[[1,0,0,0]],[],[],[],[]]},
> shows p
,\"stays\":[null,null],\"waits\":[[0,{\"broken\":0,\"cost\":36,\"place\":[1,0,0]}],[1,{\"broken\":0,\"cost\":-4,\"place\":[1,0,0]}]]}}</script>
> # a nurse who is off has an empty room
> change i two
[{\"day\":0,\"shift\":\"early\",\"max_load\":10},
[
> change s admitted
\"nurses\":[
\"nurses\":[{\"id\":\"n1\",\"assignments\":[{\"day\":0,\"shift\":\"early\",\"rooms\":[\"r1\"]}]},
> 0 view i s p
> shows p
\"plan\":{\"care\":[[0,0,0,0,0,0],[1,null,null,null,null,null]],
> shows p
\"rules\":[[],[],[],[],[],[],[],[[1,4,1,0]],[]]},
> # no text of a file or of the call ends the data, whatever it holds
> change i two
\"p0\"
\"p</script><b>&\\\"'\u{2028}\u{2029}\u{202e}\"
> change s admitted
\"p0\"
\"p</script><b>&\\\"'\u{2028}\u{2029}\u{202e}\"
> 0 view i s p --title <Ward>
> shows p
,\"id\":\"p\\u003c/script\\u003e\\u003cb\\u003e\\u0026\\\"'\\u2028\\u2029\u{202e}\",
> shows p
,\"heading\":{\"instance\":\"i\",\"older\":null,\"solution\":\"s\",\"title\":\"\\u003cWard\\u003e\"},
";

#[test]
fn what_a_page_shows(rt: HostRuntime) {
    goes(&rt, rt.alloc(), SHOWN);
}
