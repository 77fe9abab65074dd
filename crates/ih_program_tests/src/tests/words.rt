//! Words that name a call, and words that name none.

use crate::tests::program::goes;

// Words that name a call, which finds no instance, and words that name none: among them each option's greatest value,
// and one more. Rounds and chains freeze nothing and try nothing again; a chain's length is said; the products of
// workers, moves and tries, rounds or lengths are limited.
const WORDS: &str = "
> each 2 cannot read i
solve i o j --seed 18446744073709551615 --workers 1 --moves 1000000 --heat 1000000 --hard 1000000
solve i o j --seed 0 --workers 64 --moves 0 --heat 0 --hard 0 --start s --freeze 56 --retries 7
rounds i o j --seed 0 --workers 1 --moves 62500 --heat 1000000 --hard 1000000 --rounds 16
chain i o j --seed 0 --workers 1 --moves 125000 --heat 1000000 --hard 1000000 --length 8
replay i j o --start s --freeze 56
advise i s --hard 1000000 --workers 64
solve i o j --seed 0 --workers 64 --moves 15625 --heat 0 --hard 1000
rounds i o j --seed 0 --workers 50 --moves 1250 --heat 0 --hard 1000 --rounds 16
advise i s --hard 0 --workers 64
chain i o j --seed 0 --workers 1 --moves 0 --heat 0 --hard 1000 --length 1
chain i o j --seed 0 --workers 50 --moves 2500 --heat 0 --hard 1000 --length 8
chain i o j --seed 0 --workers 2 --moves 2 --heat 0 --hard 1000 --length 8 --start s
> # no words
> 1
= usage
> # one more than the greatest
> each 1 = usage
solve i o j --seed 18446744073709551616 --workers 1 --moves 2 --heat 0 --hard 0
solve i o j --seed 0 --workers 1 --moves 1000001 --heat 0 --hard 0
solve i o j --seed 0 --workers 1 --moves 2 --heat 1000001 --hard 0
solve i o j --seed 0 --workers 1 --moves 2 --heat 0 --hard 1000001
solve i o j --seed 0 --workers 1 --moves 2 --heat 0 --hard 0 --retries 8
solve i o j --seed 0 --workers 1 --moves 2 --heat 0 --hard 0 --start s --freeze 57
replay i j o --start s --freeze 57
salvage i j o --start s --freeze 57
rounds i o j --seed 0 --workers 1 --moves 62501 --heat 0 --hard 0 --rounds 16
rounds i o j --seed 0 --workers 65 --moves 2 --heat 0 --hard 0 --rounds 1
chain i o j --seed 0 --workers 1 --moves 125001 --heat 0 --hard 0 --length 8
gen 18446744073709551616 o
demo 18446744073709551616
> # names, options and limits
> each 1 = usage
solve i o o --seed 0 --workers 1 --moves 2 --heat 0 --hard 1000
solve i o j --seed 0 --workers 65 --moves 2 --heat 0 --hard 1000
solve i o j --seed 0 --workers 64 --moves 15626 --heat 0 --hard 1000
solve i o j --seed 0 --workers 64 --moves 15625 --heat 0 --hard 1000 --retries 1
solve i o j --seed 0 --workers 1 --moves 2 --heat 0 --hard 1000 --freeze 0
replay i j o --start s --freeze 1 --fill
salvage i j j
gen o 7
demo
> # rounds
> each 1 = usage
rounds i o j --seed 0 --workers 1 --moves 2 --heat 0 --hard 1000 --rounds 0
rounds i o j --seed 0 --workers 1 --moves 2 --heat 0 --hard 1000 --rounds 17
rounds i o j --seed 0 --workers 50 --moves 1251 --heat 0 --hard 1000 --rounds 16
rounds i o j --seed 0 --workers 1 --moves 2 --heat 0 --hard 1000 --rounds 2 --start s --freeze 1
rounds i o j --seed 0 --workers 1 --moves 2 --heat 0 --hard 1000 --rounds 2 --retries 1
rounds i o j --seed 0 --workers 1 --moves 2 --heat 0 --hard 1000
> # advice
> each 1 = usage
advise i s --hard 1000
advise i s --workers 2
advise i s --hard 1000 --workers 0
advise i s --hard 1000 --workers 65
advise i s --hard 1000001 --workers 1
advise i i --hard 1000 --workers 2
> # chains
> each 1 = usage
chain i o j --seed 0 --workers 1 --moves 2 --heat 0 --hard 1000
chain i o j --seed 0 --workers 1 --moves 2 --heat 0 --hard 1000 --length 0
chain i o j --seed 0 --workers 1 --moves 2 --heat 0 --hard 1000 --length 9
chain i o j --seed 0 --workers 50 --moves 2501 --heat 0 --hard 1000 --length 8
chain i o j --seed 0 --workers 1 --moves 500001 --heat 0 --hard 1000 --length 2
chain i o j --seed 0 --workers 1 --moves 2 --heat 0 --hard 1000 --length 2 --start s --freeze 1
chain i o j --seed 0 --workers 1 --moves 2 --heat 0 --hard 1000 --length 2 --retries 1
chain i o j --seed 0 --workers 1 --moves 2 --heat 0 --hard 1000 --length 2 --rounds 2
chain i o o --seed 0 --workers 1 --moves 2 --heat 0 --hard 1000 --length 2
solve i o j --seed 0 --workers 1 --moves 2 --heat 0 --hard 1000 --length 2
";

#[test]
fn words(rt: HostRuntime) {
    goes(&rt, rt.alloc(), WORDS);
}
