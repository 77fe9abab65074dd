//! The page of the ward of one day.

use crate::tests::program::goes;

// The page of the timetable in which the nurse has the room in all shifts. The night's nurse has a skill level less than
// the occupant needs. It is written in place of an older one, if there is one. Nothing is said, so a full standard output
// does no harm.
const PAGE: &str = r#"
> lay ward covered
> store p
an older page
> 0 view i s p
> shows p
<script type="application/json" id="data">{"bill":{"cost":12,"costs":[0,1,1,0,0,0,0,0],"rules":[0,0,0,0,0,0,0,0,0]},"changes":null,"findings":{"costs":[[],[[1,4,0,2]],[[1,6,0,0]],[],[],[],[],[]],"rules":[[],[],[],[],[],[],[],[],[]]},"first":null,"heading":{"instance":"i","older":null,"solution":"s","title":"i"},"instance":{"ages":["child","adult","old"],"days":1,"persons":{"occupants":[{"person":{"age":1,"gender":"A","id":"a0","loads":[2,1,1],"skills":[1,0,2],"stay":1},"room":0}],"patients":[]},"places":{"rooms":[{"capacity":2,"id":"r0"}],"theatres":[]},"shifts":["early","late","night"],"staff":{"nurses":[{"id":"n0","shifts":[[0,0,2],[0,1,2],[0,2,2]],"skill":1}],"surgeons":[]},"weights":[5,10,2,1,30,7,4,100]},"plan":{"care":[[0,0,0]],"stays":[],"waits":[]}}</script>
> cut 1 0 view i s q
> same p q
"#;

#[test]
fn a_page_is_written(rt: HostRuntime) {
    goes(&rt, rt.alloc(), PAGE);
}
