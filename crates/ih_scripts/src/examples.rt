//! Files and texts that scripts name.

use ih_fixtures::{TWO_PATIENTS, WARD};

// The mandatory patient is admitted on day 0, and one nurse has the room in all shifts.
const ONE_ADMITTED: &str =
    r#"{"patients":[{"id":"p0","admission_day":0,"room":"r0","operating_theater":"t0"},
{"id":"p1","admission_day":"none"}],
"nurses":[{"id":"n0","assignments":[{"day":0,"shift":"early","rooms":["r0"]},{"day":0,"shift":"late","rooms":["r0"]},
{"day":0,"shift":"night","rooms":["r0"]},{"day":1,"shift":"early","rooms":["r0"]},{"day":1,"shift":"late","rooms":["r0"]},
{"day":1,"shift":"night","rooms":["r0"]}]}]}"#;

// The ward's nurse has the room in all shifts; the keys stand in another order, and one room is named twice.
const COVERED_START: &str =
    r#"{"costs":["x"],"patients":[],"nurses":[{"id":"n0","assignments":[{"rooms":["r0"],
"shift":"night","day":0},{"shift":"early","day":0,"rooms":["r0","r0"]},{"day":0,"shift":"late","rooms":["r0"]}]}]}"#;

// Nobody is admitted, and no nurse is anywhere.
const NO_NURSES: &str = r#"{"patients":[],"nurses":[]}"#;

// The ward's file in which the nurse has the room in all shifts, as it is written.
const COVERED_SOLUTION: &str =
    r#"{"nurses":[{"assignments":[{"day":0,"rooms":["r0"],"shift":"early"},{"day":0,"rooms":["r0"],"shift":"late"},{"day":0,"rooms":["r0"],"shift":"night"}],"id":"n0"}],"patients":[]}"#;

// What the first program says of words that name no call.
const USAGE: &str =
    "usage: solve INSTANCE OUT JOURNAL, replay INSTANCE JOURNAL OUT, salvage INSTANCE JOURNAL OUT, check INSTANCE SOLUTION, advise INSTANCE SOLUTION, chain INSTANCE OUT JOURNAL, rounds INSTANCE OUT JOURNAL, gen NUMBER OUT or demo NUMBER\n";

// The report on one admitted patient.
const CHECKED: &str =
    "V1 0\nV2 0\nV3 0\nV4 0\nV5 0\nV6 0\nV7 0\nV8 0\nV9 0\nS1 1 x 5 = 5\nS2 2 x 10 = 20\nS3 2 x 2 = 4\nS4 0 x 1 = 0\nS5 1 x 30 = 30\nS6 0 x 7 = 0\nS7 0 x 4 = 0\nS8 1 x 100 = 100\ncost 159\n";

// The journal of the search on the ward.
const JOURNAL: &str = "ihjournal 1 seed=0 workers=1 moves=2 heat=0 hard=1000
0 0 0 0 nurserun:0,0,0,5 0,0,0,0,0,0,0,0,-3,0,1,1,0,0,0,0,0 accepted
1 0 1 1 nurse:0,2,0 0,0,0,0,0,0,0,0,0,0,0,0,0,0,0,0,0 accepted
";

// The journal of the search on the ward, without its last line.
const ONE_ENTRY: &str = "ihjournal 1 seed=0 workers=1 moves=2 heat=0 hard=1000
0 0 0 0 nurserun:0,0,0,5 0,0,0,0,0,0,0,0,-3,0,1,1,0,0,0,0,0 accepted
";

// What is said of the search.
const FOUND: &str =
    "best 1 of 2\nV1 0\nV2 0\nV3 0\nV4 0\nV5 0\nV6 0\nV7 0\nV8 0\nV9 0\nS1 0 x 5 = 0\nS2 1 x 10 = 10\nS3 1 x 2 = 2\nS4 0 x 1 = 0\nS5 0 x 30 = 0\nS6 0 x 7 = 0\nS7 0 x 4 = 0\nS8 0 x 100 = 0\ncost 12\n";

// What is said of a search on the instance that the number 7 generates.
const DEMO: &str =
    "demo 7\naccepted 904 declined 1096 stale 0\nbest 0 of 2000\nV1 0\nV2 0\nV3 0\nV4 0\nV5 0\nV6 0\nV7 0\nV8 0\nV9 0\nS1 132 x 5 = 660\nS2 20 x 10 = 200\nS3 1448 x 5 = 7240\nS4 1334 x 1 = 1334\nS5 52 x 30 = 1560\nS6 45 x 10 = 450\nS7 317 x 10 = 3170\nS8 75 x 300 = 22500\ncost 37114\n";

// The best of the two patients' greedy first timetable, with no move.
const FILLED: &str =
    "best 0 of 0\nV1 0\nV2 0\nV3 0\nV4 0\nV5 0\nV6 0\nV7 0\nV8 0\nV9 0\nS1 0 x 5 = 0\nS2 0 x 10 = 0\nS3 4 x 2 = 8\nS4 0 x 1 = 0\nS5 2 x 30 = 60\nS6 0 x 7 = 0\nS7 1 x 4 = 4\nS8 0 x 100 = 0\ncost 72\n";

// What is said of the search on the ward, where its journal is cut off inside its third line.
const SALVAGED: &str =
    "salvaged 1\nbest 1 of 1\nV1 0\nV2 0\nV3 0\nV4 0\nV5 0\nV6 0\nV7 0\nV8 0\nV9 0\nS1 0 x 5 = 0\nS2 1 x 10 = 10\nS3 1 x 2 = 2\nS4 0 x 1 = 0\nS5 0 x 30 = 0\nS6 0 x 7 = 0\nS7 0 x 4 = 0\nS8 0 x 100 = 0\ncost 12\n";

// The best of the two patients' greedy first timetable, as a solution.
const FILLED_SOLUTION: &str =
    r#"{"nurses":[{"assignments":[{"day":0,"rooms":["r0"],"shift":"early"},{"day":0,"rooms":["r0"],"shift":"late"},{"day":1,"rooms":["r0"],"shift":"early"},{"day":1,"rooms":["r0"],"shift":"late"},{"day":1,"rooms":["r0"],"shift":"night"}],"id":"n0"},{"assignments":[{"day":0,"rooms":["r1"],"shift":"early"},{"day":0,"rooms":["r1"],"shift":"late"},{"day":0,"rooms":["r0","r1"],"shift":"night"}],"id":"n1"}],"patients":[{"admission_day":1,"id":"p0","operating_theater":"t0","room":"r0"},{"admission_day":0,"id":"p1","operating_theater":"t0","room":"r1"}]}"#;

/// The text of this name, or none.
pub fn given(name: &str) -> &'static str {
    match name {
        "ward" => WARD,
        "two" => TWO_PATIENTS,
        "admitted" => ONE_ADMITTED,
        "uncovered" => NO_NURSES,
        "covered-start" => COVERED_START,
        "covered" => COVERED_SOLUTION,
        "usage" => USAGE,
        "checked" => CHECKED,
        "journal" => JOURNAL,
        "one-entry" => ONE_ENTRY,
        "found" => FOUND,
        "salvaged" => SALVAGED,
        "demo" => DEMO,
        "filled" => FILLED,
        "filled-solution" => FILLED_SOLUTION,
        _ => "",
    }
}
