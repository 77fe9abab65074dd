//! The laws, each on a function that does nothing: what is outside a footprint stays, and what is done rests on the
//! footprint's contents alone.

ghost use Rattle.ih_footprint.specs.Laws.{WritesKeepTheRest, WritesInARowKeepTheRest, MovesKeepTheRest, WritesAreLocal};
ghost use Rattle.ih_footprint.specs.Laws.{WritesInARowAreLocal, MovesAreLocal, SeriesKeepTheRest, SeriesAreLocal};

use ih_tables::Instance;

/// A write, writes in a row, a move, and moves in a row change no content outside their footprint.
pub fn footprints_keep_the_rest(_inst: &Instance)
    ensures write { WritesKeepTheRest _inst.now.draft }
    ensures writes { WritesInARowKeepTheRest _inst.now.draft }
    ensures mv { MovesKeepTheRest _inst.now.draft }
    ensures moves { SeriesKeepTheRest _inst.now.draft }
{}

/// What they touch and leave rests on the contents of their footprint alone, and for moves also what they write and
/// cost.
pub fn footprints_are_local(_inst: &Instance)
    ensures write { WritesAreLocal _inst.now.draft }
    ensures writes { WritesInARowAreLocal _inst.now.draft }
    ensures mv { MovesAreLocal _inst.now.draft }
    ensures moves { SeriesAreLocal _inst.now.draft }
{}
