//! Attempts of a worker's draws.

ghost use Rattle.std.specs.Prelude.{◌≡◌, ℕ, ◌+◌, ◌≤◌, map};
ghost use Rattle.std.specs.List.{range_with_len};
ghost use Rattle.ih_plan.specs.{Draws.move_of, Draws.stream_at, Series.AreMoves};

use ih_cellbook::Attempted;
use ih_moves::Stream;
use ih_tables::Instance;

/// The next draws of a stream, so many of them, as one attempt.
pub(crate) fn drawn<A: Attempted>(inst: &Instance, stream: &mut Stream, count: u32) -> A
    requires some { 1 ≤ count }
    requires few { count ≤ A.most_moves }
    ensures inside { AreMoves inst.now.draft (A.moves result) }
    ensures drawn { (seed w i : ℕ) → stream.old ≡ stream_at seed w i
        → (A.moves result ≡ map (move_of inst.now.draft seed w) (range_with_len i count))
        × (stream.new ≡ stream_at seed w (i + count)) }
{
    let first = stream.draw(inst);
    let mut attempt = A::of(first);
    for _place in 1..count {
        let mv = stream.draw(inst);
        attempt.push(mv);
    }
    attempt
}
