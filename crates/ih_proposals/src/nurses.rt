//! Nurses who work a shift.

ghost use Rattle.std.specs.Prelude.{◌≡◌, ◌<◌, IfSome, length};
ghost use Rattle.ih_tables.specs.Sizes.{nurse_count, shift_count};
ghost use Rattle.ih_tables.specs.Works.{working};

use crate::words::RandomWords;
use ih_tables::{Instance, NurseNo, Shift};

/// The nurse at an index of the list of those who work a shift.
#[inline(always)]
pub fn working_at(inst: &Instance, shift: Shift, index: usize) -> NurseNo
    requires shift { shift.0 < shift_count inst.now.draft }
    requires place { index < length (working inst.now.draft shift.0) }
    ensures { result.0 < nurse_count inst.now.draft }
{
    let working = inst.working(shift);
    working[index]
}

/// How many nurses work a shift.
#[inline(always)]
pub fn count_working(inst: &Instance, shift: Shift) -> u32
    requires { shift.0 < shift_count inst.now.draft }
    ensures { result ≡ length (working inst.now.draft shift.0) }
{
    let working = inst.working(shift);
    working.len() as u32
}

/// A nurse who works a shift, by a random word, where there is one.
pub fn draw_working(inst: &Instance, words: &mut RandomWords, shift: Shift) -> Option<NurseNo>
    requires { shift.0 < shift_count inst.now.draft }
    ensures { IfSome result (λ n. n.0 < nurse_count inst.now.draft) }
{
    let count = count_working(inst, shift);
    if count == 0 {
        None
    } else {
        Some(working_at(inst, shift, words.below(count) as usize))
    }
}
