//! How many distinct nurses a person has over its stay.

ghost use Rattle.std.specs.Prelude.{◌≡◌, ◌<◌, ◌≤◌, ◌+◌, ◌*◌, ◌==◌, ◌||◌, not, ℕ, length, map, IfSome, option_map};
ghost use Rattle.std.specs.{Int.bit_at, List.range_with_len};
ghost use Rattle.ih_tables.specs.{declared.ids.NurseNo.NurseNo, Sizes.room_count, Sizes.shift_count};
ghost use Rattle.ih_plan.specs.{Timetable.IsPlanOf, Timetable.care_of, Costs.distinct_nurses, Costs.is_number};
ghost use Rattle.ih_plan.specs.{Sums.bit, Sums.count_below};
ghost use Rattle.ih_nurses.specs.{Marks.is_marked, ShiftSpans.IsShiftSpan, ShiftSpans.nurses_over};

use crate::shift_spans::ShiftSpan;
use ih_plan::{Plan, nurse_at};
use ih_tables::{Instance, NurseNo, RoomNo, Shift};

// 1 where it wasn't met, and 0 where it was.
#[inline(always)]
fn unmet(met: bool) -> u32
    ensures { result ≡ bit (not met) }
{
    if met { 0 } else { 1 }
}

// Whether a bit of a word is 1.
#[inline(always)]
fn is_set(word: u64, index: u32) -> bool
    requires { index < 64 }
    ensures { result ≡ (bit_at word index == 1) }
{
    (word >> index) & 1 == 1
}

// Marks a nurse, where there is one, and tells how many are new: 1 or 0.
#[inline(always)]
fn meet(seen: &mut [u64], nurse: Option<NurseNo>) -> u32
    requires { IfSome nurse (λ a. a.0 < 64 * length seen.old) }
    ensures len { length seen.new ≡ length seen.old }
    ensures each { (i : ℕ) → is_marked seen.new i
        ≡ (is_marked seen.old i || is_number (option_map (λ (n : NurseNo). n.0) nurse) i) }
    ensures count { (m : ℕ) → IfSome nurse (λ a. a.0 < m)
        → count_below m (is_marked seen.new) ≡ count_below m (is_marked seen.old) + result }
    ensures bound { result ≤ 1 }
{
    match nurse {
        None => 0,
        Some(a) => {
            let place = (a.0 / 64) as usize;
            let word = seen[place];
            seen[place] = word | (1 << (a.0 % 64));
            unmet(is_set(word, a.0 % 64))
        }
    }
}

// How many distinct nurses a room has in `len` shifts, from shift `from` on.
fn seen_in(inst: &Instance, plan: &Plan, room: RoomNo, from: u32, len: u32) -> u32
    requires plan { IsPlanOf inst.now.draft plan.now }
    requires room { room.0 < room_count inst.now.draft }
    requires shifts { from + len ≤ shift_count inst.now.draft }
    ensures { result ≡ distinct_nurses inst.now.draft (map (care_of plan.now room.0) (range_with_len from len)) }
{
    // One bit for each nurse that an instance may have.
    let mut seen = [0u64; 8];
    let mut count = 0;
    for j in 0..len {
        count += meet(&mut seen, nurse_at(inst, plan, room, Shift(from + j)));
    }
    count
}

/// How many distinct nurses care over the shifts of a stay, and 0 where there is none.
#[tactic(auto, using(ih_plan::proofs::ListSteps::none_steps))]
pub fn distinct_nurses_over(inst: &Instance, plan: &Plan, shift_span: Option<ShiftSpan>) -> u32
    requires plan { IsPlanOf inst.now.draft plan.now }
    requires shift_span { IfSome shift_span (IsShiftSpan inst.now.draft) }
    ensures { result ≡ distinct_nurses inst.now.draft (nurses_over plan.now shift_span) }
{
    match shift_span {
        None => 0,
        Some(s) => seen_in(inst, plan, s.room, s.from, s.len),
    }
}
