//! The table of counts: how many counted shifts of each person's stay each nurse has.

ghost use Rattle.std.specs.Prelude.{◌≡◌, ◌<◌, ◌≤◌, ◌+◌, ◌*◌, ◌==◌, ℕ, if◌then◌else◌, length, Some, IfSome};
ghost use Rattle.ih_tables.specs.declared.ids.NurseNo.{NurseNo};
ghost use Rattle.ih_tables.specs.Sizes.{person_count, room_count, shift_count, nurse_count};
ghost use Rattle.ih_links.specs.Lists.{list_of, has};
ghost use Rattle.ih_plan.specs.{declared.moves.Write.TheVariants.SetCare, Timetable.IsPlanOf, Writes.put};
ghost use Rattle.ih_plan.specs.{Presence.is_present, Presence.day_of};
ghost use Rattle.ih_nurses.specs.Counts.{AreCounts, count_at, nursed_in, one_of};
ghost use Rattle.ih_nurses.specs.ShiftSpans.{IsShiftSpan};

use crate::shift_spans::ShiftSpan;
use ih_links::CompactLinks;
use ih_plan::{Plan, nurse_at};
use ih_tables::{Instance, NurseNo, RoomNo, Shift};

// Where a nurse's count for a person stands.
#[inline(always)]
fn place(inst: &Instance, person: u32, nurse: NurseNo) -> usize
    requires person { person < person_count inst.now.draft }
    requires nurse { nurse.0 < nurse_count inst.now.draft }
    ensures value { result ≡ person * nurse_count inst.now.draft + nurse.0 }
    ensures inside { result < person_count inst.now.draft * nurse_count inst.now.draft }
{
    person as usize * inst.nurses() as usize + nurse.0 as usize
}

/// How many counted shifts of a person's stay a nurse has.
#[inline(always)]
pub fn count(inst: &Instance, counts: &[u8], person: u32, nurse: NurseNo) -> u8
    requires table { length counts.now ≡ person_count inst.now.draft * nurse_count inst.now.draft }
    requires person { person < person_count inst.now.draft }
    requires nurse { nurse.0 < nurse_count inst.now.draft }
    ensures { result ≡ count_at inst.now.draft counts.now person nurse.0 }
{
    counts[place(inst, person, nurse)]
}

// Counts a shift more of a person for a nurse, where there is one.
#[inline(always)]
fn add_count(inst: &Instance, counts: &mut [u8], person: u32, nurse: Option<NurseNo>)
    requires table { length counts.old ≡ person_count inst.now.draft * nurse_count inst.now.draft }
    requires person { person < person_count inst.now.draft }
    requires nurse { IfSome nurse (λ n. n.0 < nurse_count inst.now.draft) }
    requires fits { (n : ℕ) → n < nurse_count inst.now.draft → count_at inst.now.draft counts.old person n < 255 }
    ensures len { length counts.new ≡ length counts.old }
    ensures each { (y n : ℕ) → n < nurse_count inst.now.draft
        → count_at inst.now.draft counts.new y n ≡ count_at inst.now.draft counts.old y n + one_of person nurse y n }
{
    match nurse {
        None => {}
        Some(a) => counts[place(inst, person, a)] += 1,
    }
}

// Counts a shift less of a person for a nurse, where there is one.
#[inline(always)]
fn take_count(inst: &Instance, counts: &mut [u8], person: u32, nurse: Option<NurseNo>)
    requires table { length counts.old ≡ person_count inst.now.draft * nurse_count inst.now.draft }
    requires person { person < person_count inst.now.draft }
    requires nurse { IfSome nurse (λ n. n.0 < nurse_count inst.now.draft) }
    requires enough { (n : ℕ) → n < nurse_count inst.now.draft
        → one_of person nurse person n ≤ count_at inst.now.draft counts.old person n }
    ensures len { length counts.new ≡ length counts.old }
    ensures each { (y n : ℕ) → n < nurse_count inst.now.draft
        → count_at inst.now.draft counts.new y n + one_of person nurse y n ≡ count_at inst.now.draft counts.old y n }
{
    match nurse {
        None => {}
        Some(a) => counts[place(inst, person, a)] -= 1,
    }
}

/// Counts the shifts of a person who has none so far.
pub fn add_shift_span(inst: &Instance, plan: &Plan, counts: &mut [u8], person: u32, span: ShiftSpan)
    requires plan { IsPlanOf inst.now.draft plan.now }
    requires person { person < person_count inst.now.draft }
    requires shift_span { IsShiftSpan inst.now.draft span }
    requires table { length counts.old ≡ person_count inst.now.draft * nurse_count inst.now.draft }
    requires none { (n : ℕ) → n < nurse_count inst.now.draft → count_at inst.now.draft counts.old person n ≡ 0 }
    ensures len { length counts.new ≡ length counts.old }
    ensures each { (y n : ℕ) → n < nurse_count inst.now.draft
        → count_at inst.now.draft counts.new y n
        ≡ count_at inst.now.draft counts.old y n + (if person == y then nursed_in plan.now (Some span) n else 0) }
{
    for j in 0..span.len {
        let nurse = nurse_at(inst, plan, span.room, Shift(span.from + j));
        add_count(inst, counts, person, nurse);
    }
}

/// Takes the shifts of a person from its counts.
pub fn take_shift_span(
    inst: &Instance,
    plan: &Plan,
    counts: &mut [u8],
    person: u32,
    span: ShiftSpan,
)
    requires plan { IsPlanOf inst.now.draft plan.now }
    requires person { person < person_count inst.now.draft }
    requires shift_span { IsShiftSpan inst.now.draft span }
    requires table { length counts.old ≡ person_count inst.now.draft * nurse_count inst.now.draft }
    requires enough { (n : ℕ) → n < nurse_count inst.now.draft
        → nursed_in plan.now (Some span) n ≤ count_at inst.now.draft counts.old person n }
    ensures len { length counts.new ≡ length counts.old }
    ensures each { (y n : ℕ) → n < nurse_count inst.now.draft
        → count_at inst.now.draft counts.new y n + (if person == y then nursed_in plan.now (Some span) n else 0)
        ≡ count_at inst.now.draft counts.old y n }
{
    for j in 0..span.len {
        let nurse = nurse_at(inst, plan, span.room, Shift(span.from + j));
        take_count(inst, counts, person, nurse);
    }
}

/// Makes the counts those of another choice of nurse for a room's shift, by a walk over the room's list of that day.
pub fn move_counts(
    inst: &Instance,
    plan: &Plan,
    counts: &mut [u8],
    persons: &CompactLinks,
    room: RoomNo,
    shift: Shift,
    new: Option<NurseNo>,
)
    requires plan { IsPlanOf inst.now.draft plan.now }
    requires room { room.0 < room_count inst.now.draft }
    requires shift { shift.0 < shift_count inst.now.draft }
    requires nurse { IfSome new (λ n. n.0 < nurse_count inst.now.draft) }
    requires list { room.0 < length persons.now.lists }
    requires persons { persons.now.nodes ≡ person_count inst.now.draft }
    requires there { (x : ℕ) → x < person_count inst.now.draft
        → has x (list_of persons.now room.0) ≡ is_present inst.now.draft plan.now room.0 (day_of shift.0) x }
    requires counts { AreCounts inst.now.draft plan.now counts.old }
    ensures { AreCounts inst.now.draft (put (SetCare room shift new) plan.now) counts.new }
{
    let old = nurse_at(inst, plan, room, shift);
    let mut at = persons.first(room.0);
    while let Some(x) = at {
        take_count(inst, counts, x, old);
        add_count(inst, counts, x, new);
        at = persons.next(x);
    }
}
