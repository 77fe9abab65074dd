//! What a patient's stay makes of the bill of a day of a theatre or a surgeon, without the change being made.

ghost use Rattle.std.specs.Prelude.{◌≡◌, ◌<◌, ◌≤◌, ◌+◌, ◌-◌, ◌&&◌, ◌||◌, ℕ, List, not, map, length, slice_index_or};
ghost use Rattle.std.specs.Prelude.{◌==◌, option_map, IfSome, All, if◌then◌else◌, None};
ghost use Rattle.std.specs.List.{list_any};
ghost use Rattle.ih_links.specs.Lists.{list_of, has, without, with_if, IsOnce};
ghost use Rattle.ih_tables.specs.{declared.ids.TheatreNo.TheatreNo, Sizes.patient_count, Sizes.theatre_count};
ghost use Rattle.ih_plan.specs.Costs.{minutes, is_empty, is_number, operated_in, admitted_on, surgeon_of};
ghost use Rattle.ih_plan.specs.{Sums.bit, Sums.count_below, declared.moves.Placement.Placement, Timetable.IsPlacement};
ghost use Rattle.ih_theatres.specs.Days.{theatre_at};
ghost use Rattle.ih_theatres.specs.Marks.{is_marked, is_unmarked, AreBelow};

use crate::marks::{count_marked, is_marked, mark};
use crate::parts::DayCounts;
use ih_links::CompactLinks;
use ih_plan::{Placement, bit};
use ih_tables::{Day, Instance, PatientNo, SurgeonNo, TheatreNo};

/// A patient with this stay has surgery in the theatre on the day.
#[inline(always)]
pub fn is_operated_in(stay: Option<Placement>, theatre: TheatreNo, day: Day) -> bool
    ensures { result ≡ operated_in theatre.0 day.0 stay }
{
    match stay {
        None => false,
        Some(at) => at.theatre.0 == theatre.0 && at.day.0 == day.0,
    }
}

fn is_admitted_on(stay: Option<Placement>, day: Day) -> bool
    ensures { result ≡ admitted_on day.0 stay }
{
    match stay {
        None => false,
        Some(at) => at.day.0 == day.0,
    }
}

/// The patient is the surgeon's, and with this stay has surgery on the day.
#[inline(always)]
pub fn is_operated_by(
    inst: &Instance,
    patient: PatientNo,
    stay: Option<Placement>,
    surgeon: SurgeonNo,
    day: Day,
) -> bool
    requires { patient.0 < patient_count inst.now.draft }
    ensures { result ≡ (is_number (surgeon_of inst.now.draft patient.0) surgeon.0 && admitted_on day.0 stay) }
{
    inst.patient(patient).surgeon_id.0 == surgeon.0 && is_admitted_on(stay, day)
}

/// The minutes of surgery of all patients of a list but one, who is there or not, from those of the whole list.
#[inline(always)]
pub fn minutes_but(inst: &Instance, all: u32, patient: PatientNo, there: bool) -> u32
    requires patient { patient.0 < patient_count inst.now.draft }
    requires list { (xs : List ℕ) × IsOnce xs × (all ≡ minutes inst.now.draft xs) × (there ≡ has patient.0 xs) }
    ensures sum { (xs : List ℕ) → IsOnce xs → all ≡ minutes inst.now.draft xs → there ≡ has patient.0 xs
        → result ≡ minutes inst.now.draft (without patient.0 xs) }
    ensures bound { result ≤ all }
{
    if there {
        all - inst.patient(patient).surgery_duration
    } else {
        all
    }
}

/// The minutes above a maximum of patients with so many minutes, and of one more if it is there.
#[inline(always)]
pub fn minutes_above(
    inst: &Instance,
    others: u32,
    patient: PatientNo,
    there: bool,
    most: u32,
) -> u32
    requires patient { patient.0 < patient_count inst.now.draft }
    requires bound { others ≤ 204800000 }
    ensures { (xs : List ℕ) → others ≡ minutes inst.now.draft xs
        → result ≡ minutes inst.now.draft (with_if there patient.0 xs) - most }
{
    if there {
        (others + inst.patient(patient).surgery_duration).saturating_sub(most)
    } else {
        others.saturating_sub(most)
    }
}

/// Whether anyone but the patient, who is there or not, is in the list.
pub fn is_used_by_others(links: &CompactLinks, head: u32, patient: PatientNo, there: bool) -> bool
    requires head { head < length links.now.lists }
    requires once { IsOnce (list_of links.now head) }
    requires there { there ≡ has patient.0 (list_of links.now head) }
    ensures { result ≡ not (is_empty (without patient.0 (list_of links.now head))) }
{
    bit(there) < links.len(head)
}

// The patient's theatre, and none if the patient is the one who is left out of account.
fn theatre_but(theatres: &[Option<TheatreNo>], patient: u32, but: u32) -> Option<TheatreNo>
    requires { patient < length theatres.now }
    ensures { result ≡ (if patient == but then None else slice_index_or theatres.now patient None) }
{
    if patient == but {
        None
    } else {
        theatres[patient as usize]
    }
}

/// Marks on the theatres of the patients in a list but one, who is there or not.
pub fn marks_of_theatres_but(
    links: &CompactLinks,
    head: u32,
    theatres: &[Option<TheatreNo>],
    patient: PatientNo,
) -> u64
    requires head { head < length links.now.lists }
    requires patients { links.now.nodes ≡ length theatres.now }
    requires known { All (λ t. IfSome t (λ m. m.0 < 64)) theatres.now }
    ensures { (t : ℕ) → is_marked result t
        ≡ list_any (λ o. is_number o t) (map (theatre_at theatres.now) (without patient.0 (list_of links.now head))) }
{
    let mut used = 0;
    let mut at = links.first(head);
    while let Some(x) = at {
        used = mark(used, theatre_but(theatres, x, patient.0));
        at = links.next(x);
    }
    used
}

// Whether the theatre of the stay, where there is one, isn't marked.
fn is_unmarked(marks: u64, stay: Option<Placement>) -> bool
    requires { IfSome stay (λ at. at.theatre.0 < 64) }
    ensures { result ≡ is_unmarked marks (option_map (λ (at : Placement). at.theatre.0) stay) }
{
    match stay {
        None => false,
        Some(at) => !is_marked(marks, at.theatre.0),
    }
}

// Whether the stay counts and has a theatre that isn't marked.
fn is_one_more(marks: u64, there: bool, stay: Option<Placement>) -> bool
    requires { IfSome stay (λ at. at.theatre.0 < 64) }
    ensures { result ≡ (there && is_unmarked marks (option_map (λ (at : Placement). at.theatre.0) stay)) }
{
    there && is_unmarked(marks, stay)
}

/// How many theatres are marked, and the one of the stay too, where the stay counts.
pub fn theatres_with(marks: u64, there: bool, stay: Option<Placement>) -> u32
    requires { IfSome stay (λ at. at.theatre.0 < 64) }
    ensures count { (n : ℕ) → n ≤ 64 → AreBelow n marks → IfSome stay (λ at. at.theatre.0 < n)
        → result ≡ count_below n
        (λ t. is_marked marks t || (there && is_number (option_map (λ (at : Placement). at.theatre.0) stay) t)) }
    ensures bound { result ≤ 65 }
{
    count_marked(marks) + bit(is_one_more(marks, there, stay))
}

/// What a theatre's day breaks and costs with patients of so many minutes, if any, and with one more if it is there.
#[inline(always)]
pub fn theatre_counts(
    inst: &Instance,
    others: u32,
    used: bool,
    patient: PatientNo,
    there: bool,
    most: u32,
) -> DayCounts
    requires patient { patient.0 < patient_count inst.now.draft }
    requires bound { others ≤ 204800000 }
    ensures over { (xs : List ℕ) → others ≡ minutes inst.now.draft xs
        → result.over ≡ minutes inst.now.draft (with_if there patient.0 xs) - most }
    ensures cost { (xs : List ℕ) → used ≡ not (is_empty xs)
        → result.cost ≡ bit (not (is_empty (with_if there patient.0 xs))) }
{
    DayCounts {
        over: minutes_above(inst, others, patient, there, most),
        cost: bit(there || used),
    }
}

/// What a surgeon's day breaks and costs with patients of so many minutes in the marked theatres, and with one more, by
/// this stay, if it is there.
#[inline(always)]
pub fn surgeon_counts(
    inst: &Instance,
    others: u32,
    marks: u64,
    patient: PatientNo,
    there: bool,
    stay: Option<Placement>,
    most: u32,
) -> DayCounts
    requires patient { patient.0 < patient_count inst.now.draft }
    requires bound { others ≤ 204800000 }
    requires marks { AreBelow (theatre_count inst.now.draft) marks }
    requires placement { IfSome stay (IsPlacement inst.now.draft) }
    ensures over { (xs : List ℕ) → others ≡ minutes inst.now.draft xs
        → result.over ≡ minutes inst.now.draft (with_if there patient.0 xs) - most }
    ensures cost { result.cost
        ≡ count_below (theatre_count inst.now.draft)
        (λ t. is_marked marks t || (there && is_number (option_map (λ (at : Placement). at.theatre.0) stay) t)) - 1 }
{
    let theatres = theatres_with(marks, there, stay);
    DayCounts {
        over: minutes_above(inst, others, patient, there, most),
        cost: theatres.saturating_sub(1),
    }
}
