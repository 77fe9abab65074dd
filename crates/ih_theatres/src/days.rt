//! Numbers of days, and walks over the patients of a day.

ghost use Rattle.std.specs.Prelude.{◌≡◌, ◌<◌, ◌≤◌, ◌*◌, ℕ, not, map, length, All, IfSome};
ghost use Rattle.std.specs.List.{list_any};
ghost use Rattle.ih_links.specs.Lists.{list_of};
ghost use Rattle.ih_tables.specs.declared.ids.TheatreNo.{TheatreNo};
ghost use Rattle.ih_plan.specs.Costs.{is_empty, is_number};
ghost use Rattle.ih_theatres.specs.{Days.day_number, Days.theatre_at, Marks.is_marked};

use crate::marks::mark;
use ih_links::CompactLinks;
use ih_tables::{Day, Instance, TheatreNo};

/// How many days `rows` theatres or surgeons have.
pub fn day_count(inst: &Instance, rows: u32) -> u32
    requires { rows ≤ 128 }
    ensures { result ≡ rows * inst.now.draft.days }
{
    rows * inst.days()
}

/// The number of a day of theatre or surgeon `row`.
#[inline(always)]
pub fn day_number(inst: &Instance, row: u32, day: Day) -> u32
    requires row { row < 128 }
    requires day { day.0 < inst.now.draft.days }
    ensures { result ≡ day_number inst.now.draft row day.0 }
{
    row * inst.days() + day.0
}

/// Whether anyone is in the list.
pub fn is_used(links: &CompactLinks, head: u32) -> bool
    requires { head < length links.now.lists }
    ensures { result ≡ not (is_empty (list_of links.now head)) }
{
    links.first(head).is_some()
}

/// Marks on the theatres of the patients in a list.
pub fn marks_of_theatres(links: &CompactLinks, head: u32, theatres: &[Option<TheatreNo>]) -> u64
    requires head { head < length links.now.lists }
    requires patients { links.now.nodes ≡ length theatres.now }
    requires known { All (λ t. IfSome t (λ m. m.0 < 64)) theatres.now }
    ensures { (t : ℕ) → is_marked result t
        ≡ list_any (λ o. is_number o t) (map (theatre_at theatres.now) (list_of links.now head)) }
{
    let mut used = 0;
    let mut at = links.first(head);
    while let Some(p) = at {
        used = mark(used, theatres[p as usize]);
        at = links.next(p);
    }
    used
}
