//! Moves on a ward of two patients, of whom the first is admitted, with one nurse in all shifts.

ghost use Rattle.std.specs.Prelude.{◌≡◌};
ghost use Rattle.ih_tables.specs.Sizes.{sizes_of};
ghost use Rattle.ih_plan.specs.{Expand.IsMoveOf, Timetable.IsPlanOf};
ghost use Rattle.ih_fixtures.specs.Two.{IsOfTwo};

use crate::tests::bills::{FREE, KEPT, has};
use ih_costs::Ledgers;
use ih_fixtures::{first_day, on_first_admitted, share};
use ih_footprint::{CellList, Numbering};
use ih_plan::{Move, Plan};
use ih_tables::{Day, Instance, NurseNo, PatientNo, RoomNo, Shift};
use std::alloc::Global;

// Both genders in a room with too few beds.
const CROWDED: &str = "1 0 0 0 0 0 1 0 0";

// Whether the move has this price, in broken rules and in costs, and this footprint.
fn costs(
    ledgers: &mut Ledgers<'_>,
    foot: &mut CellList,
    mv: &Move,
    broken: &str,
    soft: &str,
    cells: &[u32],
) -> bool
    requires move_in { IsMoveOf ledgers.old.instance mv.now }
    requires sizes { foot.old.sizes ≡ sizes_of ledgers.old.instance }
    ensures same { ledgers.new ≡ ledgers.old }
    ensures sizes { foot.new.sizes ≡ foot.old.sizes }
{
    let price = ledgers.price(mv, foot);
    has(&price, broken, soft) && foot.cells() == cells
}

// Whether each price is right: the second patient joins the first, the second nurse takes the night, and a patient who
// isn't admitted gets another day.
fn prices_are_right(inst: &Instance, ledgers: &mut Ledgers<'_>, foot: &mut CellList) -> bool
    requires instance { ledgers.old.instance ≡ inst.now.draft }
    requires sizes { foot.old.sizes ≡ sizes_of inst.now.draft }
    requires two { IsOfTwo inst.now.draft }
    ensures { ledgers.new ≡ ledgers.old }
{
    let join = Move::Place(PatientNo(1), first_day(1));
    let night = Move::Nurse(RoomNo(0), Shift(2), NurseNo(1));
    let later = Move::SetDay(PatientNo(1), Day(1));
    let joined = costs(
        ledgers,
        foot,
        &join,
        CROWDED,
        "1 6 1 3 1 1 0 -1",
        &[1, 2, 8, 10, 12, 13, 14, 24, 25, 26, 37],
    );
    let nursed = costs(
        ledgers,
        foot,
        &night,
        KEPT,
        "0 -2 2 0 0 0 0 0",
        &[14, 26, 32, 36, 38],
    );
    let nothing = costs(ledgers, foot, &later, KEPT, FREE, &[1]);
    joined && nursed && nothing
}

fn hold_with_a_list(alloc: Global, inst: &Instance, ledgers: &mut Ledgers<'_>) -> bool
    requires instance { ledgers.old.instance ≡ inst.now.draft }
    requires two { IsOfTwo inst.now.draft }
{
    match CellList::new(alloc, Numbering::of(inst)) {
        Ok(mut foot) => prices_are_right(inst, ledgers, &mut foot),
        Err(_) => false,
    }
}

fn hold(alloc: Global, inst: &Instance, plan: &Plan) -> bool
    requires two { IsOfTwo inst.now.draft }
    requires plan { IsPlanOf inst.now.draft plan.now }
{
    match Ledgers::new(alloc, inst, plan) {
        Ok(mut ledgers) => {
            share(&ledgers);
            hold_with_a_list(alloc, inst, &mut ledgers)
        }
        Err(_) => false,
    }
}

#[test]
fn moves_are_priced_by_what_they_touch(rt: HostRuntime) {
    let alloc = rt.alloc();
    assert!(rt; on_first_admitted(alloc, |inst, plan| hold(alloc, inst, plan)));
}
