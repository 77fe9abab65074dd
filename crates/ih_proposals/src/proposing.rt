//! What is tried next.

ghost use Rattle.std.specs.Prelude.{◌≡◌, ◌≤◌, length};
ghost use Rattle.ih_plan.specs.{Expand.IsMoveOf, Series.AreMoves};

use crate::cheapest_nurse::cheapest_nurse;
use crate::ejection::ejection;
use crate::free_rooms::FreeRooms;
use crate::kempe::kempe;
use crate::merging::merge;
use crate::mix::{Kind, kind_of, words_of_kinds};
use crate::nurse_of_stay::nurse_of_stay;
use crate::nurse_repair::repair_nurses;
use crate::nurse_run::nurse_run;
use crate::nurse_swap::nurse_swap;
use crate::place::place;
use crate::regroup::regroup;
use crate::situation::Situation;
use crate::swap::swap;
use crate::words::RandomWords;
use ih_costs::Ledgers;
use ih_moves::Chain;
use ih_plan::Move;
use ih_tables::Instance;

// Whether the move changes nurses.
fn is_of_nurses(mv: &Move) -> bool {
    match mv {
        Move::Nurse(_, _, _) | Move::NurseRun(_, _, _, _) | Move::SwapNurses(_, _, _) => true,
        _ => false,
    }
}

// A draw that looks at nothing: the first of three that changes nurses, else the third.
fn blind_nurses(inst: &Instance, words: &mut RandomWords) -> Move
    ensures { IsMoveOf inst.now.draft result }
{
    let first = words.blind(inst);
    if is_of_nurses(&first) {
        return first;
    }
    let second = words.blind(inst);
    if is_of_nurses(&second) {
        return second;
    }
    words.blind(inst)
}

// An attempt of a kind.
fn propose_kind(here: &Situation<'_>, kind: Kind, words: &mut RandomWords, attempt: &mut Chain)
    requires { AreMoves here.now.inst.now.draft attempt.old }
    ensures { AreMoves here.now.inst.now.draft attempt.new }
{
    let inst = here.inst;
    match kind {
        Kind::Blind => attempt.add(inst, words.blind(inst)),
        Kind::BlindNurses => attempt.add(inst, blind_nurses(inst, words)),
        Kind::Place => {
            let found = place(here, words, attempt);
            attempt.add_found(inst, found);
        }
        Kind::Swap => swap(here, words, attempt),
        Kind::NurseOfStay => attempt.add_found(inst, nurse_of_stay(here, words)),
        Kind::Ejection => ejection(here, words, attempt),
        Kind::Kempe => kempe(here, words, attempt),
        Kind::NurseRun => attempt.add_found(inst, nurse_run(here, words)),
        Kind::NurseSwap => nurse_swap(here, words, attempt),
        Kind::CheapestNurse => attempt.add_found(inst, cheapest_nurse(here, words)),
        Kind::Regroup => regroup(here, words, attempt),
    }
}

/// What is tried next at the timetable of the ledgers, in place of what the attempt held: moves in range, of a kind
/// that a random word chooses by the kinds' shares; none where that kind finds nothing. `hard` is the weight of a
/// broken rule, by which candidates are compared; `free` tells which rooms have beds there. Which moves it is, is free.
/// It takes no memory.
pub fn propose(
    inst: &Instance,
    hard: u32,
    ledgers: &Ledgers<'_>,
    free: &FreeRooms,
    words: &mut RandomWords,
    attempt: &mut Chain,
)
    requires instance { ledgers.now.instance ≡ inst.now.draft }
    requires hard { hard ≤ 1000000 }
    ensures moves { AreMoves inst.now.draft attempt.new }
    ensures few { length attempt.new ≤ 8 }
{
    let here = Situation::new(inst, hard, ledgers, Some(free));
    attempt.begin(inst);
    let kind = kind_of(inst, words.below(words_of_kinds(inst)));
    propose_kind(&here, kind, words, attempt);
    merge(inst, attempt);
    // For the proof alone.
    let _few = attempt.len();
}

/// Adds nurses to an attempt who are cheaper over the new stays of its patients. Answers whether it found any. Which ones
/// it is, is free. It takes no memory.
pub fn repair<'a>(
    inst: &'a Instance,
    hard: u32,
    ledgers: &'a Ledgers<'a>,
    words: &mut RandomWords,
    attempt: &mut Chain,
) -> bool
    requires instance { ledgers.now.instance ≡ inst.now.draft }
    requires hard { hard ≤ 1000000 }
    requires moves { AreMoves inst.now.draft attempt.old }
    ensures moves { AreMoves inst.now.draft attempt.new }
    ensures few { length attempt.new ≤ 8 }
{
    let here = Situation::new(inst, hard, ledgers, None);
    let before = attempt.len();
    repair_nurses(&here, words, attempt);
    before < attempt.len()
}
