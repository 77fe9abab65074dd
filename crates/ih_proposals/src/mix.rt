//! How often each kind of attempt is proposed.

ghost use Rattle.std.specs.Prelude.{◌<◌};

use crate::situation::is_small;
use ih_tables::Instance;

/// The kinds of attempts.
#[derive(Clone, Copy, Debug, PartialEq, Eq)]
pub enum Kind {
    /// A draw that looks at nothing.
    Blind,
    /// The first of three such draws that changes nurses, else the third.
    BlindNurses,
    /// A patient in a room that fits.
    Place,
    /// Two patients exchange their placements, or one takes another's.
    Swap,
    /// A nurse of a person's stay in one more of its shifts.
    NurseOfStay,
    /// A patient anywhere: who has to leave gets another place.
    Ejection,
    /// Two rooms exchange whom a patient disturbs.
    Kempe,
    /// One nurse over a person's stay.
    NurseRun,
    /// The nurses of two rooms exchanged over a person's stay.
    NurseSwap,
    /// The nurse who is cheapest in a shift.
    CheapestNurse,
    /// Patients who come to one room in a few days, to other places.
    Regroup,
}

// How many words choose a kind, on large wards and on small ones.
const WORDS: u32 = 256;

const WORDS_IF_SMALL: u32 = 304;

// The kinds on large wards, each with its share of those words: the cheapest nurse of all is seldom worth the look.
const SHARES: [(Kind, u32); 10] = [
    (Kind::BlindNurses, 22),
    (Kind::Place, 72),
    (Kind::Swap, 42),
    (Kind::NurseOfStay, 16),
    (Kind::Ejection, 18),
    (Kind::Kempe, 26),
    (Kind::NurseRun, 14),
    (Kind::NurseSwap, 8),
    (Kind::CheapestNurse, 6),
    (Kind::Regroup, 32),
];

// The kinds on small wards, where who comes tells more than who cares.
const SHARES_IF_SMALL: [(Kind, u32); 10] = [
    (Kind::Blind, 22),
    (Kind::Place, 60),
    (Kind::Swap, 46),
    (Kind::NurseOfStay, 18),
    (Kind::Ejection, 22),
    (Kind::Kempe, 26),
    (Kind::NurseRun, 14),
    (Kind::NurseSwap, 8),
    (Kind::CheapestNurse, 20),
    (Kind::Regroup, 68),
];

/// How many words choose a kind, from 0.
pub fn words_of_kinds(inst: &Instance) -> u32
    ensures { 0 < result }
{
    if is_small(inst) {
        WORDS_IF_SMALL
    } else {
        WORDS
    }
}

// The kind that a word chooses by these shares.
fn kind_in(shares: [(Kind, u32); 10], word: u32) -> Kind {
    let mut left = word;
    for (kind, share) in shares {
        if left < share {
            return kind;
        }
        left -= share;
    }
    Kind::Regroup
}

/// The kind that a word chooses.
pub fn kind_of(inst: &Instance, word: u32) -> Kind {
    if is_small(inst) {
        kind_in(SHARES_IF_SMALL, word)
    } else {
        kind_in(SHARES, word)
    }
}
