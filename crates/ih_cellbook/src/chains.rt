//! Attempts of several moves in a row.

ghost use Rattle.std.specs.Prelude.{◌≡◌, IsTrue};

use crate::entry_kinds::Attempted;
use ih_moves::Chain;
use ih_plan::Move;

// Whether both have the same moves.
fn are_same(left: &[Move], right: &[Move]) -> bool
    ensures { IsTrue result → left.now ≡ right.now }
{
    match left.split_first() {
        None => right.is_empty(),
        Some((mv, rest)) => match right.split_first() {
            None => false,
            Some((other, others)) => mv == other && are_same(rest, others),
        },
    }
}

impl Attempted for Chain {
    ghost use Rattle.std.proofs.Common.{rules};

    ghost moves = { λ c. c };

    ghost most_moves = { 8 };

    ghost most_freeze = { 0 };

    fn of(mv: Move) -> Chain {
        let mut chain = Chain::new();
        chain.push(mv);
        chain
    }

    fn push(&mut self, mv: Move) {
        if self.len() < 8 {
            self.push(mv);
        }
    }

    fn as_slice(&self) -> &[Move] {
        self.as_slice()
    }

    ghost alone = { Prim.search rules };

    fn is_same(&self, other: &Chain) -> bool {
        are_same(self.as_slice(), other.as_slice())
    }
}
