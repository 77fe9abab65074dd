//! Moves in a row, which are priced as one.

use ih_plan::Move;
use ih_tables::{Instance, PersonNo};
use std::marker::Model;

/// Up to 8 moves in a row. It takes no memory.
#[derive(Clone, Copy)]
pub struct Chain {
    // Past the length they are idle.
    moves: [Move; 8],
    len: u32,
}

impl Model for Chain {
    ghost use Rattle.std.specs.Prelude.{List};
    ghost use Rattle.ih_plan.specs.declared.moves.Move.{Move};
    ghost use Rattle.ih_moves.specs.Chains.{moves_in, padded, IsPadded, padded-moves_in};

    ghost Value = { List Move };

    ghost view = { moves_in };

    ghost invariant = { IsPadded };

    ghost inverse = { padded };

    ghost inverse_ok = { padded-moves_in };
}

impl Chain {
    ghost use Rattle.std.specs.Prelude.{◌≡◌, ◌==◌, ◌<◌, ◌≤◌, ◌++◌, ◌∷◌, [], length, IfSome};
    ghost use Rattle.ih_plan.specs.{Expand.IsMoveOf, Series.AreMoves};

    /// No move.
    pub fn new() -> Chain
        ensures { result ≡ [] }
    {
        Chain {
            moves: [Move::Idle; 8],
            len: 0,
        }
    }

    /// The moves, in order.
    pub fn as_slice(&self) -> &[Move]
        ensures moves { result.now ≡ self.now }
        ensures few { length self.now ≤ 8 }
    {
        &self.moves[..self.len as usize]
    }

    /// How many moves it has.
    pub fn len(&self) -> usize
        ensures value { result ≡ length self.now }
        ensures few { result ≤ 8 }
    {
        self.as_slice().len()
    }

    /// Whether it has eight moves.
    pub fn is_full(&self) -> bool
        ensures { result ≡ (length self.now == 8) }
    {
        self.len() == 8
    }

    /// Lets all moves go.
    pub fn clear(&mut self)
        ensures { self.new ≡ [] }
    {
        *self = Chain::new();
    }

    /// Puts a move behind the others.
    pub fn push(&mut self, mv: Move)
        requires { length self.old < 8 }
        ensures { self.new ≡ self.old ++ mv ∷ [] }
    {
        self.moves[self.len as usize] = mv;
        self.len += 1;
    }

    /// Makes way for moves of the instance: there are none, so all are in range.
    pub fn begin(&mut self, _inst: &Instance)
        ensures { AreMoves _inst.now.draft self.new }
    {
        self.clear();
    }

    /// One move of the instance more, behind others of it, where there aren't eight.
    pub fn add(&mut self, _inst: &Instance, mv: Move)
        requires moves { AreMoves _inst.now.draft self.old }
        requires one { IsMoveOf _inst.now.draft mv }
        ensures { AreMoves _inst.now.draft self.new }
    {
        if self.len() >= 8 {
            return;
        }
        self.push(mv);
    }

    /// Puts a move of the instance, where one was found, behind the others, where there aren't eight.
    pub fn add_found(&mut self, _inst: &Instance, found: Option<Move>)
        requires moves { AreMoves _inst.now.draft self.old }
        requires one { IfSome found (IsMoveOf _inst.now.draft) }
        ensures { AreMoves _inst.now.draft self.new }
    {
        if let Some(mv) = found {
            self.add(_inst, mv);
        }
    }

    /// The move at an index, where all are moves of the instance.
    pub fn at(&self, _inst: &Instance, index: usize) -> Move
        requires place { index < length self.now }
        requires moves { AreMoves _inst.now.draft self.now }
        ensures { IsMoveOf _inst.now.draft result }
    {
        let moves = self.as_slice();
        moves[index]
    }

    /// Whether one of the moves is a `Place`, `Withdraw` or `SetRoom` of this person. The other kinds aren't looked at.
    /// Never true of an occupant, who can't be moved.
    pub fn moves_person(&self, person: PersonNo) -> bool {
        for mv in self.as_slice() {
            let moved = match *mv {
                Move::Place(p, _) | Move::Withdraw(p) | Move::SetRoom(p, _) => p.0 == person.0,
                _ => false,
            };
            if moved {
                return true;
            }
        }
        false
    }
}
