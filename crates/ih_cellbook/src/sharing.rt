//! The book as what workers take in turns: its entries are kept, each by its worker, and no turn changes what it was
//! opened with.

use crate::books::Book;
use crate::entry_kinds::Logged;
use ih_journal::{Options, Verdict};
use ih_plan::{Move, Plan};
use ih_tables::{Bill, Draft};
use ih_turn::Kept;
use std::collections::LinkedList;
use std::marker::Model;

/// What a book was opened with: the instance, the start, the options and the freeze day. No value of it is made.
pub struct Basis {
    pub instance: Draft,
    pub start: Plan,
    pub options: Options,
    pub freeze: u32,
}

impl Model for Basis {
    ghost use Rattle.ih_journal.specs.Base.{Base};
    ghost use Rattle.ih_cellbook.specs.Keeping.{base_with};

    ghost Value = { Base };

    ghost view = { λ b. base_with b.instance b.start b.options b.freeze };
}

/// One try of one worker, whatever type keeps it. No value of it is made.
pub struct Try {
    pub worker: u32,
    pub number: u32,
    pub again: u32,
    pub seen: u32,
    pub moves: LinkedList<Move>,
    pub price: Bill,
    pub verdict: Verdict,
}

impl Model for Try {
    ghost use Rattle.ih_journal.specs.Tried.{Tried, tried_by};

    ghost Value = { Tried };

    ghost view = { λ t. tried_by t.worker t.number t.again t.seen t.moves t.price t.verdict };
}

impl<'a, E: Logged> Kept for Book<'a, E> {
    type Entry = Try;

    type Base = Basis;

    ghost entries = { λ k. k.entries };

    ghost base = { λ k. k.base };

    ghost maker = { λ e. e.worker };

    fn len(&self) -> u64 {
        self.entries().len() as u64
    }
}
