//! What a book tells whoever follows it: what was accepted since a place.

ghost use Rattle.std.specs.Prelude.{◌≡◌, ◌+◌, ◌<◌, ◌≤◌, ◌++◌, ◌∷◌, [], length, map, vec_capacity, IfOk};
ghost use Rattle.ih_cellbook.specs.News.{accepted_between, accepted_of, most_told, TellsOf};

use crate::buffers::MOST_COPIED;
use crate::entry_kinds::Logged;
use ih_journal::{Entry, Verdict};
use std::alloc::{AllocError, Global};
use std::marker::Model;

/// The entries that were accepted among those of a book from a place on, the place up to which it tells, and how many
/// entries the book had then.
#[derive(Drop)]
pub struct News<E: Logged = Entry> {
    accepted: Vec<E>,
    until: u32,
    front: u32,
}

impl<E: Logged> Model for News<E> {
    ghost use Rattle.std.specs.Prelude.{◌≤◌, map, vec_capacity};
    ghost use Rattle.ih_cellbook.specs.News.{NewsState, most_told};

    ghost Value = { NewsState };

    ghost view = { λ n. record { accepted = map E.tried n.accepted.items; until = n.until; front = n.front } };

    ghost invariant = { λ n. most_told ≤ vec_capacity n.accepted };
}

// Puts an entry behind the others, where it is accepted.
fn put_accepted<E: Logged>(list: &mut Vec<E>, entry: &E)
    requires { length list.old.items < vec_capacity list.old }
    ensures items { map E.tried list.new.items ≡ map E.tried list.old.items ++ accepted_of (E.tried entry.now ∷ []) }
    ensures count { length list.new.items ≤ length list.old.items + 1 }
    ensures room { vec_capacity list.new ≡ vec_capacity list.old }
{
    if let Verdict::Accepted = entry.verdict() {
        list.push_reserved(*entry);
    }
}

// Lists the accepted ones of the entries from a place on, up to the end, or up to where the list is full. Answers the
// place where it stopped.
fn list_accepted<E: Logged>(list: &mut Vec<E>, entries: &[E], from: u32, front: u32) -> u32
    requires room { most_told ≤ vec_capacity list.old }
    requires from { from ≤ front }
    requires front { front ≡ length entries.now }
    ensures since { from ≤ result }
    ensures within { result ≤ front }
    ensures listed { map E.tried list.new.items ≡ accepted_between (map E.tried entries.now) from result }
    ensures full { result < front → length list.new.items ≡ most_told }
    ensures room { vec_capacity list.new ≡ vec_capacity list.old }
{
    list.clear();
    let mut until = from;
    while until < front && list.len() < MOST_COPIED {
        put_accepted(list, &entries[until as usize]);
        until += 1;
    }
    until
}

impl<E: Logged> News<E> {
    /// No news, with room for 256 entries.
    pub fn new(alloc: Global) -> Result<News<E>, AllocError>
        ensures { IfOk result (λ n. n ≡ record { accepted = []; until = 0; front = 0 }) }
    {
        Ok(News {
            accepted: Vec::with_capacity(alloc, MOST_COPIED)?,
            until: 0,
            front: 0,
        })
    }

    /// The entries that were accepted.
    pub fn accepted(&self) -> &[E]
        ensures { map E.tried result.now ≡ self.now.accepted }
    {
        self.accepted.as_slice()
    }

    /// The place up to which it tells.
    pub fn until(&self) -> u32
        ensures { result ≡ self.now.until }
    {
        self.until
    }

    /// How many entries the book had then.
    pub fn front(&self) -> u32
        ensures { result ≡ self.now.front }
    {
        self.front
    }

    // Tells of entries from a place on, of which there are `front` in all.
    pub(crate) fn tell_from(&mut self, entries: &[E], from: u32, front: u32)
        requires from { from ≤ front }
        requires front { front ≡ length entries.now }
        ensures { TellsOf (map E.tried entries.now) from self.new }
    {
        self.until = list_accepted(&mut self.accepted, entries, from, front);
        self.front = front;
    }
}
