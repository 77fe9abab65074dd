//! Room for a part of a history.

ghost use Rattle.std.specs.Prelude.{◌≡◌, ◌≤◌, [], length, IfOk};

use crate::entry_kinds::Logged;
use ih_journal::Entry;
use std::alloc::{AllocError, Global};
use std::marker::Model;

/// The most entries that are copied or told at once.
pub(crate) const MOST_COPIED: usize = 256;

/// Entries of a book from a place on, as far as there is room, and how many entries the book had then.
#[derive(Drop)]
pub struct Buffer<E: Logged = Entry> {
    from: u32,
    entries: Vec<E>,
    front: u32,
}

impl<E: Logged> Model for Buffer<E> {
    ghost use Rattle.std.specs.Prelude.{◌≤◌, map, vec_capacity};
    ghost use Rattle.ih_cellbook.specs.BufferState.{BufferState, most_copied};

    ghost Value = { BufferState };

    ghost view = { λ b. record { from = b.from; entries = map E.tried b.entries.items; front = b.front } };

    ghost invariant = { λ b. most_copied ≤ vec_capacity b.entries };
}

impl<E: Logged> Buffer<E> {
    ghost use Rattle.std.specs.Prelude.{take, drop, map};
    ghost use Rattle.ih_cellbook.specs.BufferState.{most_copied};

    /// An empty buffer, from place 0, with room for 256 entries.
    pub fn new(alloc: Global) -> Result<Buffer<E>, AllocError>
        ensures { IfOk result (λ b. b ≡ record { from = 0; entries = []; front = 0 }) }
    {
        Ok(Buffer {
            from: 0,
            entries: Vec::with_capacity(alloc, MOST_COPIED)?,
            front: 0,
        })
    }

    /// Sets the place from which the next copy is wanted.
    pub fn set_from(&mut self, number: u32)
        ensures { self.new ≡ record self.old { from = number } }
    {
        self.from = number;
    }

    /// The place of the first entry.
    pub fn from(&self) -> u32
        ensures { result ≡ self.now.from }
    {
        self.from
    }

    /// The entries.
    pub fn entries(&self) -> &[E]
        ensures { map E.tried result.now ≡ self.now.entries }
    {
        self.entries.as_slice()
    }

    /// How many entries the book had when these were copied.
    pub fn front(&self) -> u32
        ensures { result ≡ self.now.front }
    {
        self.front
    }

    // Replaces the entries by those from a place on, or by the first 256 of them.
    pub(crate) fn copy_from(&mut self, entries: &[E], from: u32, front: u32) -> u32
        requires { from ≤ length entries.now }
        ensures copied { self.new
            ≡ record { from = from; entries = take most_copied (drop from (map E.tried entries.now)); front = front } }
        ensures count { result ≡ length self.new.entries }
    {
        let rest = &entries[from as usize..];
        let count = rest.len().min(MOST_COPIED);
        self.entries.clear();
        self.entries.extend_from_slice(&rest[..count]).unwrap();
        self.from = from;
        self.front = front;
        count as u32
    }
}
