//! Lists of numbered nodes in four vectors, changed in place. Each head has a sentinel, which is a place after those of
//! the nodes. Its list is a ring through that sentinel: no list has an end to be told apart.

ghost use Rattle.std.specs.Prelude.{◌≡◌, ℕ, ◌+◌, ◌^◌, ◌<◌, ◌≤◌, true, false, ◌++◌, ◌∷◌, [], length, map, replicate};
ghost use Rattle.std.specs.Prelude.{slice_set, IfOk, OnOk};
ghost use Rattle.std.specs.List.{range_with_len};
ghost use Rattle.ih_links.specs.Lists.{has, without, following, is_at, list_of, first_of, AreNodes};
ghost use Rattle.ih_links.specs.Ring.{node_in};

use crate::widths::Width;
use std::alloc::{AllocError, Global};
use std::marker::Model;

/// Lists of numbered nodes, kept in numbers of a width: heads and nodes together are at most as many as there are such
/// numbers.
#[derive(Drop)]
pub struct Links<W: Width = u32> {
    // What follows each place on its ring, and what it follows: the nodes' places first, then the sentinels'.
    next: Vec<W>,
    prev: Vec<W>,
    // Each node's head, and where it has none the greatest number: no head has that where there are nodes.
    home: Vec<W>,
    // Each list's length.
    len: Vec<W>,
}

/// Lists in half the memory, of up to 2^16 heads and nodes.
pub type CompactLinks = Links<u16>;

impl<W: Width> Model for Links<W> {
    ghost use Rattle.std.specs.Prelude.{length, map};
    ghost use Rattle.ih_links.specs.Lists.{LinksState};
    ghost use Rattle.ih_links.specs.Ring.{lists_of, homes_of, IsRinged};

    ghost Value = { LinksState };

    ghost view = { λ a. record {
      lists = lists_of (map W.number a.next.items) (homes_of W.most (map W.number a.home.items))
          (map W.number a.len.items);
      nodes = length a.home.items;
    } };

    ghost invariant = { λ a.
        IsRinged W.most (map W.number a.next.items) (map W.number a.prev.items)
        (homes_of W.most (map W.number a.home.items)) (map W.number a.len.items) };
}

// Places that are each a ring of their own.
fn lone_places<W: Width>(alloc: Global, count: u64) -> Result<Vec<W>, AllocError>
    requires { count ≤ W.most + 1 }
    ensures { IfOk result (λ places. map W.number places.items ≡ range_with_len 0 count) }
{
    let mut places = Vec::with_capacity(alloc, count as usize)?;
    for place in 0..count {
        places.push(W::of(place as u32))?;
    }
    Ok(places)
}

// So often the same number.
fn repeated<W: Width>(alloc: Global, first: u32, times: u32) -> Result<Vec<W>, AllocError>
    requires { first ≤ W.most }
    ensures { IfOk result (λ all. map W.number all.items ≡ replicate times first) }
{
    let mut all = Vec::with_capacity(alloc, times as usize)?;
    for _ in 0..times {
        all.push(W::of(first))?;
    }
    Ok(all)
}

impl Links {
    /// Lists that are all empty. Memory for more than 2^32 heads and nodes together is wanting.
    pub fn new(alloc: Global, heads: u32, nodes: u32) -> Result<Links, AllocError>
        ensures lists { IfOk result (λ l. l.lists ≡ replicate heads []) }
        ensures nodes { IfOk result (λ l. l.nodes ≡ nodes) }
        ensures few { OnOk result (heads + nodes ≤ 2 ^ 32) }
    {
        Links::empty(alloc, heads, nodes)
    }
}

impl Links<u16> {
    /// Lists that are all empty, of 16-bit numbers. An error where heads and nodes together are more than 2^16, or
    /// memory runs out.
    pub fn compact(alloc: Global, heads: u32, nodes: u32) -> Result<CompactLinks, AllocError>
        ensures lists { IfOk result (λ l. l.lists ≡ replicate heads []) }
        ensures nodes { IfOk result (λ l. l.nodes ≡ nodes) }
        ensures few { OnOk result (heads + nodes ≤ 2 ^ 16) }
    {
        Links::empty(alloc, heads, nodes)
    }
}

impl<W: Width> Links<W> {
    // Lists that are all empty. Where there are more heads and nodes than numbers, memory is wanting.
    fn empty(alloc: Global, heads: u32, nodes: u32) -> Result<Links<W>, AllocError>
        ensures lists { IfOk result (λ l. l.lists ≡ replicate heads []) }
        ensures nodes { IfOk result (λ l. l.nodes ≡ nodes) }
        ensures few { OnOk result (heads + nodes ≤ W.most + 1) }
    {
        let places = nodes as u64 + heads as u64;
        let most = W::most();
        if places > most as u64 + 1 {
            return Err(AllocError);
        }
        let next = lone_places(alloc, places)?;
        let prev = lone_places(alloc, places)?;
        let home = repeated(alloc, most, nodes)?;
        let len = repeated(alloc, 0, heads)?;
        Ok(Links {
            next,
            prev,
            home,
            len,
        })
    }

    // The place of a head's sentinel.
    fn sentinel(&self, head: u32) -> u32
        requires { head < length self.now.lists }
        ensures { result ≡ self.now.nodes + head }
    {
        self.home.len() as u32 + head
    }

    // The node at a place, and none at a sentinel.
    fn node_at(&self, place: u32) -> Option<u32>
        ensures { result ≡ node_in self.now.nodes place }
    {
        if (place as usize) < self.home.len() {
            Some(place)
        } else {
            None
        }
    }

    /// Puts a node behind the last of a list.
    pub fn push_back(&mut self, head: u32, node: u32)
        requires head { head < length self.old.lists }
        requires node { node < self.old.nodes }
        requires free { (h : ℕ) → has node (list_of self.old h) ≡ false }
        ensures lists { self.new.lists ≡ slice_set self.old.lists head (list_of self.old head ++ node ∷ []) }
        ensures nodes { self.new.nodes ≡ self.old.nodes }
    {
        let sentinel = self.sentinel(head);
        let last = self.prev[sentinel as usize];
        let place = W::of(node);
        self.next[last.get() as usize] = place;
        self.next[node as usize] = W::of(sentinel);
        self.prev[node as usize] = last;
        self.prev[sentinel as usize] = place;
        self.home[node as usize] = W::of(head);
        let count = self.len[head as usize].get();
        self.len[head as usize] = W::of(count + 1);
    }

    /// Takes a node out of its list, which closes up.
    pub fn remove(&mut self, node: u32)
        requires linked { (h : ℕ) × (has node (list_of self.old h) ≡ true) }
        ensures lists { self.new.lists ≡ map (without node) self.old.lists }
        ensures nodes { self.new.nodes ≡ self.old.nodes }
    {
        if let Some(head) = self.home(node) {
            let before = self.prev[node as usize];
            let after = self.next[node as usize];
            self.next[before.get() as usize] = after;
            self.prev[after.get() as usize] = before;
            self.home[node as usize] = W::of(W::most());
            let count = self.len[head as usize].get();
            self.len[head as usize] = W::of(count - 1);
        }
    }

    /// The first node of a list, and none where the list is empty.
    pub fn first(&self, head: u32) -> Option<u32>
        requires head { head < length self.now.lists }
        ensures first { result ≡ first_of (list_of self.now head) }
        ensures nodes { AreNodes self.now.nodes (list_of self.now head) }
    {
        self.node_at(self.next[self.sentinel(head) as usize].get())
    }

    /// The node behind a node in its list, and none behind the last or where the node is in no list.
    pub fn next(&self, node: u32) -> Option<u32>
        requires node { node < self.now.nodes }
        ensures linked { (h : ℕ) → has node (list_of self.now h) ≡ true → result ≡ following node (list_of self.now h) }
        ensures free { ((h : ℕ) → has node (list_of self.now h) ≡ false) → result ≡ None }
    {
        match self.home(node) {
            Some(_) => self.node_at(self.next[node as usize].get()),
            None => None,
        }
    }

    /// The head of the list that a node is in, and none where it is in no list.
    pub fn home(&self, node: u32) -> Option<u32>
        requires node { node < self.now.nodes }
        ensures { (h : ℕ) → has node (list_of self.now h) ≡ is_at h result }
    {
        let head = self.home[node as usize].get();
        if head == W::most() { None } else { Some(head) }
    }

    /// The length of a list.
    pub fn len(&self, head: u32) -> u32
        requires head { head < length self.now.lists }
        ensures { result ≡ length (list_of self.now head) }
    {
        self.len[head as usize].get()
    }
}
