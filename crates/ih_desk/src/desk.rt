//! The desk: it keeps the book behind a turn, out of reach until it is closed.

ghost use Rattle.std.specs.Prelude.{◌≡◌, ◌≤◌, [], ◌∷◌, ◌++◌, length, take, drop};
ghost use Rattle.ih_cellbook.specs.{BufferState.most_copied, Legal.AreLegalButDraws, Offers.IsRightOffer, Offers.entry_of};
ghost use Rattle.ih_cellbook.specs.{News.TellsOf};

use ih_cellbook::{Book, Buffer, Logged, News, Offers, right_offers_stay_right};
use ih_journal::Verdict;
use ih_turn::{Seat, Turn};
use std::alloc::Global;
use std::sync::Wait;

/// What workers share: a turn over a book. Each worker has a seat, which carries the history that it has seen. The turn
/// is a parameter, since a struct can't hold a turn over a type that has parameters itself.
#[derive(Drop)]
pub struct DeskOver<T> {
    turn: T,
}

/// A desk over a book of such entries.
pub type DeskOf<'a, E> = DeskOver<Turn<Book<'a, E>>>;

/// A worker's seat at such a desk.
pub type DeskSeat<'a, E> = Seat<Book<'a, E>>;

/// A desk over a book of moves.
pub type Desk<'a> = DeskOver<Turn<Book<'a>>>;

impl<'a, E: Logged> DeskOver<Turn<Book<'a, E>>> {
    ghost use Rattle.std.specs.Prelude.{ℕ, ◌+◌, ◌*◌, ◌^◌, ◌<◌, ◌==◌, IfOk, IfErr, map, slice_index, All, Contains};
    ghost use Rattle.std.specs.Prelude.{count_by};
    ghost use Rattle.ih_turn.specs.Seats.{history, number_of, made_count, turns_left};
    ghost use Rattle.ih_turn.specs.Rule.{GoesOn};
    ghost use Rattle.ih_desk.specs.Desks.{base_of, worker_count, IsDesk, IsSeatAt};
    ghost use Rattle.ih_desk.specs.Turns.{HasLooked, HasOffered, MayLook, MayOffer};

    /// Opens a desk over a book without entries, with a seat for each worker of its options. Each seat may look or
    /// offer `turns` times in all.
    ///
    /// # Errors
    /// The book, where memory runs out.
    pub fn open(
        alloc: Global,
        book: Book<'a, E>,
        workers: u32,
        turns: u64,
    ) -> Result<(DeskOf<'a, E>, Vec<DeskSeat<'a, E>>), Book<'a, E>>
        requires some { 1 ≤ workers }
        requires workers { workers ≡ book.base.options.workers }
        requires empty { book.entries ≡ [] }
        requires fits { workers * turns + 1 < 2 ^ 64 }
        ensures desk { IfOk result (λ t. IsDesk t.0 × (base_of t.0 ≡ book.entry.base) × (worker_count t.0 ≡ workers)) }
        ensures numbers { IfOk result
            (λ t. (length t.1.items ≡ workers)
            × ((k : ℕ) → k < workers → slice_index (map number_of t.1.items) k ≡ k)) }
        ensures fresh { IfOk result
            (λ t. All (λ s. IsSeatAt t.0 s × (history s ≡ []) × (made_count s ≡ 0)
            × (turns_left s ≡ turns)) t.1.items) }
        ensures refused { IfErr result (λ b. b ≡ book.entry) }
    {
        match Turn::new(alloc, book, workers, turns) {
            Ok((turn, seats)) => Ok((DeskOver { turn }, seats)),
            Err(book) => Err(book),
        }
    }

    /// Looks at the history, which the seat has then seen whole. The buffer's entries are those from its place `from`
    /// on, or the first 256 of them where there are more, and its front is the number of all entries. It uses one of
    /// the seat's turns, waits for it, and takes no memory. For users of the crate: a search looks by `look_for_news`.
    pub fn look<R: Wait>(
        &self,
        rt: &R,
        seat: DeskSeat<'a, E>,
        buffer: &mut Buffer<E>,
    ) -> DeskSeat<'a, E>
        requires may { MayLook self.now buffer.old.from seat }
        ensures looked { HasLooked self.now seat.entry result }
        ensures copied { buffer.new
            ≡ record {
              from = buffer.old.from;
              entries = take most_copied
                  (drop buffer.old.from (history result));
              front = length (history result);
            } }
    {
        let held = self.turn.take(rt, seat);
        copy(held.get(), buffer);
        held.give()
    }

    /// Looks at the history, which the seat has then seen whole, by one turn of the seat. It takes no memory.
    /// The news have what was accepted from place `from` on: up to the end, or up to 256 accepted entries.
    pub fn look_for_news<R: Wait>(
        &self,
        rt: &R,
        seat: DeskSeat<'a, E>,
        from: u32,
        news: &mut News<E>,
    ) -> DeskSeat<'a, E>
        requires may { MayLook self.now from seat }
        ensures looked { HasLooked self.now seat.entry result }
        ensures told { TellsOf (history result) from news.new }
    {
        let held = self.turn.take(rt, seat);
        tell(held.get(), from, news);
        held.give()
    }

    /// Offers the next attempt of the seat's worker, and answers its verdict. The history that the seat has then seen
    /// ends with this entry. It uses one of the seat's turns, waits for it, and takes no memory. For users of the
    /// crate: a search's workers offer and look by one turn.
    pub fn offer<R: Wait>(
        &self,
        rt: &R,
        seat: DeskSeat<'a, E>,
        offer: &E::Offer,
    ) -> (DeskSeat<'a, E>, Verdict)
        requires may { MayOffer self.now (E.Offer.offered offer.now) seat }
        ensures offered { HasOffered self.now (E.Offer.offered offer.now) result.1 seat.entry result.0 }
    {
        // For the proof alone.
        right_offers_stay_right();
        let mut held = self.turn.take(rt, seat);
        let verdict = commit(held.get_mut(), offer);
        (held.give(), verdict)
    }

    /// Offers the next attempt of the seat's worker, and answers its verdict. By the same turn the news have what was
    /// accepted that the offer had not seen, its own entry the last: up to the end, or to 256 accepted entries.
    pub fn offer_and_look<R: Wait>(
        &self,
        rt: &R,
        seat: DeskSeat<'a, E>,
        offer: &E::Offer,
        news: &mut News<E>,
    ) -> (DeskSeat<'a, E>, Verdict)
        requires may { MayOffer self.now (E.Offer.offered offer.now) seat }
        ensures offered { HasOffered self.now (E.Offer.offered offer.now) result.1 seat.entry result.0 }
        ensures told { TellsOf (history result.0) (E.Offer.offered offer.now).seen news.new }
    {
        // For the proof alone.
        right_offers_stay_right();
        let mut held = self.turn.take(rt, seat);
        let verdict = commit_and_tell(held.get_mut(), offer, news);
        (held.give(), verdict)
    }

    /// Gives the book back, once all seats have come back. It has just the entries that they made.
    pub fn close(self, seats: Vec<DeskSeat<'a, E>>) -> Book<'a, E>
        requires desk { IsDesk self }
        requires own { All (IsSeatAt self) seats.items }
        requires all { (n : ℕ) → n < worker_count self → Contains (map number_of seats.items) n }
        ensures base { result.base ≡ base_of self.entry }
        ensures legal { AreLegalButDraws result.base result.entries }
        // each seat's history begins it, and past that nothing is by the seat's worker
        ensures seen { All (λ s. GoesOn (λ e. e.worker) (number_of s) (history s) result.entries) seats.entry.items }
        // each entry is by the worker of a seat, and each seat's worker has as many as the seat made
        ensures makers { All (λ e. e.worker < worker_count self.entry) result.entries }
        ensures made { All (λ s. count_by (λ e. e.worker == number_of s) result.entries
            ≡ made_count s) seats.entry.items }
    {
        let DeskOver { turn } = self;
        let book = turn.close(seats);
        // For the proof alone: the entries are legal.
        book.entries();
        book
    }
}

// Copies what a book has from the buffer's place on.
fn copy<E: Logged>(book: &Book<'_, E>, buffer: &mut Buffer<E>)
    requires { buffer.old.from ≤ length book.now.entries }
    ensures copied { buffer.new
        ≡ record {
          from = buffer.old.from;
          entries = take most_copied
              (drop buffer.old.from book.now.entries);
          front = length book.now.entries;
        } }
    ensures legal { AreLegalButDraws book.now.base book.now.entries }
{
    let from = buffer.from();
    // For the proof alone: the entries are legal.
    book.entries();
    book.copy_since(from, buffer);
}

// Tells what was accepted in a book from a place on.
fn tell<E: Logged>(book: &Book<'_, E>, from: u32, news: &mut News<E>)
    requires { from ≤ length book.now.entries }
    ensures told { TellsOf book.now.entries from news.new }
    ensures legal { AreLegalButDraws book.now.base book.now.entries }
{
    // For the proof alone: the entries are legal.
    book.entries();
    book.news_since(from, news);
}

// Commits an offer to a book.
fn commit<E: Logged>(book: &mut Book<'_, E>, offer: &E::Offer) -> Verdict
    requires { IsRightOffer book.old.base book.old.entries (E.Offer.offered offer.now) }
    ensures base { book.new.base ≡ book.old.base }
    ensures entries { book.new.entries
        ≡ book.old.entries ++ entry_of book.old.base book.old.entries (E.Offer.offered offer.now) result ∷ [] }
    ensures legal { AreLegalButDraws book.new.base book.new.entries }
{
    let verdict = book.commit(offer);
    // For the proof alone: the entries are legal.
    book.entries();
    verdict
}

// Commits an offer to a book, and then tells what was accepted in it of the entries that the offer hadn't seen.
fn commit_and_tell<E: Logged>(
    book: &mut Book<'_, E>,
    offer: &E::Offer,
    news: &mut News<E>,
) -> Verdict
    requires { IsRightOffer book.old.base book.old.entries (E.Offer.offered offer.now) }
    ensures base { book.new.base ≡ book.old.base }
    ensures entries { book.new.entries
        ≡ book.old.entries ++ entry_of book.old.base book.old.entries (E.Offer.offered offer.now) result ∷ [] }
    ensures told { TellsOf book.new.entries (E.Offer.offered offer.now).seen news.new }
    ensures legal { AreLegalButDraws book.new.base book.new.entries }
{
    let verdict = commit(book, offer);
    tell(book, offer.seen(), news);
    verdict
}
