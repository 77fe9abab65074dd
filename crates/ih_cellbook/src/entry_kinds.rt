//! What is tried as one, and what keeps it: entries and offers, of one move or of several in a row.

ghost use Rattle.std.specs.Prelude.{◌≡◌, ℕ, ◌<◌, ◌≤◌, ◌++◌, ◌∷◌, [], List, All, IfOk, IsTrue, true, length, slice_index};
ghost use Rattle.ih_plan.specs.{Sums.tagged, declared.moves.Move.Move};
ghost use Rattle.ih_journal.specs.{Tried.Tried};
ghost use Rattle.ih_cellbook.specs.Offered.{Offered};

use crate::reads::Reads;
use ih_journal::Verdict;
use ih_plan::Move;
use ih_tables::Bill;
use std::alloc::{AllocError, Global};

/// Moves in a row that are tried as one.
pub trait Attempted: Copy {
    ghost moves: { Self → List Move };

    // How many moves it may have.
    ghost most_moves: { ℕ };

    // The latest freeze day under which it may be tried: any for single moves, day 0 for chains, which freeze nothing.
    ghost most_freeze: { ℕ };

    /// The one move.
    fn of(mv: Move) -> Self
        ensures { moves result ≡ mv ∷ [] };

    /// Puts a move behind the others, if there is room for it.
    fn push(&mut self, mv: Move)
        ensures room { length (moves self.old) < most_moves → moves self.new ≡ moves self.old ++ mv ∷ [] }
        ensures full { most_moves ≤ length (moves self.old) → moves self.new ≡ moves self.old };

    /// The moves, in order.
    fn as_slice(&self) -> &[Move]
        ensures { result.now ≡ moves self.now };

    /// Whether it is found to be the same as another. An answer of no says nothing.
    fn is_same(&self, other: &Self) -> bool
        ensures { IsTrue result → moves self.now ≡ moves other.now };

    // Where a choice may be frozen, it has one move at most.
    ghost alone: { (a : Self) → 0 < most_freeze → length (moves a) ≤ 1 };
}

/// An offer of such moves.
pub trait Offers: Drop {
    type Attempt: Attempted;

    ghost offered: { Self → Offered };

    /// An offer of nothing, with room for the versions of so many cells.
    fn blank(alloc: Global, worker: u32, cells: u32) -> Result<Self, AllocError>
        ensures worker { IfOk result (λ o. (offered o).worker ≡ worker) }
        ensures seen { IfOk result (λ o. (offered o).seen ≡ 0) }
        ensures reads { IfOk result (λ o. (offered o).reads ≡ record { pairs = []; room = cells }) };

    /// Makes it an offer of one who has seen nothing, and takes its cells out.
    fn reset(&mut self)
        ensures worker { (offered self.new).worker ≡ (offered self.old).worker }
        ensures seen { (offered self.new).seen ≡ 0 }
        ensures reads { (offered self.new).reads ≡ record (offered self.old).reads { pairs = [] } };

    /// Makes it the offer of these moves, without cells.
    fn become_offer(
        &mut self,
        worker: u32,
        attempt_no: u32,
        seen: u32,
        attempt: &Self::Attempt,
        price: &Bill,
        frozen: bool,
    )
        requires { frozen ≡ true → 0 < Self.Attempt.most_freeze }
        ensures { offered self.new
            ≡ record (offered self.old) {
              worker = worker;
              number = attempt_no;
              seen = seen;
              moves = Self.Attempt.moves attempt.now;
              price = price.now;
              reads = record (offered self.old).reads { pairs = [] };
              frozen = frozen;
            } };

    /// Notes cells with their versions, in place of what was noted.
    fn note(&mut self, cells: &[u32], versions: &[u32])
        requires cells { All (λ n. n < length versions.now) cells.now }
        requires room { length cells.now ≤ (offered self.old).reads.room }
        ensures { offered self.new
            ≡ record (offered self.old) {
              reads = record
                  (offered self.old).reads { pairs = tagged (slice_index versions.now) cells.now };
            } };

    fn worker(&self) -> u32
        ensures { result ≡ (offered self.now).worker };

    fn number(&self) -> u32
        ensures { result ≡ (offered self.now).number };

    fn seen(&self) -> u32
        ensures { result ≡ (offered self.now).seen };

    fn attempt(&self) -> Self::Attempt
        ensures { Self.Attempt.moves result ≡ (offered self.now).moves };

    fn price(&self) -> Bill
        ensures { result ≡ (offered self.now).price };

    fn reads(&self) -> &Reads
        ensures { result.now ≡ (offered self.now).reads };

    fn frozen(&self) -> bool
        ensures { result ≡ (offered self.now).frozen };
}

/// An entry of such moves.
pub trait Logged: Copy {
    type Attempt: Attempted;

    type Offer: Offers<Attempt = Self::Attempt>;

    // How often an attempt may be tried again at most.
    ghost most_retries: { ℕ };

    ghost tried: { Self → Tried };

    /// An entry of nobody, with which room is written ahead.
    fn blank() -> Self;

    /// The entry of one try.
    fn made(
        worker: u32,
        attempt_no: u32,
        again: u32,
        seen: u32,
        attempt: &Self::Attempt,
        price: &Bill,
        verdict: Verdict,
    ) -> Self
        requires { again ≤ most_retries }
        ensures { tried result
            ≡ record {
              worker = worker;
              number = attempt_no;
              again = again;
              seen = seen;
              moves = Self.Attempt.moves attempt.now;
              price = price.now;
              verdict = verdict;
            } };

    fn worker(&self) -> u32
        ensures { result ≡ (tried self.now).worker };

    fn seen(&self) -> u32
        ensures { result ≡ (tried self.now).seen };

    fn attempt(&self) -> Self::Attempt
        ensures { Self.Attempt.moves result ≡ (tried self.now).moves };

    fn again(&self) -> u32
        ensures { result ≡ (tried self.now).again };

    fn price(&self) -> Bill
        ensures { result ≡ (tried self.now).price };

    fn verdict(&self) -> Verdict
        ensures { result ≡ (tried self.now).verdict };
}
