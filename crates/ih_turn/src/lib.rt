//! A turn: a ticket lock over a value that keeps a list of entries, whose seats carry the history that they have seen.
//!
//! Two words and one slot are shared: `ticket` counts the tickets that were handed out, `serving` those that are done
//! with, and the slot has the value while no seat has the turn. Between any two steps:
//!
//! - `serving` is at most `ticket`, and neither can come round to 0 again, since all seats' turns together are few
//!   enough;
//! - each ticket from `serving` on is held by just one seat that waits, and no two seats hold one ticket;
//! - a seat that has the turn holds the ticket `serving`; then the slot is empty and nobody else can have the turn;
//! - while nobody has the turn, the value lies in the slot;
//! - the value's list only grows, by entries whose makers are numbers of seats;
//! - each list that a seat has seen begins the kept one, and what stands behind it there is by other makers;
//! - so who takes the turn finds its own history at the list's head, and nothing of its own behind it.
#![tactic(auto)]

mod closing;
mod held;
mod kept;
mod lends;
mod rule;
mod seat;
mod turn;
mod view;

pub use held::Held;
pub use kept::Kept;
pub use seat::Seat;
pub use turn::Turn;
