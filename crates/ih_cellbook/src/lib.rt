//! The book that workers share: it takes offers priced on older copies. Of those neither frozen nor declined it accepts
//! exactly the ones of whose footprint no accepted entry has touched a cell since. Also what its entries stand for: the
//! text of their journal, and the timetable at each of their places.
#![tactic(auto)]

mod best;
mod books;
mod buffers;
mod chains;
mod counters;
mod entry_kinds;
mod journals;
mod laws;
mod news;
mod offers;
mod parts;
mod plans;
mod reads;
mod replicates;
mod sharing;
mod singles;

pub use best::best_in;
pub use books::Book;
pub use buffers::Buffer;
pub use counters::raise_read;
pub use entry_kinds::{Attempted, Logged, Offers};
pub use journals::{journal_text, put_journal};
pub use laws::{
    accepted_prices_are_exact, journals_tell_searches_apart, legal_histories_are_few,
    legal_histories_are_in_range, legal_journals_are_short, right_offers_stay_right,
    schedules_are_legal,
};
pub use news::News;
pub use offers::Offer;
pub use plans::plan_at;
pub use reads::Reads;
pub use replicates::{Opens, Replicates};
pub use sharing::{Basis, Try};
