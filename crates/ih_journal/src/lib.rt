//! Options, entries and verdicts of a search, and the texts of its journal.
#![tactic(auto)]

mod entries;
mod headings;
mod laws;
mod lines;
mod named;
mod numerals;
mod parse;
mod reading;
mod settings;
mod small_numbers;
mod texts;
mod writing;

pub use entries::{Entry, Verdict};
pub use headings::parse_head;
pub use ih_plan::{MAX_HARD, MAX_HEAT, MAX_WORKERS, frozen};
pub use ih_tables::{JournalRefusal, Reason};
pub use laws::lone_workers_have_one_history;
pub use lines::{LineRoom, head_line, line, put_option};
pub use parse::{BadLine, journals_differ, parse_line};
pub use reading::parse_move;
pub use settings::{MAX_ENTRIES, MAX_MOVES, MAX_RETRIES, Options};
pub use texts::{named_text, price_text, text, verdict_text};
