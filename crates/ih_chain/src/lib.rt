//! Chains of moves, which are tried as one, and the texts of their journal.
#![tactic(auto)]

mod entries;
mod laws;
mod replicas;
mod running;
mod runs;
mod texts;

pub use entries::{ChainEntry, ChainOffer};
pub use ih_moves::Chain;
pub use laws::{
    chain_journals_are_short, chain_journals_tell_searches_apart, single_chains_are_moves,
    single_chains_have_the_same_line,
};
pub use replicas::ChainReplica;
pub use running::run_chains;
pub use runs::ChainRun;
pub use texts::{chain_head_line, chain_journal_text, chain_line, chain_text};
