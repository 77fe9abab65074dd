//! What a search begins with.

use ih_journal::Options;
use ih_plan::Plan;
use ih_tables::Instance;

/// What a search works on (in clauses: `base_given`): the instance, the start, the options, and the first day whose
/// choices may change, which is 0 where all may.
#[derive(Drop)]
pub struct Given<'a> {
    pub inst: &'a Instance,
    pub start: &'a Plan,
    pub options: Options,
    pub freeze: u32,
}
