//! What a journal begins with: the heading, whose options say what search it is of.

ghost use Rattle.std.specs.Prelude.{◌≡◌, ◌<◌, ◌^◌, ◌++◌, IfNone, IfSome};
ghost use Rattle.ih_top.specs.Below.Searches.{IsLawful, ended, heading};
ghost use Rattle.ih_top.specs.JournalFiles.{HasNoHeading};

use crate::journal_lines::first_line;
use ih_journal::{Options, parse_head};

/// The options of a journal's heading, and the bytes behind it.
pub fn heading_of(bytes: &[u8]) -> Option<(Options, &[u8])>
    ensures lawful { IfSome result (λ r. IsLawful r.0) }
    ensures seed { IfSome result (λ r. r.0.seed < 2 ^ 64) }
    ensures joins { IfSome result (λ r. bytes.now ≡ ended (heading r.0) ++ r.1.now) }
    ensures none { IfNone result (HasNoHeading bytes.now) }
{
    let (line, rest) = first_line(bytes)?;
    let options = parse_head(line)?;
    Some((options, rest))
}
