//! The lines of a journal, which are taken one by one.

ghost use Rattle.std.specs.Prelude.{◌≡◌, ◌+◌, ◌==◌, List, [], ℕ, IfErr, IfNone, IfSome, OnOk, length, position};
ghost use Rattle.ih_top.specs.Below.Searches.{IsFull, lines_from, tries};
ghost use Rattle.ih_top.specs.JournalLines.{Begins, HasLine, HasNoLineFeed, IsRefusedAt, IsRestRefused};

use ih_journal::{JournalRefusal, Reason};
use ih_replay::Replay;

fn place_of_feed(bytes: &[u8]) -> Option<usize>
    ensures { result ≡ position (λ b. b == 10) bytes.now }
{
    bytes.iter().position(|b| *b == b'\n')
}

/// The first line of the bytes, without its line feed, and what stands behind that.
pub fn first_line(bytes: &[u8]) -> Option<(&[u8], &[u8])>
    ensures some { IfSome result (λ r. HasLine bytes.now r.0.now r.1.now) }
    ensures none { IfNone result (HasNoLineFeed bytes.now) }
{
    match place_of_feed(bytes) {
        Some(i) => Some((&bytes[..i], &bytes[i + 1..])),
        None => None,
    }
}

// The lines of the journal end here: nothing is left, or bytes without a line feed.
fn end_of_lines(replay: &Replay<'_>, rest: &[u8]) -> Result<(), JournalRefusal>
    requires { HasNoLineFeed rest.now }
    ensures full { OnOk result (IsFull replay.now.base 1 (tries replay.now.entries)) }
    ensures whole { OnOk result (rest.now ≡ []) }
    ensures line { IfErr result (λ e. e.line ≡ length replay.now.entries + 2) }
    ensures reason { IfErr result (λ e. IsRestRefused replay.now.base replay.now.entries rest.now e.reason) }
{
    let whole = replay.finish();
    if rest.is_empty() {
        return whole;
    }
    let line = replay.entries().len() as u64 + 2;
    match whole {
        Ok(()) => Err(JournalRefusal {
            line,
            reason: Reason::Extra,
        }),
        Err(_) => Err(JournalRefusal {
            line,
            reason: Reason::Grammar,
        }),
    }
}

/// Takes the lines behind a journal's heading, as far as they are those of a legal history. Where that isn't a full one
/// with nothing behind it, the answer says which line is the first that isn't as it ought to be, and why.
pub fn take_lines(replay: &mut Replay<'_>, bytes: &[u8]) -> Result<(), JournalRefusal>
    requires { replay.old.entries ≡ [] }
    ensures base { replay.new.base ≡ replay.old.base }
    ensures full { OnOk result (IsFull replay.new.base 1 (tries replay.new.entries)) }
    ensures whole { OnOk result (bytes.now ≡ lines_from replay.new.base.options 0 replay.new.entries) }
    ensures begins { (rest : List ℕ) × Begins replay.new.base bytes.now replay.new.entries rest }
    ensures refused { IfErr result (IsRefusedAt replay.new.base bytes.now replay.new.entries) }
{
    let mut rest = bytes;
    while let Some((line, more)) = first_line(rest) {
        match replay.step(line) {
            Ok(()) => rest = more,
            Err(refusal) => return Err(refusal),
        }
    }
    end_of_lines(replay, rest)
}
