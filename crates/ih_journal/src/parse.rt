//! Reading a line of a journal, field by field.

ghost use Rattle.std.specs.Prelude.{◌≡◌, ◌+◌, ◌++◌, ◌<◌, ◌^◌, ℕ, List, [], ◌∷◌, length, IfOk, IfErr, IfSome, IfNone};
ghost use Rattle.std.specs.Prelude.{OnOk, Ok, decimal};
ghost use Rattle.ih_tables.specs.declared.drafts.Draft.{Draft};
ghost use Rattle.ih_plan.specs.Expand.{IsMoveOf};
ghost use Rattle.ih_journal.specs.Texts.{again_field, move_text, price_text, verdict_text};
ghost use Rattle.ih_journal.specs.Grammar.{JournalsDiffer, FieldKind, IsField, IsLineOf, IsFirstWrong, IsPrice, IsVerdictOf};
ghost use Rattle.ih_journal.specs.Grammar.{kinds, again_kind, count_kind, move_kind, price_kind, verdict_kind};
ghost use Rattle.ih_journal.specs.Lines.{IsAt, HasRead, NamesWrong, Wants};
ghost use Rattle.ih_journal.specs.{declared.entries.Entry.Entry, Pieces.fields_from};

use crate::entries::{Entry, Verdict};
use crate::numerals::{cut, number_of};
use crate::reading::{parse_move, price_of, verdict_of};
use crate::settings::Options;
use ih_plan::Move;
use ih_tables::{Bill, Instance};

/// A line that isn't of the grammar.
#[derive(Clone, Copy, Debug, PartialEq, Eq)]
pub struct BadLine {
    /// The first field, from 1, that is missing or wrong, or that is one too many.
    pub field: u32,
}

// The next field: its index, from 0, and where it begins. Behind the last field that is past the end.
#[derive(Clone, Copy)]
struct Next {
    index: u32,
    at: usize,
}

// What a field of a line is the text of.
trait Piece: Sized {
    ghost kind: { FieldKind };

    ghost inside: { Draft → Self → Type 0 };

    ghost text: { Self → List ℕ };

    fn of(inst: &Instance, field: &[u8]) -> Option<Self>
        ensures some { IfSome result (λ x. inside inst.now.draft x × (field.now ≡ text x)
            × IsField inst.now.draft kind field.now) }
        ensures none { IfNone result (IsField inst.now.draft kind field.now → ⊥) };
}

impl Piece for u32 {
    ghost kind = { count_kind };

    ghost inside = { λ I n. n < 2 ^ 32 };

    ghost text = { decimal };

    fn of(_inst: &Instance, field: &[u8]) -> Option<Self> {
        let n = number_of(field, u32::MAX as u64)?;
        Some(n as u32)
    }
}

impl Piece for Move {
    ghost kind = { move_kind };

    ghost inside = { IsMoveOf };

    ghost text = { move_text };

    fn of(inst: &Instance, field: &[u8]) -> Option<Self> {
        parse_move(inst, field)
    }
}

impl Piece for Bill {
    ghost kind = { price_kind };

    ghost inside = { λ I b. IsPrice b };

    ghost text = { price_text };

    fn of(_inst: &Instance, field: &[u8]) -> Option<Self> {
        price_of(field)
    }
}

impl Piece for Verdict {
    ghost kind = { verdict_kind };

    ghost inside = { IsVerdictOf };

    ghost text = { verdict_text };

    fn of(inst: &Instance, field: &[u8]) -> Option<Self> {
        verdict_of(inst, field)
    }
}

// A line that is read for an instance, in the form that the options ask for.
#[derive(Clone, Copy)]
struct Line<'a> {
    inst: &'a Instance,
    options: &'a Options,
    bytes: &'a [u8],
}

impl<'a> Line<'a> {
    fn field(&self, next: Next) -> Result<(&'a [u8], Next), BadLine>
        requires read { IsAt self.now next }
        requires wanted { next.index < length (kinds self.now.options.now) }
        ensures index { IfOk result (λ r. r.1.index ≡ next.index + 1) }
        ensures ok { IfOk result
            (λ r. fields_from self.now.bytes.now next.at ≡ r.0.now ∷ fields_from self.now.bytes.now r.1.at) }
        ensures err { IfErr result (NamesWrong self.now) }
    {
        if next.at > self.bytes.len() {
            return Err(BadLine {
                field: next.index + 1,
            });
        }
        let (field, _) = cut(&self.bytes[next.at..], b' ');
        let after = Next {
            index: next.index + 1,
            at: next.at + field.len() + 1,
        };
        Ok((field, after))
    }

    // The next field as a value of its kind.
    fn piece<T: Piece>(&self, next: Next) -> Result<(T, Next), BadLine>
        requires read { IsAt self.now next }
        requires wanted { Wants self.now next T.kind }
        ensures inside { IfOk result (λ r. T.inside self.now.inst.now.draft r.0) }
        ensures ok { IfOk result (λ r. HasRead self.now next (T.text r.0) r.1) }
        ensures err { IfErr result (NamesWrong self.now) }
    {
        let (field, after) = self.field(next)?;
        match T::of(self.inst, field) {
            Some(value) => Ok((value, after)),
            None => Err(BadLine {
                field: next.index + 1,
            }),
        }
    }

    // The try, which stands in a line only where moves are tried again.
    fn again(&self, next: Next) -> Result<(u32, Next), BadLine>
        requires read { IsAt self.now next }
        requires third { next.index ≡ 3 }
        ensures short { IfOk result (λ r. r.0 < 2 ^ 32) }
        ensures once { IfOk result (λ r. self.now.options.now.retries ≡ 0 → r.0 ≡ 0) }
        ensures read { IfOk result (λ r. IsAt self.now r.1) }
        ensures index { IfOk result (λ r. r.1.index ≡ 3 + length (again_kind self.now.options.now.retries)) }
        ensures ok { IfOk result
            (λ r. fields_from self.now.bytes.now next.at
            ≡ again_field self.now.options.now.retries r.0 ++ fields_from self.now.bytes.now r.1.at) }
        ensures err { IfErr result (NamesWrong self.now) }
    {
        match self.options.retries {
            0 => Ok((0, next)),
            _ => self.piece(next),
        }
    }

    fn end(&self, next: Next) -> Result<(), BadLine>
        requires read { IsAt self.now next }
        requires all { next.index ≡ length (kinds self.now.options.now) }
        ensures ok { OnOk result (fields_from self.now.bytes.now next.at ≡ []) }
        ensures err { IfErr result (NamesWrong self.now) }
    {
        if next.at > self.bytes.len() {
            Ok(())
        } else {
            Err(BadLine {
                field: next.index + 1,
            })
        }
    }

    fn entry(&self) -> Result<(u32, Entry), BadLine>
        ensures ok { IfOk result
            (λ r. IsLineOf self.now.inst.now.draft self.now.options.now r.0 r.1 self.now.bytes.now) }
        ensures err { IfErr result (NamesWrong self.now) }
    {
        let (place, next) = self.piece(Next { index: 0, at: 0 })?;
        let (worker, next) = self.piece(next)?;
        let (number, next) = self.piece(next)?;
        let (again, next) = self.again(next)?;
        let (seen, next) = self.piece(next)?;
        let (mv, next) = self.piece(next)?;
        let (price, next) = self.piece(next)?;
        let (verdict, next) = self.piece(next)?;
        self.end(next)?;
        let entry = Entry {
            worker,
            number,
            again,
            seen,
            mv,
            price,
            verdict,
        };
        Ok((place, entry))
    }
}

/// Reads the line of an entry, without its line feed: its place and the entry. Where the bytes are no such line, says
/// which field is the first that is missing or wrong, or that one is too many.
pub fn parse_line(inst: &Instance, options: &Options, bytes: &[u8]) -> Result<(u32, Entry), BadLine>
    ensures ok { IfOk result (λ r. IsLineOf inst.now.draft options.now r.0 r.1 bytes.now) }
    ensures only { (k : ℕ) (e : Entry) → IsLineOf inst.now.draft options.now k e bytes.now → result ≡ Ok (k, e) }
    ensures err { IfErr result (λ e. IsFirstWrong inst.now.draft options.now bytes.now e.field) }
{
    let line = Line {
        inst,
        options,
        bytes,
    };
    line.entry()
}

/// Two searches of an instance that differ in their options or in an entry have two journals.
pub fn journals_differ()
    ensures { JournalsDiffer }
{}
