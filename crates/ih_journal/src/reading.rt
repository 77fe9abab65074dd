//! Reading moves, cells, prices and verdicts.

ghost use Rattle.std.specs.Prelude.{◌≡◌, ◌≤◌, ℕ, List, IfSome, IfNone, Some, true, length, take, drop};
ghost use Rattle.ih_plan.specs.{declared.moves.Move.Move, Expand.IsMoveOf, Cells.IsCellOf};
ghost use Rattle.ih_tables.specs.{declared.cells.Cell.Cell, declared.bills.Bill.Bill};
ghost use Rattle.ih_journal.specs.Texts.{move_text, cell_text, price_text, verdict_text};
ghost use Rattle.ih_journal.specs.{Names.move_numbers, Names.cell_numbers, Names.AreShort, Pieces.IsCut};
ghost use Rattle.ih_journal.specs.{declared.entries.Verdict.Verdict, Grammar.IsPrice, Grammar.IsVerdictOf};
ghost use Rattle.ih_journal.specs.{Attempts.is_stale};

use crate::entries::Verdict;
use crate::named::{cell_named, has_cell, has_move, is, move_named};
use crate::numerals::{cut, number_of, numbers, signed_numbers};
use ih_plan::Move;
use ih_tables::{Bill, Cell, Instance};

// The name before the first separator, and how many numbers stand behind it, with the other separator between each two.
// They go into the front of `out`.
fn name_and_numbers<'a>(
    bytes: &'a [u8],
    behind: u8,
    between: u8,
    out: &mut [u32],
) -> Option<(&'a [u8], usize)>
    ensures some { IfSome result
        (λ r. (r.1 ≤ length out.old) × IsCut behind between bytes.entry.now r.0.now (take r.1 out.new)) }
    ensures none { IfNone result ((name ns : List ℕ) → length ns ≤ length out.old
        → IsCut behind between bytes.entry.now name ns → ⊥) }
{
    let (name, rest) = cut(bytes, behind);
    let count = numbers(rest?, between, out)?;
    Some((name, count))
}

// A move whose numbers have at most 32 bits.
fn spelled_move(bytes: &[u8]) -> Option<Move>
    ensures some { IfSome result (λ m. (bytes.now ≡ move_text m) × AreShort (move_numbers m)) }
    ensures none { IfNone result ((m : Move) → AreShort (move_numbers m) → bytes.now ≡ move_text m → ⊥) }
{
    if is(bytes, "idle") {
        return Some(Move::Idle);
    }
    let mut ns = [0; 4];
    let (name, count) = name_and_numbers(bytes, b':', b',', &mut ns)?;
    move_named(name, &ns[..count])
}

/// Reads the text of a move. There is none where the bytes are the text of no move in range of the instance.
pub fn parse_move(inst: &Instance, bytes: &[u8]) -> Option<Move>
    ensures some { IfSome result (λ m. IsMoveOf inst.now.draft m × (bytes.now ≡ move_text m)) }
    ensures only { (m : Move) → IsMoveOf inst.now.draft m → bytes.now ≡ move_text m → result ≡ Some m }
{
    let mv = spelled_move(bytes)?;
    if has_move(inst, &mv) { Some(mv) } else { None }
}

// A cell whose numbers have at most 32 bits.
fn spelled_cell(bytes: &[u8]) -> Option<Cell>
    ensures some { IfSome result (λ c. (bytes.now ≡ cell_text c) × AreShort (cell_numbers c)) }
    ensures none { IfNone result ((c : Cell) → AreShort (cell_numbers c) → bytes.now ≡ cell_text c → ⊥) }
{
    let mut ns = [0; 2];
    let (name, count) = name_and_numbers(bytes, b'.', b'.', &mut ns)?;
    cell_named(name, &ns[..count])
}

/// Reads the text of a cell of the instance.
pub fn cell_of(inst: &Instance, bytes: &[u8]) -> Option<Cell>
    ensures some { IfSome result (λ c. IsCellOf inst.now.draft c × (bytes.now ≡ cell_text c)) }
    ensures none { IfNone result ((c : Cell) → IsCellOf inst.now.draft c → bytes.now ≡ cell_text c → ⊥) }
{
    let cell = spelled_cell(bytes)?;
    if has_cell(inst, &cell) {
        Some(cell)
    } else {
        None
    }
}

// The nine counts, then the eight costs.
fn bill_of(all: &[i64]) -> Bill
    requires { length all.now ≡ 17 }
    ensures counts { result.v ≡ take 9 all.now }
    ensures costs { result.s ≡ drop 9 all.now }
{
    let mut price = Bill::zero();
    price.v.copy_from_slice(&all[..9]);
    price.s.copy_from_slice(&all[9..]);
    price
}

/// Reads the text of a price.
pub fn price_of(bytes: &[u8]) -> Option<Bill>
    ensures some { IfSome result (λ b. IsPrice b × (bytes.now ≡ price_text b)) }
    ensures none { IfNone result ((b : Bill) → IsPrice b → bytes.now ≡ price_text b → ⊥) }
{
    let mut all = [0; 17];
    let count = signed_numbers(bytes, &mut all)?;
    if count == 17 {
        Some(bill_of(&all))
    } else {
        None
    }
}

// What a stale verdict carries.
fn stale_of(inst: &Instance, bytes: &[u8]) -> Option<Verdict>
    ensures some { IfSome result (λ v. IsVerdictOf inst.now.draft v × (bytes.now ≡ verdict_text v)) }
    ensures none { IfNone result
        ((v : Verdict) → IsVerdictOf inst.now.draft v → is_stale v ≡ true → bytes.now ≡ verdict_text v → ⊥) }
{
    let (name, rest) = cut(bytes, b':');
    if !is(name, "stale") {
        return None;
    }
    let (cell, rest) = cut(rest?, b':');
    let (seen, rest) = cut(rest?, b':');
    let cell = cell_of(inst, cell)?;
    let at_seen = number_of(seen, u32::MAX as u64)? as u32;
    let at_place = number_of(rest?, u32::MAX as u64)? as u32;
    Some(Verdict::Stale {
        cell,
        at_seen,
        at_place,
    })
}

/// Reads the text of a verdict.
pub fn verdict_of(inst: &Instance, bytes: &[u8]) -> Option<Verdict>
    ensures some { IfSome result (λ v. IsVerdictOf inst.now.draft v × (bytes.now ≡ verdict_text v)) }
    ensures none { IfNone result ((v : Verdict) → IsVerdictOf inst.now.draft v → bytes.now ≡ verdict_text v → ⊥) }
{
    if is(bytes, "accepted") {
        Some(Verdict::Accepted)
    } else if is(bytes, "declined") {
        Some(Verdict::Declined)
    } else if is(bytes, "frozen") {
        Some(Verdict::Frozen)
    } else {
        stale_of(inst, bytes)
    }
}
