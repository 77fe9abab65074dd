//! Writing the texts of moves, cells, prices and verdicts.

ghost use Rattle.std.specs.Prelude.{◌≡◌, ◌+◌, ◌*◌, ◌≤◌, ◌++◌, ◌∷◌, [], OnOk, OnErr, IsTrue, length, take, map};
ghost use Rattle.std.specs.Prelude.{decimal, pos};
ghost use Rattle.std.specs.Fmt.{signed_decimal};
ghost use Rattle.ih_journal.specs.Texts.{move_text, cell_text, price_text, verdict_text, named, dotted, IsPart};
ghost use Rattle.ih_journal.specs.Pieces.{marked};

use crate::entries::Verdict;
use crate::writing::{put_byte, put_number, put_signed, put_text};
use ih_plan::Move;
use ih_tables::{Bill, Cell};
use std::alloc::AllocError;

// Each number with the separator before it.
#[inline(always)]
fn put_marked(buffer: &mut [u8], at: usize, separator: u8, numbers: &[u32]) -> usize
    requires { at + 21 * length numbers.now ≤ length buffer.old }
    ensures text { take result buffer.new ≡ take at buffer.old ++ marked separator (map decimal numbers.now) }
    ensures within { result ≤ at + 21 * length numbers.now }
{
    let mut end = at;
    for n in numbers {
        end = put_byte(buffer, end, separator);
        end = put_number(buffer, end, u64::from(*n));
    }
    end
}

#[inline(always)]
fn put_named(buffer: &mut [u8], at: usize, name: &str, first: u32, rest: &[u32]) -> usize
    requires { at + length name.now + 21 + 21 * length rest.now ≤ length buffer.old }
    ensures text { take result buffer.new ≡ take at buffer.old ++ named name.now (first ∷ rest.now) }
    ensures within { result ≤ at + length name.now + 21 + 21 * length rest.now }
{
    let end = put_text(buffer, at, name);
    let end = put_byte(buffer, end, b':');
    let end = put_number(buffer, end, u64::from(first));
    put_marked(buffer, end, b',', rest)
}

#[inline(always)]
fn put_dotted(buffer: &mut [u8], at: usize, name: &str, numbers: &[u32]) -> usize
    requires { at + length name.now + 21 * length numbers.now ≤ length buffer.old }
    ensures text { take result buffer.new ≡ take at buffer.old ++ dotted name.now numbers.now }
    ensures within { result ≤ at + length name.now + 21 * length numbers.now }
{
    let end = put_text(buffer, at, name);
    put_marked(buffer, end, b'.', numbers)
}

/// Writes a move.
#[tactic(auto, unfolding(crate::specs::Texts::move_text))]
pub(crate) fn put_move(buffer: &mut [u8], at: usize, mv: &Move) -> usize
    requires { at + 94 ≤ length buffer.old }
    ensures text { take result buffer.new ≡ take at buffer.old ++ move_text mv.now }
    ensures within { result ≤ at + 94 }
{
    match *mv {
        Move::Idle => put_text(buffer, at, "idle"),
        Move::Place(p, x) => {
            put_named(buffer, at, "place", p.0, &[x.day.0, x.room.0, x.theatre.0])
        }
        Move::Withdraw(p) => put_named(buffer, at, "withdraw", p.0, &[]),
        Move::SetDay(p, d) => put_named(buffer, at, "setday", p.0, &[d.0]),
        Move::SetRoom(p, r) => put_named(buffer, at, "setroom", p.0, &[r.0]),
        Move::SetTheatre(p, t) => put_named(buffer, at, "settheatre", p.0, &[t.0]),
        Move::SwapRooms(p, q) => put_named(buffer, at, "swaprooms", p.0, &[q.0]),
        Move::Nurse(r, k, n) => put_named(buffer, at, "nurse", r.0, &[k.0, n.0]),
        Move::NurseRun(n, r, d, len) => put_named(buffer, at, "nurserun", n.0, &[r.0, d.0, len]),
        Move::SwapNurses(k, a, b) => put_named(buffer, at, "swapnurses", k.0, &[a.0, b.0]),
    }
}

#[tactic(auto, unfolding(crate::specs::Texts::cell_text))]
fn put_cell(buffer: &mut [u8], at: usize, cell: &Cell) -> usize
    requires { at + 52 ≤ length buffer.old }
    ensures text { take result buffer.new ≡ take at buffer.old ++ cell_text cell.now }
    ensures within { result ≤ at + 52 }
{
    match *cell {
        Cell::Stay(p) => put_dotted(buffer, at, "stay", &[p.0]),
        Cell::RoomDay(r, d) => put_dotted(buffer, at, "roomday", &[r.0, d.0]),
        Cell::TheatreDay(t, d) => put_dotted(buffer, at, "theatreday", &[t.0, d.0]),
        Cell::SurgeonDay(s, d) => put_dotted(buffer, at, "surgeonday", &[s.0, d.0]),
        Cell::RoomShift(r, k) => put_dotted(buffer, at, "roomshift", &[r.0, k.0]),
        Cell::NurseShift(n, k) => put_dotted(buffer, at, "nurseshift", &[n.0, k.0]),
        Cell::Care(x) => put_dotted(buffer, at, "care", &[x.0]),
    }
}

// Each number with a comma before it.
#[inline(always)]
fn put_each(buffer: &mut [u8], at: usize, numbers: &[i64]) -> usize
    requires { at + 22 * length numbers.now ≤ length buffer.old }
    ensures text { take result buffer.new ≡ take at buffer.old ++ marked 44 (map signed_decimal numbers.now) }
    ensures within { result ≤ at + 22 * length numbers.now }
{
    let mut end = at;
    for x in numbers {
        end = put_byte(buffer, end, b',');
        end = put_signed(buffer, end, *x);
    }
    end
}

#[inline(always)]
fn are_zero(numbers: &[i64]) -> bool
    requires { length numbers.now ≡ 4 }
    ensures { IsTrue result → numbers.now ≡ pos 0 ∷ pos 0 ∷ pos 0 ∷ pos 0 ∷ [] }
{
    let (a, b, c, d) = (numbers[0], numbers[1], numbers[2], numbers[3]);
    a == 0 && b == 0 && c == 0 && d == 0
}

// Four numbers, each with a comma before it. Most of those of a price are 0.
#[inline(always)]
fn put_four(buffer: &mut [u8], at: usize, numbers: &[i64]) -> usize
    requires four { length numbers.now ≡ 4 }
    requires room { at + 88 ≤ length buffer.old }
    ensures text { take result buffer.new ≡ take at buffer.old ++ marked 44 (map signed_decimal numbers.now) }
    ensures within { result ≤ at + 88 }
{
    if are_zero(numbers) {
        put_text(buffer, at, ",0,0,0,0")
    } else {
        put_each(buffer, at, numbers)
    }
}

// Eight numbers, each with a comma before it.
fn put_numbers(buffer: &mut [u8], at: usize, numbers: &[i64]) -> usize
    requires eight { length numbers.now ≡ 8 }
    requires room { at + 176 ≤ length buffer.old }
    ensures text { take result buffer.new ≡ take at buffer.old ++ marked 44 (map signed_decimal numbers.now) }
    ensures within { result ≤ at + 176 }
{
    let end = put_four(buffer, at, &numbers[..4]);
    put_four(buffer, end, &numbers[4..])
}

/// Writes a price.
pub(crate) fn put_price(buffer: &mut [u8], at: usize, price: &Bill) -> usize
    requires { at + 374 ≤ length buffer.old }
    ensures text { take result buffer.new ≡ take at buffer.old ++ price_text price.now }
    ensures within { result ≤ at + 374 }
{
    let broken: &[i64] = &price.v;
    let end = put_signed(buffer, at, price.v[0]);
    let end = put_numbers(buffer, end, &broken[1..]);
    put_numbers(buffer, end, &price.s)
}

/// Writes a verdict.
pub(crate) fn put_verdict(buffer: &mut [u8], at: usize, verdict: &Verdict) -> usize
    requires { at + 100 ≤ length buffer.old }
    ensures text { take result buffer.new ≡ take at buffer.old ++ verdict_text verdict.now }
    ensures within { result ≤ at + 100 }
{
    match *verdict {
        Verdict::Accepted => put_text(buffer, at, "accepted"),
        Verdict::Declined => put_text(buffer, at, "declined"),
        Verdict::Frozen => put_text(buffer, at, "frozen"),
        Verdict::Stale {
            cell,
            at_seen,
            at_place,
        } => {
            let end = put_text(buffer, at, "stale:");
            let end = put_cell(buffer, end, &cell);
            let end = put_byte(buffer, end, b':');
            let end = put_number(buffer, end, u64::from(at_seen));
            let end = put_byte(buffer, end, b':');
            put_number(buffer, end, u64::from(at_place))
        }
    }
}

/// Appends a name with its numbers, as `nurse:1,5,0`.
pub fn named_text(name: &str, first: u32, rest: &[u32], out: &mut Vec<u8>) -> Result<(), AllocError>
    requires short { length name.now ≤ 16 }
    requires few { length rest.now ≤ 3 }
    ensures { OnOk result (out.new.items ≡ out.old.items ++ named name.now (first ∷ rest.now)) }
{
    let mut buffer = [0; 100];
    let len = put_named(&mut buffer, 0, name, first, rest);
    out.extend_from_slice(&buffer[..len])
}

/// Appends the seventeen numbers of a price, parted by commas.
pub fn price_text(price: &Bill, out: &mut Vec<u8>) -> Result<(), AllocError>
    ensures { OnOk result (out.new.items ≡ out.old.items ++ price_text price.now) }
{
    let mut buffer = [0; 374];
    let len = put_price(&mut buffer, 0, price);
    out.extend_from_slice(&buffer[..len])
}

/// Appends the text of a verdict.
pub fn verdict_text(verdict: &Verdict, out: &mut Vec<u8>) -> Result<(), AllocError>
    ensures { OnOk result (out.new.items ≡ out.old.items ++ verdict_text verdict.now) }
{
    let mut buffer = [0; 100];
    let len = put_verdict(&mut buffer, 0, verdict);
    out.extend_from_slice(&buffer[..len])
}

/// Appends the text of a move. Where memory runs out, `out` holds what it held, followed by a prefix of that text.
#[tactic(auto, using(crate::proofs::Parts::part_none))]
pub fn text(mv: &Move, out: &mut Vec<u8>) -> Result<(), AllocError>
    ensures ok { OnOk result (out.new.items ≡ out.old.items ++ move_text mv.now) }
    ensures err { OnErr result (IsPart out.old.items out.new.items (move_text mv.now)) }
{
    let mut buffer = [0; 94];
    let len = put_move(&mut buffer, 0, mv);
    out.extend_from_slice(&buffer[..len])
}
