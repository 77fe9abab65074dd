//! The texts of chains and of their journal: its heading and its lines.

ghost use Rattle.std.specs.Prelude.{◌≡◌, ◌<◌, ◌^◌, ◌++◌, ◌∷◌, [], IfOk, OnOk, OnErr, decimal, length, map};
ghost use Rattle.std.specs.Prelude.{string_bytes};
ghost use Rattle.ih_journal.specs.Pieces.{marked};
ghost use Rattle.ih_journal.specs.Texts.{ended, move_text, IsPart};
ghost use Rattle.ih_chain.specs.Texts.{chain_heading, chain_journal, chain_line, chain_lines_from, chain_text};

use crate::entries::ChainEntry;
use ih_journal::{Options, price_text, put_option, text, verdict_text};
use ih_moves::Chain;
use ih_plan::Move;
use itoa::Buffer;
use std::alloc::{AllocError, Global};

fn heading_made(alloc: Global, options: &Options, length: u32) -> Result<String, AllocError>
    ensures { IfOk result (λ s. string_bytes s ≡ ended (chain_heading options.now length)) }
{
    let mut made = String::with_capacity(alloc, 128)?;
    made.push_str("ihchain 1")?;
    put_option(&mut made, "seed", options.seed)?;
    put_option(&mut made, "workers", options.workers as u64)?;
    put_option(&mut made, "moves", options.moves as u64)?;
    put_option(&mut made, "heat", options.heat as u64)?;
    put_option(&mut made, "hard", options.hard as u64)?;
    put_option(&mut made, "length", length as u64)?;
    made.push_str("\n")?;
    Ok(made)
}

/// Appends the heading of a journal of chains of this length, with its line feed. Where memory runs out, `out` holds
/// what it held, followed by a prefix of that line.
#[tactic(auto, using(ih_journal::proofs::Parts::part_none))]
pub fn chain_head_line(options: &Options, length: u32, out: &mut Vec<u8>) -> Result<(), AllocError>
    ensures ok { OnOk result (out.new.items ≡ out.old.items ++ ended (chain_heading options.now length)) }
    ensures err { OnErr result (IsPart out.old.items out.new.items (ended (chain_heading options.now length))) }
{
    let made = heading_made(*out.allocator(), options, length)?;
    out.extend_from_slice(made.as_bytes())
}

// Appends each move with a semicolon before it.
fn put_behind(moves: &[Move], out: &mut Vec<u8>) -> Result<(), AllocError>
    ensures { OnOk result (out.new.items ≡ out.old.items ++ marked 59 (map move_text moves.now)) }
{
    for mv in moves {
        out.extend_from_slice(b";")?;
        text(mv, out)?;
    }
    Ok(())
}

/// Appends the moves of a chain, parted by semicolons. Where memory runs out, an unknown text stands behind what was
/// there.
pub fn chain_text(chain: &Chain, out: &mut Vec<u8>) -> Result<(), AllocError>
    ensures { OnOk result (out.new.items ≡ out.old.items ++ chain_text chain.now) }
{
    match chain.as_slice().split_first() {
        None => Ok(()),
        Some((mv, rest)) => {
            text(mv, out)?;
            put_behind(rest, out)
        }
    }
}

// Appends a number with a space behind it.
fn put_field(number: u32, out: &mut Vec<u8>) -> Result<(), AllocError>
    ensures { OnOk result (out.new.items ≡ out.old.items ++ (decimal number ++ 32 ∷ [])) }
{
    out.extend_from_slice(Buffer::new().format(number).as_bytes())?;
    out.extend_from_slice(b" ")
}

/// Appends the line of the entry at a place, with its line feed. Where memory runs out, an unknown text stands behind
/// what was there.
pub fn chain_line(place: u32, entry: &ChainEntry, out: &mut Vec<u8>) -> Result<(), AllocError>
    ensures { OnOk result (out.new.items ≡ out.old.items ++ ended (chain_line place entry.now)) }
{
    put_field(place, out)?;
    put_field(entry.worker, out)?;
    put_field(entry.number, out)?;
    put_field(entry.seen, out)?;
    chain_text(&entry.moves, out)?;
    out.extend_from_slice(b" ")?;
    price_text(&entry.price, out)?;
    out.extend_from_slice(b" ")?;
    verdict_text(&entry.verdict, out)?;
    out.extend_from_slice(b"\n")
}

// Appends the lines of entries, from place 0 on.
fn put_lines(entries: &[ChainEntry], out: &mut Vec<u8>) -> Result<(), AllocError>
    requires { length entries.now < 2 ^ 31 }
    ensures { OnOk result (out.new.items ≡ out.old.items ++ chain_lines_from 0 entries.now) }
{
    let mut place = 0;
    for entry in entries {
        chain_line(place, entry, out)?;
        place += 1;
    }
    Ok(())
}

/// The text of a journal of chains of so many moves each.
pub fn chain_journal_text(
    alloc: Global,
    options: &Options,
    each: u32,
    entries: &[ChainEntry],
) -> Result<Vec<u8>, AllocError>
    requires { length entries.now < 2 ^ 31 }
    ensures { IfOk result (λ text. text.items ≡ chain_journal options.now each entries.now) }
{
    let mut out = Vec::new(alloc);
    chain_head_line(options, each, &mut out)?;
    put_lines(entries, &mut out)?;
    Ok(out)
}
