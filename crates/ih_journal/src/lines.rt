//! Writing a journal: its heading and its lines.

ghost use Rattle.std.specs.Prelude.{◌≡◌, ◌+◌, ◌≤◌, ◌++◌, ◌∷◌, ◌^◌, OnOk, OnErr, IfOk, length, take, decimal};
ghost use Rattle.std.specs.Prelude.{string_bytes};
ghost use Rattle.ih_tables.specs.Bills.{IsWithin};
ghost use Rattle.ih_journal.specs.Texts.{heading, option_text, retries_field, line_text, again_field, version_text};
ghost use Rattle.ih_journal.specs.Texts.{ended, IsPart};
ghost use Rattle.ih_journal.specs.Pieces.{marked};

use crate::entries::Entry;
use crate::settings::Options;
use crate::texts::{put_move, put_price, put_verdict};
use crate::writing::{put_byte, put_number};
use itoa::Buffer;
use std::alloc::{AllocError, Global};

/// Appends an option with a space before it.
pub fn put_option(out: &mut String, name: &str, number: u64) -> Result<(), AllocError>
    ensures { OnOk result (string_bytes out.new ≡ string_bytes out.old ++ 32 ∷ option_text name.now number) }
{
    out.push_str(" ")?;
    out.push_str(name)?;
    out.push_str("=")?;
    out.push_str(Buffer::new().format(number))
}

fn put_retries(out: &mut String, retries: u32) -> Result<(), AllocError>
    ensures { OnOk result (string_bytes out.new ≡ string_bytes out.old ++ marked 32 (retries_field retries)) }
{
    match retries {
        0 => Ok(()),
        _ => put_option(out, "retries", retries as u64),
    }
}

/// The version of a journal: 2 where moves are tried again, else 1.
pub fn version(retries: u32) -> &'static str
    ensures { result.now ≡ version_text retries }
{
    match retries {
        0 => "1",
        _ => "2",
    }
}

fn heading_made(alloc: Global, options: &Options) -> Result<String, AllocError>
    ensures { IfOk result (λ s. string_bytes s ≡ ended (heading options.now)) }
{
    let mut made = String::with_capacity(alloc, 128)?;
    made.push_str("ihjournal ")?;
    made.push_str(version(options.retries))?;
    put_option(&mut made, "seed", options.seed)?;
    put_option(&mut made, "workers", options.workers as u64)?;
    put_option(&mut made, "moves", options.moves as u64)?;
    put_option(&mut made, "heat", options.heat as u64)?;
    put_option(&mut made, "hard", options.hard as u64)?;
    put_retries(&mut made, options.retries)?;
    made.push_str("\n")?;
    Ok(made)
}

/// Appends the heading with its line feed. Where memory runs out, `out` holds what it held, followed by a prefix of
/// that line.
#[tactic(auto, using(crate::proofs::Parts::part_none))]
pub fn head_line(options: &Options, out: &mut Vec<u8>) -> Result<(), AllocError>
    ensures ok { OnOk result (out.new.items ≡ out.old.items ++ ended (heading options.now)) }
    ensures err { OnErr result (IsPart out.old.items out.new.items (ended (heading options.now))) }
{
    let made = heading_made(*out.allocator(), options)?;
    out.extend_from_slice(made.as_bytes())
}

// Room for the longest line.
const LINE_ROOM: usize = 704;

// A number with a space before it.
#[inline(always)]
fn put_field(buffer: &mut [u8], at: usize, number: u32) -> usize
    requires { at + 21 ≤ length buffer.old }
    ensures text { take result buffer.new ≡ take at buffer.old ++ 32 ∷ decimal number }
    ensures within { result ≤ at + 21 }
{
    let end = put_byte(buffer, at, b' ');
    put_number(buffer, end, u64::from(number))
}

#[inline(always)]
fn put_again(buffer: &mut [u8], at: usize, retries: u32, again: u32) -> usize
    requires { at + 21 ≤ length buffer.old }
    ensures text { take result buffer.new ≡ take at buffer.old ++ marked 32 (again_field retries again) }
    ensures within { result ≤ at + 21 }
{
    match retries {
        0 => at,
        _ => put_field(buffer, at, again),
    }
}

// Writes the line of the entry at a place from the beginning of the buffer on.
fn put_line(buffer: &mut [u8], options: &Options, place: u32, entry: &Entry) -> usize
    requires { LINE_ROOM ≤ length buffer.old }
    ensures text { take result buffer.new ≡ ended (line_text options.now place entry.now) }
    ensures within { result ≤ LINE_ROOM }
{
    let end = put_number(buffer, 0, u64::from(place));
    let end = put_field(buffer, end, entry.worker);
    let end = put_field(buffer, end, entry.number);
    let end = put_again(buffer, end, options.retries, entry.again);
    let end = put_field(buffer, end, entry.seen);
    let end = put_byte(buffer, end, b' ');
    let end = put_move(buffer, end, &entry.mv);
    let end = put_byte(buffer, end, b' ');
    let end = put_price(buffer, end, &entry.price);
    let end = put_byte(buffer, end, b' ');
    let end = put_verdict(buffer, end, &entry.verdict);
    put_byte(buffer, end, b'\n')
}

/// Room for one line, which many lines in turn are written in.
#[derive(Drop)]
pub struct LineRoom {
    bytes: [u8; LINE_ROOM],
}

impl LineRoom {
    ghost use Rattle.std.specs.Prelude.{◌≡◌, ◌++◌, ◌^◌, OnOk, OnErr};
    ghost use Rattle.ih_tables.specs.Bills.{IsWithin};
    ghost use Rattle.ih_journal.specs.Texts.{line_text, ended, IsPart};

    /// Room with nothing in it.
    pub fn new() -> LineRoom {
        LineRoom {
            bytes: [0; LINE_ROOM],
        }
    }

    /// Appends the line of the entry at a place, as `line` does.
    #[tactic(auto, using(crate::proofs::Parts::part_none))]
    pub fn put(
        &mut self,
        options: &Options,
        place: u32,
        entry: &Entry,
        out: &mut Vec<u8>,
    ) -> Result<(), AllocError>
        requires { IsWithin (10 ^ 11) entry.now.price }
        ensures ok { OnOk result (out.new.items ≡ out.old.items ++ ended (line_text options.now place entry.now)) }
        ensures err { OnErr result
            (IsPart out.old.items out.new.items (ended (line_text options.now place entry.now))) }
    {
        let len = put_line(&mut self.bytes, options, place, entry);
        out.extend_from_slice(&self.bytes[..len])
    }
}

/// Appends the line of the entry at a place, with its line feed. Where memory runs out, `out` holds what it held,
/// followed by a prefix of that line.
pub fn line(
    options: &Options,
    place: u32,
    entry: &Entry,
    out: &mut Vec<u8>,
) -> Result<(), AllocError>
    requires { IsWithin (10 ^ 11) entry.now.price }
    ensures ok { OnOk result (out.new.items ≡ out.old.items ++ ended (line_text options.now place entry.now)) }
    ensures err { OnErr result (IsPart out.old.items out.new.items (ended (line_text options.now place entry.now))) }
{
    LineRoom::new().put(options, place, entry, out)
}
