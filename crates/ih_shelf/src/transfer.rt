//! The loops that read and write real files and standard output.

ghost use Rattle.std.specs.Prelude.{◌≡◌, ◌≢◌, ◌+◌, ◌≤◌, ◌<◌, ℕ, List, IfOk, IfSome, OnOk, length, vec_len};
ghost use Rattle.std.specs.Io.KnownBytes.{Appends, Consumes};

use crate::outside::{ReadError, WriteError};
use std::alloc::Global;
use std::io::{Read, Write};

// How many bytes one read asks for at most.
const PIECE: usize = 65536;

/// All that a reader has left, of which there may be at most `limit` bytes. At most one byte more
/// is read. Where the reader fails the answer is `Fault`.
pub fn read_within<F: Read>(file: &mut F, alloc: Global, limit: u64) -> Result<Vec<u8>, ReadError>
    ensures limit { IfOk result (λ v. vec_len v ≤ limit) }
    ensures bytes { IfOk result (λ v. IfSome (F.remaining file.old) (λ rest. v.items ≡ rest)) }
    ensures stops { (taken : List ℕ) × (length taken ≤ limit + 1) ×
        Consumes (F.remaining file.old) (F.remaining file.new) taken }
    ensures too_long { result ≡ Err ReadError.TooLong →
        IfSome (F.remaining file.old) (λ rest. limit < length rest) }
{
    let mut bytes = Vec::new(alloc);
    let mut buffer = [0u8; PIECE];
    loop {
        let room = limit - bytes.len() as u64;
        let most = if room < PIECE as u64 {
            room as usize + 1
        } else {
            PIECE
        };
        let Ok(count) = file.read(&mut buffer[..most]) else {
            return Err(ReadError::Fault);
        };
        if count == 0 {
            return Ok(bytes);
        }
        if count as u64 > room {
            return Err(ReadError::TooLong);
        }
        if bytes.extend_from_slice(&buffer[..count]).is_err() {
            return Err(ReadError::OutOfMemory);
        }
    }
}

/// Writes all the bytes. A write that fails, or takes nothing, is a fault. No memory is wanted.
pub fn write_whole<W: Write>(to: &mut W, bytes: &[u8]) -> Result<(), WriteError>
    ensures whole { OnOk result (Appends (W.contents to.old) (W.contents to.new) bytes.now) }
    ensures never_wants { result ≢ Err WriteError.OutOfMemory }
{
    let mut rest = bytes;
    while !rest.is_empty() {
        match to.write(rest) {
            Ok(0) | Err(_) => return Err(WriteError::Fault),
            Ok(count) => rest = &rest[count..],
        }
    }
    Ok(())
}
