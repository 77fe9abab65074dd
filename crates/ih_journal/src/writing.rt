//! Bytes, texts and numbers, written into a buffer after what stands there already. Each answers where the text then
//! ends.

ghost use Rattle.std.specs.Prelude.{◌≡◌, ◌+◌, ◌≤◌, ◌<◌, ◌++◌, ◌∷◌, [], length, take, decimal};
ghost use Rattle.std.specs.Fmt.{signed_decimal};

use crate::small_numbers::put_small;
use itoa::Buffer;

/// Writes a byte.
#[inline(always)]
pub(crate) fn put_byte(buffer: &mut [u8], at: usize, byte: u8) -> usize
    requires { at < length buffer.old }
    ensures text { take result buffer.new ≡ take at buffer.old ++ byte ∷ [] }
    ensures end { result ≡ at + 1 }
{
    buffer[at] = byte;
    at + 1
}

/// Writes a text.
#[inline(always)]
pub(crate) fn put_text(buffer: &mut [u8], at: usize, text: &str) -> usize
    requires { at + length text.now ≤ length buffer.old }
    ensures text { take result buffer.new ≡ take at buffer.old ++ text.now }
    ensures end { result ≡ at + length text.now }
{
    let bytes = text.as_bytes();
    let mut end = at;
    for b in bytes {
        buffer[end] = *b;
        end += 1;
    }
    end
}

/// Writes a number.
#[inline(always)]
pub(crate) fn put_number(buffer: &mut [u8], at: usize, number: u64) -> usize
    requires { at + 20 ≤ length buffer.old }
    ensures text { take result buffer.new ≡ take at buffer.old ++ decimal number }
    ensures within { result ≤ at + 20 }
{
    if number < 1000 {
        put_small(buffer, at, number)
    } else {
        put_text(buffer, at, Buffer::new().format(number))
    }
}

/// Writes a number with its sign. Most of those of a price are 0.
#[inline(always)]
pub(crate) fn put_signed(buffer: &mut [u8], at: usize, value: i64) -> usize
    requires { at + 21 ≤ length buffer.old }
    ensures text { take result buffer.new ≡ take at buffer.old ++ signed_decimal value }
    ensures within { result ≤ at + 21 }
{
    if value == 0 {
        put_byte(buffer, at, b'0')
    } else if value < 0 {
        let end = put_byte(buffer, at, b'-');
        put_number(buffer, end, value.unsigned_abs())
    } else {
        put_number(buffer, at, value.unsigned_abs())
    }
}
