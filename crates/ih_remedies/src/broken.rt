//! What is said of bytes that are no JSON.

ghost use Rattle.std.specs.Prelude.{◌≡◌, ◌≤◌, IfOk, length, option_map, string_bytes};
ghost use Rattle.std.specs.Fmt.{is_char_start};
ghost use Rattle.std.specs.Str.Lossy.{utf8_valid_len};
ghost use Rattle.ih_remedies.specs.Broken.{begins_value, closes, column_after, curly_text, ends_value, has_curly, is_blank};
ghost use Rattle.ih_remedies.specs.Broken.{is_curly_at, is_utf16, IsSaidOfBytes, lacks_comma, last_solid, line_after, place_text};
ghost use Rattle.ih_remedies.specs.Broken.{follows_bracket, follows_text, has_comma_too_many, is_of_word, reason, saved_text, stopped_text, unread_text};

use crate::values::Text;
use std::alloc::Global;

// What the first bytes show of how the file was saved.
fn is_utf16(bytes: &[u8]) -> bool
    ensures { result ≡ is_utf16 bytes.now }
{
    bytes.starts_with(&[255, 254]) || bytes.starts_with(&[254, 255])
}

#[tactic(auto, unfolding(crate::specs::Broken::saved_text))]
fn saved_text(bytes: &[u8]) -> Option<&'static str>
    ensures { option_map (λ s. s.now) result ≡ saved_text bytes.now }
{
    if bytes.starts_with(&[239, 187, 191]) {
        return Some("the file begins with a byte order mark: save it as UTF-8 without one");
    }
    if is_utf16(bytes) {
        return Some("the file is UTF-16: save it as UTF-8");
    }
    None
}

// The line that follows these bytes, counted from 1.
#[tactic(auto, unfolding(crate::specs::Broken::line_after))]
fn line_after(front: &[u8]) -> usize
    ensures { result ≡ line_after front.now }
{
    let mut line = 1;
    for b in front {
        if *b == b'\n' {
            line += 1;
        }
    }
    line
}

// A character of a text begins with this byte.
fn is_char_start(b: u8) -> bool
    ensures { result ≡ is_char_start b }
{
    b < 0x80 || 0xC0 <= b
}

// The column of the character that follows these bytes, counted from 1.
#[tactic(auto, unfolding(crate::specs::Broken::column_after))]
fn column_after(front: &[u8]) -> usize
    ensures { result ≡ column_after front.now }
{
    let mut column = 1;
    for b in front {
        if *b == b'\n' {
            column = 1;
        } else if is_char_start(*b) {
            column += 1;
        }
    }
    column
}

#[tactic(auto, unfolding(crate::specs::Broken::place_text))]
fn place_text(alloc: Global, bytes: &[u8], at: usize) -> Text
    requires { at ≤ length bytes.now }
    ensures { IfOk result (λ s. string_bytes s ≡ place_text bytes.now at) }
{
    let line = line_after(&bytes[..at]);
    let column = column_after(&bytes[..at]);
    format!(in alloc; "line {line}, column {column}: ")
}

fn is_blank(b: u8) -> bool
    ensures { result ≡ is_blank b }
{
    b == b' ' || b == b'\n' || b == b'\r' || b == b'\t'
}

// The last of these bytes that is no space.
#[tactic(auto, unfolding(crate::specs::Broken::last_solid))]
fn last_solid(front: &[u8]) -> Option<u8>
    ensures { result ≡ last_solid front.now }
{
    let mut last = None;
    for b in front {
        if !is_blank(*b) {
            last = Some(*b);
        }
    }
    last
}

fn begins_value(b: u8) -> bool
    ensures { result ≡ begins_value b }
{
    b == b'"'
        || b == b'{'
        || b == b'['
        || b.is_ascii_digit()
        || b == b'-'
        || b == b't'
        || b == b'f'
        || b == b'n'
}

fn ends_value(b: u8) -> bool
    ensures { result ≡ ends_value b }
{
    b == b'"' || b == b'}' || b == b']' || b.is_ascii_digit() || b == b'e' || b == b'l'
}

fn closes(b: u8) -> bool
    ensures { result ≡ closes b }
{
    b == b'}' || b == b']'
}

// A comma stands before a closing bracket.
fn has_comma_too_many(before: Option<u8>, here: u8) -> bool
    ensures { result ≡ has_comma_too_many before here }
{
    match before {
        None => false,
        Some(b) => closes(here) && b == b',',
    }
}

// A value begins right behind another one.
fn lacks_comma(before: Option<u8>, here: u8) -> bool
    ensures { result ≡ lacks_comma before here }
{
    match before {
        None => false,
        Some(b) => begins_value(here) && ends_value(b),
    }
}

// Whether true, false or null begins with this letter, small or not.
fn is_of_word(b: u8) -> bool
    ensures { result ≡ is_of_word b }
{
    b == b't' || b == b'f' || b == b'n' || b == b'T' || b == b'F' || b == b'N'
}

fn follows_text(before: Option<u8>) -> bool
    ensures { result ≡ follows_text before }
{
    matches!(before, Some(b'"'))
}

fn follows_bracket(before: Option<u8>) -> bool
    ensures { result ≡ follows_bracket before }
{
    match before {
        Some(b) => closes(b),
        None => false,
    }
}

// What is wrong at a byte, by the last one before it that is no space.
#[tactic(auto, unfolding(crate::specs::Broken::reason))]
fn reason(before: Option<u8>, here: Option<u8>) -> &'static str
    ensures { result.now ≡ reason before here }
{
    let Some(here) = here else {
        return if before.is_none() {
            "the file is empty"
        } else {
            "the file ends too soon: a bracket or a quote before isn't closed"
        };
    };
    if has_comma_too_many(before, here) {
        "there is a comma too many before this bracket"
    } else if closes(here) {
        "this bracket doesn't belong here"
    } else if lacks_comma(before, here) {
        "a comma or a colon is missing before this"
    } else if here == b'"' {
        "this text has no end in its line, or a backslash too many"
    } else if here == b'/' || here == b'#' {
        "JSON has no comments"
    } else if here.is_ascii_digit() || here == b'-' {
        "this number, or what stands right behind it, isn't JSON"
    } else if is_of_word(here) {
        "true, false and null are written in full, with small letters"
    } else if follows_text(before) {
        "a text ends right before this: perhaps it lacks its first or last double quote"
    } else if follows_bracket(before) {
        "this can't follow a bracket: delete it, or write what is missing between them"
    } else if here == b'\'' || here.is_ascii_alphabetic() {
        "texts stand between double quotes"
    } else {
        "what begins here isn't JSON"
    }
}

// Whether a curly quote begins at a byte.
fn is_curly_at(bytes: &[u8], i: usize) -> bool
    requires { i ≤ length bytes.now }
    ensures { result ≡ is_curly_at bytes.now i }
{
    let rest = &bytes[i..];
    rest.starts_with(&[226, 128, 156]) || rest.starts_with(&[226, 128, 157])
}

fn has_curly(bytes: &[u8]) -> bool
    ensures { result ≡ has_curly bytes.now }
{
    (0..bytes.len()).any(|i| is_curly_at(bytes, i))
}

fn curly_text(bytes: &[u8]) -> &'static str
    ensures { result.now ≡ curly_text bytes.now }
{
    if has_curly(bytes) {
        "; the file has curly quotes: use straight ones"
    } else {
        ""
    }
}

// What is said if the reader stopped at a byte.
#[tactic(auto, unfolding(crate::specs::Broken::stopped_text))]
fn stopped_text(alloc: Global, bytes: &[u8], at: usize) -> Text
    requires { at ≤ length bytes.now }
    ensures { IfOk result (λ s. string_bytes s ≡ stopped_text bytes.now at) }
{
    let place = place_text(alloc, bytes, at)?;
    let before = last_solid(&bytes[..at]);
    let here = bytes.get(at).copied();
    let why = reason(before, here);
    let curly = curly_text(bytes);
    format!(in alloc; "{place}{why}{curly}")
}

/// The byte of a line and a column, or the end.
pub fn byte_at(bytes: &[u8], line: usize, column: usize) -> usize
    ensures { result ≤ length bytes.now }
{
    let mut left = line;
    for i in 0..bytes.len() {
        if left <= 1 {
            let n = i.saturating_add(column.saturating_sub(1));
            return n.min(bytes.len());
        }
        if bytes[i] == b'\n' {
            left -= 1;
        }
    }
    bytes.len()
}

#[tactic(auto, unfolding(crate::specs::Broken::unread_text))]
fn unread_text(alloc: Global, bytes: &[u8], at: usize) -> Text
    requires within { at ≤ length bytes.now }
    requires first { at ≡ utf8_valid_len bytes.now }
    ensures { IfOk result (λ s. string_bytes s ≡ unread_text bytes.now) }
{
    let place = place_text(alloc, bytes, at)?;
    format!(in alloc; "{place}the file isn't UTF-8, perhaps Latin-1: save it as UTF-8")
}

/// What is said of bytes that are no JSON, where the reader of JSON stopped at this byte.
#[tactic(auto, using(crate::proofs::Saying::bytes_saying))]
pub fn said_of_bytes(alloc: Global, bytes: &[u8], at: usize) -> Text
    requires { at ≤ length bytes.now }
    ensures { IfOk result (λ s. IsSaidOfBytes bytes.now (string_bytes s)) }
{
    match saved_text(bytes) {
        Some(text) => {
            let said = String::from_str(alloc, text)?;
            Ok(said)
        }
        None => match std::str::from_utf8(bytes) {
            Ok(_) => {
                let said = stopped_text(alloc, bytes, at)?;
                Ok(said)
            }
            Err(e) => {
                let said = unread_text(alloc, bytes, e.valid_up_to())?;
                Ok(said)
            }
        },
    }
}
