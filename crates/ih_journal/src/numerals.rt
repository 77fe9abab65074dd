//! Reading numbers, and lists of numbers parted by a separator.

ghost use Rattle.std.specs.Prelude.{◌≡◌, ℕ, ◌≤◌, ◌<◌, ◌^◌, ◌∷◌, IfSome, IfNone, List, length, take, map, decimal, All};
ghost use Rattle.std.specs.Prelude.{ℤ, ◌==◌, position};
ghost use Rattle.std.specs.{Fmt.signed_decimal, Option.option_copied, Str.Parse.IsNumeral, Str.Parse.digits_value};
ghost use Rattle.ih_journal.specs.{Grammar.parted, Names.AreShort, Pieces.left_parted, Pieces.IsSmall};

// The greatest magnitude of a number of a price.
const MOST: u64 = 100_000_000_000;

fn place_of(separator: u8, bytes: &[u8]) -> Option<usize>
    ensures { result ≡ position (λ b. b == separator) bytes.now }
{
    bytes.iter().position(|b| *b == separator)
}

/// The bytes before the first separator, and those behind it where there is one.
pub fn cut(bytes: &[u8], separator: u8) -> (&[u8], Option<&[u8]>)
    ensures { parted separator bytes.now ≡ result.0.now ∷ left_parted separator (option_copied result.1) }
{
    match place_of(separator, bytes) {
        Some(i) => (&bytes[..i], Some(&bytes[i + 1..])),
        None => (bytes, None),
    }
}

// The number that digits are the text of, with leading zeros or without.
fn value_of(bytes: &[u8]) -> Option<u64>
    ensures some { IfSome result (λ n. IsNumeral 10 bytes.now × (n ≡ digits_value 10 bytes.now)) }
    ensures none { IfNone result (IsNumeral 10 bytes.now → digits_value 10 bytes.now < 2 ^ 64 → ⊥) }
{
    if bytes.is_empty() {
        return None;
    }
    let mut n: u64 = 0;
    for b in bytes {
        if !b.is_ascii_digit() {
            return None;
        }
        n = n.checked_mul(10)?.checked_add((*b - b'0') as u64)?;
    }
    Some(n)
}

/// The number of at most `most` whose text the bytes are.
pub fn number_of(bytes: &[u8], most: u64) -> Option<u64>
    ensures some { IfSome result (λ n. (n ≤ most) × (bytes.now ≡ decimal n)) }
    ensures none { IfNone result ((n : ℕ) → n ≤ most → bytes.now ≡ decimal n → ⊥) }
{
    if bytes.len() > 1 && bytes[0] == b'0' {
        return None;
    }
    let n = value_of(bytes)?;
    if n <= most { Some(n) } else { None }
}

/// The number of a price whose text the bytes are.
pub fn signed_of(bytes: &[u8]) -> Option<i64>
    ensures some { IfSome result (λ z. IsSmall z × (bytes.now ≡ signed_decimal z)) }
    ensures none { IfNone result ((z : ℤ) → IsSmall z → bytes.now ≡ signed_decimal z → ⊥) }
{
    if bytes.is_empty() || bytes[0] != b'-' {
        let n = number_of(bytes, MOST)?;
        return Some(n as i64);
    }
    let n = number_of(&bytes[1..], MOST)?;
    if n == 0 { None } else { Some(-(n as i64)) }
}

/// Reads numbers of 32 bits with the separator between each two into the front of `out`, and says how many there are.
/// There is none where the bytes aren't such a text of at most as many numbers as `out` has room for.
pub fn numbers(bytes: &[u8], separator: u8, out: &mut [u32]) -> Option<usize>
    ensures some { IfSome result
        (λ n. (n ≤ length out.old) × (parted separator bytes.now ≡ map decimal (take n out.new))
        × AreShort (take n out.new)) }
    ensures none { IfNone result
        ((ns : List ℕ) → length ns ≤ length out.old → AreShort ns → parted separator bytes.now ≡ map decimal ns → ⊥) }
{
    let mut left = bytes;
    for i in 0..out.len() {
        let (front, rest) = cut(left, separator);
        out[i] = number_of(front, u32::MAX as u64)? as u32;
        match rest {
            Some(rest) => left = rest,
            None => return Some(i + 1),
        }
    }
    None
}

/// Reads a price's numbers, at most 10^11 in magnitude, with commas, into the front of `out`, and says how many there
/// are. There is none where the bytes are no such text, or of more numbers than `out` has room for.
pub fn signed_numbers(bytes: &[u8], out: &mut [i64]) -> Option<usize>
    ensures some { IfSome result
        (λ n. (n ≤ length out.old) × (parted 44 bytes.now ≡ map signed_decimal (take n out.new))
        × All IsSmall (take n out.new)) }
    ensures none { IfNone result
        ((zs : List ℤ) → length zs ≤ length out.old → All IsSmall zs → parted 44 bytes.now ≡ map signed_decimal zs
        → ⊥) }
{
    let mut left = bytes;
    for i in 0..out.len() {
        let (front, rest) = cut(left, b',');
        out[i] = signed_of(front)?;
        match rest {
            Some(rest) => left = rest,
            None => return Some(i + 1),
        }
    }
    None
}
