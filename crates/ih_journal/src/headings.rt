//! Reading the heading of a journal.

ghost use Rattle.std.specs.Prelude.{◌≡◌, ◌++◌, ◌≤◌, ◌<◌, ◌^◌, ℕ, List, ◌∷◌, IfSome, IfNone, Some, decimal};
ghost use Rattle.std.specs.Option.{option_copied};
ghost use Rattle.ih_journal.specs.{declared.settings.Options.Options, Settings.IsLawful, Texts.heading};
ghost use Rattle.ih_journal.specs.{Texts.retries_field, Pieces.left_parted, Pieces.AreShortOptions, Texts.options_from};

use crate::lines::version;
use crate::named::is;
use crate::numerals::{cut, number_of};
use crate::settings::Options;

// The number of the next option, where that is the next field.
fn next_option<'a>(left: Option<&'a [u8]>, name: &str, most: u64) -> Option<(u64, Option<&'a [u8]>)>
    ensures some { IfSome result
        (λ r. (r.0 ≤ most) × (left_parted 32 (option_copied left.entry)
        ≡ (name.now ++ decimal r.0) ∷ left_parted 32 (option_copied r.1))) }
    ensures none { IfNone result
        ((n : ℕ) (rest : List (List ℕ)) → n ≤ most
        → left_parted 32 (option_copied left.entry) ≡ (name.now ++ decimal n) ∷ rest → ⊥) }
{
    let (field, left) = cut(left?, b' ');
    let n = number_of(field.strip_prefix(name.as_bytes())?, most)?;
    Some((n, left))
}

// The retries of a heading: those of its last field, where there is one, and else none.
fn retries_of(left: Option<&[u8]>) -> Option<u32>
    ensures some { IfSome result (λ r. (r < 2 ^ 32) × (left_parted 32 (option_copied left.entry) ≡ retries_field r)) }
    ensures none { IfNone result
        ((r : ℕ) → r < 2 ^ 32 → left_parted 32 (option_copied left.entry) ≡ retries_field r → ⊥) }
{
    if left.is_none() {
        return Some(0);
    }
    let (retries, left) = next_option(left, "retries=", u32::MAX as u64)?;
    if retries > 0 && left.is_none() {
        Some(retries as u32)
    } else {
        None
    }
}

// The options that a heading's fields tell, behind the number of its form.
fn options_told(left: Option<&[u8]>) -> Option<Options>
    ensures some { IfSome result
        (λ o. AreShortOptions o × (left_parted 32 (option_copied left.entry) ≡ options_from o)) }
    ensures none { IfNone result
        ((o : Options) → AreShortOptions o → left_parted 32 (option_copied left.entry) ≡ options_from o → ⊥) }
{
    let (seed, left) = next_option(left, "seed=", u64::MAX)?;
    let (workers, left) = next_option(left, "workers=", u32::MAX as u64)?;
    let (moves, left) = next_option(left, "moves=", u32::MAX as u64)?;
    let (heat, left) = next_option(left, "heat=", u32::MAX as u64)?;
    let (hard, left) = next_option(left, "hard=", u32::MAX as u64)?;
    let retries = retries_of(left)?;
    Some(Options {
        seed,
        workers: workers as u32,
        moves: moves as u32,
        heat: heat as u32,
        hard: hard as u32,
        retries,
    })
}

fn options_of(bytes: &[u8]) -> Option<Options>
    ensures some { IfSome result (λ o. AreShortOptions o × (bytes.now ≡ heading o)) }
    ensures none { IfNone result ((o : Options) → AreShortOptions o → bytes.now ≡ heading o → ⊥) }
{
    let (title, left) = cut(bytes, b' ');
    if !is(title, "ihjournal") {
        return None;
    }
    let (number, left) = cut(left?, b' ');
    let options = options_told(left)?;
    if !is(number, version(options.retries)) {
        return None;
    }
    Some(options)
}

/// Reads the heading of a journal, without its line feed. There is none where the bytes are the heading of no lawful
/// options.
pub fn parse_head(bytes: &[u8]) -> Option<Options>
    ensures some { IfSome result (λ o. IsLawful o × (bytes.now ≡ heading o)) }
    ensures only { (o : Options) → IsLawful o → o.seed < 2 ^ 64 → bytes.now ≡ heading o → result ≡ Some o }
{
    let options = options_of(bytes)?;
    if options.lawful() {
        Some(options)
    } else {
        None
    }
}
