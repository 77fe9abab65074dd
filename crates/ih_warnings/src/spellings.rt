//! Names that differ by upper and lower case or by spaces alone.

ghost use Rattle.std.specs.Prelude.{◌≡◌, ◌<◌, [], ◌∷◌, IfNone, IfSome, length};
ghost use Rattle.ih_warnings.specs.Spellings.{are_alike, plain};

// The first byte that is no space, in lower case, and what follows it.
#[tactic(auto, unfolding(crate::specs::Spellings::plain))]
fn first_letter(name: &[u8]) -> Option<(u8, &[u8])>
    ensures none { IfNone result (plain name.now ≡ []) }
    ensures some { IfSome result (λ p. plain name.now ≡ p.0 ∷ plain p.1.now) }
    ensures shorter { IfSome result (λ p. length p.1.now < length name.now) }
{
    match name.split_first() {
        None => None,
        Some((first, rest)) => {
            if *first == b' ' {
                first_letter(rest)
            } else {
                Some((first.to_ascii_lowercase(), rest))
            }
        }
    }
}

/// Whether the names are the same without spaces, in lower case.
pub fn are_alike(name: &[u8], other: &[u8]) -> bool
    ensures { result ≡ are_alike name.now other.now }
{
    match first_letter(name) {
        None => first_letter(other).is_none(),
        Some((letter, rest)) => match first_letter(other) {
            None => false,
            Some((second, others)) => letter == second && are_alike(rest, others),
        },
    }
}
