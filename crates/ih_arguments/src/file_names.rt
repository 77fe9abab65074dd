//! File names of one call, which have to differ.
ghost use Rattle.std.specs.Prelude.{◌∷◌, ◌≡◌, map, option_map, option_to_list};
ghost use Rattle.std.specs.{List.list_any, Str.bytes_eq};
ghost use Rattle.ih_arguments.specs.Distinct.{all_differ};

// The name is one of the names.
fn is_among(name: &str, names: &[&str]) -> bool
    ensures { result ≡ list_any (λ s. bytes_eq name.now s.now) names.now }
{
    names.iter().any(|other| name == *other)
}

/// No two of the names are equal.
#[tactic(auto, unfolding(crate::specs::Distinct::all_differ))]
pub fn all_differ(names: &[&str]) -> bool
    ensures { result ≡ all_differ (map (λ s. s.now) names.now) }
{
    match names {
        [] => true,
        [name, rest @ ..] => !is_among(name, rest) && all_differ(rest),
    }
}

/// No two of the names are equal, and none is the start's.
pub fn names_differ<'a>(
    first: &'a str,
    second: &'a str,
    third: &'a str,
    start: Option<&'a str>,
) -> bool
    ensures { result ≡ all_differ
        (first.entry.now ∷ second.entry.now ∷ third.entry.now ∷ option_to_list (option_map (λ t. t.now) start.entry)) }
{
    match start {
        Some(start) => {
            let names = [first, second, third, start];
            all_differ(names.as_slice())
        }
        None => {
            let names = [first, second, third];
            all_differ(names.as_slice())
        }
    }
}
