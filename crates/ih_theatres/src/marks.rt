//! Marks on theatres, by which distinct ones are counted: the bits of a word.

ghost use Rattle.std.specs.Prelude.{◌≡◌, ◌<◌, ◌≤◌, ◌||◌, ℕ, IfSome, option_map};
ghost use Rattle.ih_tables.specs.declared.ids.TheatreNo.{TheatreNo};
ghost use Rattle.ih_plan.specs.{Costs.is_number, Sums.count_below};
ghost use Rattle.ih_theatres.specs.Marks.{is_marked, AreBelow};

use ih_tables::TheatreNo;

/// The number is marked.
#[inline(always)]
pub fn is_marked(marks: u64, index: u32) -> bool
    requires { index < 64 }
    ensures { result ≡ is_marked marks index }
{
    (marks >> index) & 1 == 1
}

/// The marks, and one on the theatre, where there is one.
#[inline(always)]
pub fn mark(marks: u64, theatre: Option<TheatreNo>) -> u64
    requires { IfSome theatre (λ m. m.0 < 64) }
    ensures { (i : ℕ) → is_marked result i
        ≡ (is_marked marks i || is_number (option_map (λ (m : TheatreNo). m.0) theatre) i) }
{
    match theatre {
        None => marks,
        Some(m) => marks | (1 << m.0),
    }
}

/// How many numbers are marked.
#[inline(always)]
pub fn count_marked(marks: u64) -> u32
    ensures count { (n : ℕ) → n ≤ 64 → AreBelow n marks → result ≡ count_below n (is_marked marks) }
    ensures bound { result ≤ 64 }
{
    marks.count_ones()
}
