//! Marks on numbers, by which distinct ones are counted.

ghost use Rattle.std.specs.Prelude.{◌≡◌, ◌<◌, ◌≤◌, ◌||◌, ℕ, length, IfSome};
ghost use Rattle.ih_plan.specs.{Costs.is_number, Sums.count_below};
ghost use Rattle.ih_tables.specs.Marks.{is_marked};

use crate::summing::bit;

/// Marks the number, where there is one.
pub fn mark(marks: &mut [bool], number: Option<u32>)
    requires { IfSome number (λ m. m < length marks.old) }
    ensures len { length marks.new ≡ length marks.old }
    ensures each { (i : ℕ) → is_marked marks.new i ≡ (is_marked marks.old i || is_number number i) }
{
    match number {
        None => {}
        Some(m) => marks[m as usize] = true,
    }
}

/// How many numbers below `count` are marked.
#[tactic(auto, using(ih_plan::proofs::SumLemmas::sum_steps))]
pub fn count_marked(marks: &[bool], count: u32) -> u64
    requires { count ≤ length marks.now }
    ensures count { result ≡ count_below count (is_marked marks.now) }
    ensures bound { result ≤ count }
{
    let mut marked = 0;
    for i in 0..count {
        marked += bit(marks[i as usize]);
    }
    marked
}
