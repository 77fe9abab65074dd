//! What a fact counts in a bill, and how much more one number is than another.

ghost use Rattle.std.specs.Prelude.{◌≡◌, ◌≤◌, ◌^◌, ◌≤ℤ◌, ◌-ℤ◌, neg_ℤ, pos};
ghost use Rattle.ih_plan.specs.Sums.{bit};

/// 1 for true and 0 for false.
#[inline(always)]
pub fn bit(yes: bool) -> u32
    ensures value { result ≡ bit yes }
    ensures bound { result ≤ 1 }
{
    if yes { 1 } else { 0 }
}

/// How much more the new number is than the old one.
#[inline(always)]
pub fn increase(new: u32, old: u32) -> i64
    ensures value { result ≡ pos new -ℤ pos old }
    ensures low { neg_ℤ (pos (10 ^ 11)) ≤ℤ result }
    ensures high { result ≤ℤ pos (10 ^ 11) }
{
    new as i64 - old as i64
}
