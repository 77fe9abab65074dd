//! Sums over the numbers below a count.

ghost use Rattle.std.specs.Prelude.{◌≡◌, ◌<◌, ◌≤◌, ◌*◌, ◌^◌, ℕ};
ghost use Rattle.ih_plan.specs.Sums.{sum_below, bit};

/// 1 where it holds, else 0.
pub fn bit(flag: bool) -> u64
    ensures { result ≡ bit flag }
{
    if flag { 1 } else { 0 }
}

/// The sum of what each number below the count gives, each at most so much.
pub fn sum_below<F: Fn(u32) -> u64>(count: u32, most: u64, each: F) -> u64
    requires callable { (i : ℕ) → i < count → F.pre each i }
    requires few { (i x : ℕ) → i < count → F.post each i x → x ≤ most }
    requires fits { count * most < 2 ^ 64 }
    ensures sum { (f : ℕ → ℕ) → ((i x : ℕ) → i < count → F.post each i x → x ≡ f i) → result ≡ sum_below count f }
    ensures bound { result ≤ count * most }
{
    let mut sum = 0;
    for i in 0..count {
        sum += each(i);
    }
    sum
}
