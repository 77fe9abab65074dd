//! Which attempts are accepted: by annealing, in whole numbers. Nothing rests on what it answers.

ghost use Rattle.std.specs.Prelude.{◌<◌, ◌≤◌, ◌^◌};

use crate::logarithms::logarithm;

// The natural logarithm of 2, in 65536ths.
const LN_2: u64 = 45_426;

/// The greatest change of the score that is accepted: the heat, which is in 65536ths, times a random number with the
/// exponential distribution, which is made of the word.
pub(crate) fn most_accepted(heat: u64, word: u64) -> i64
    requires { heat ≤ 2 ^ 37 }
{
    // The word over 2^64 is evenly distributed, so its negated logarithm is exponentially.
    let halvings = (64 * 65536u64).saturating_sub(logarithm(word));
    let most = (heat * (halvings * LN_2 / 65536)) >> 32;
    most as i64
}
