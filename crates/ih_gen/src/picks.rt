//! Choices by the words of one stream.

use rand_core::SeedableRng;
use rand_core::utils::NextWord;
use rand_xoshiro::Xoshiro256PlusPlus;
use std::marker::Model;

/// The words of Xoshiro256++, of which each pick takes one.
#[derive(Drop)]
pub struct Picks {
    words: Xoshiro256PlusPlus,
}

impl Model for Picks {
    ghost use Rattle.std.specs.Prelude.{List, ℕ};

    ghost Value = { List ℕ };

    ghost view = { λ p. p.words };
}

impl Picks {
    ghost use Rattle.std.specs.Prelude.{◌≡◌, ◌<◌};
    ghost use Rattle.ih_plan.specs.Draws.{state_after};
    ghost use Rattle.ih_gen.specs.Words.{stream_of, pick};

    /// The words of the stream of a seed.
    #[tactic(auto, unfolding(crate::specs::Words::stream_of))]
    pub fn of(seed: u64) -> Picks
        ensures { result ≡ stream_of seed }
    {
        Picks {
            words: Xoshiro256PlusPlus::seed_from_u64(seed),
        }
    }

    /// A choice among `count`, from 0: the next word modulo `count`.
    #[tactic(auto, unfolding(crate::specs::Words::pick, ih_plan::specs::Draws::state_after))]
    pub fn pick(&mut self, count: u32) -> u32
        requires { 0 < count }
        ensures value { result ≡ pick self.old 0 count }
        ensures below { result < count }
        ensures rest { self.new ≡ state_after 1 self.old }
    {
        (self.words.next_word() % count as u64) as u32
    }
}
