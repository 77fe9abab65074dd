//! The random words of one worker in one round.

use ih_moves::Stream;
use ih_plan::Move;
use ih_tables::Instance;

/// The words of Xoshiro256++, by the stream of moves that is seeded for a worker and a round.
#[derive(Drop)]
pub struct RandomWords {
    stream: Stream,
}

impl RandomWords {
    ghost use Rattle.std.specs.Prelude.{◌<◌};
    ghost use Rattle.ih_plan.specs.{Expand.IsMoveOf};

    /// The words of a worker in a round. The generator is seeded by one number: the seed with its halves exchanged, in
    /// whose lower half the round is put six bits up, and the worker is added. So no two triples of a seed and a round
    /// below 2^32 and 2^26 and one of 64 workers are seeded alike.
    pub fn new(seed: u64, round: u32, worker: u32) -> RandomWords {
        let number = seed.rotate_left(32) ^ (round as u64) << 6;
        RandomWords {
            stream: Stream::new(number, worker),
        }
    }

    /// The next word.
    pub fn next(&mut self) -> u64 {
        self.stream.word()
    }

    /// A choice among `count`, from 0: the next word modulo `count`.
    pub fn below(&mut self, count: u32) -> u32
        requires { 0 < count }
        ensures { result < count }
    {
        (self.next() % count as u64) as u32
    }

    /// A move in range that looks at nothing: the stream's next draw.
    pub fn blind(&mut self, inst: &Instance) -> Move
        ensures { IsMoveOf inst.now.draft result }
    {
        self.stream.draw(inst)
    }
}

#[cfg(test)]
mod tests {
    use super::RandomWords;

    // The first word of a worker in a round.
    fn first(seed: u64, round: u32, worker: u32) -> u64 {
        RandomWords::new(seed, round, worker).next()
    }

    #[test]
    fn another_seed_round_or_worker_has_other_words(rt: HostRuntime) {
        let word = first(7, 1, 2);
        assert_eq!(rt; first(7, 1, 2), word);
        assert_ne!(rt; first(8, 1, 2), word);
        assert_ne!(rt; first(7, 2, 2), word);
        assert_ne!(rt; first(7, 1, 3), word);
    }
}
