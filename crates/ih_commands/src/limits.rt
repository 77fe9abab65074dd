//! The limits of the words, and what stands for those that are left out.

ghost use Rattle.std.specs.Prelude.{◌≡◌};
ghost use Rattle.ih_commands.specs.Below.Searches.{MAX_KEEP, MAX_ROUNDS};
ghost use Rattle.ih_optimizer.specs.declared.improving.TheConstants.{DEFAULT_BOUND_ROUNDS};
ghost use Rattle.ih_commands.specs.declared.command.bound.TheConstants.{MAX_BOUND_ROUNDS};
ghost use Rattle.ih_commands.specs.declared.command.improve_words.TheConstants.{DEFAULT_ROUNDS, DEFAULT_SECONDS, DEFAULT_SEED};
ghost use Rattle.ih_commands.specs.declared.command.improve_words.TheConstants.{DEFAULT_TIMED_ROUNDS};
ghost use Rattle.ih_commands.specs.declared.command.common.TheConstants.{DEFAULT_WORKERS};
ghost use Rattle.ih_optimizer.specs.declared.pacing.TheConstants.{MAX_CALL_ATTEMPTS, MAX_CALL_ROUNDS, MAX_SECONDS};

/// The limits of the words are these numbers, and these stand for what is left out: where a definition speaks of them by
/// name, a changed constant would change what is promised, and not break it.
pub fn limits_are_these()
    ensures attempts { MAX_CALL_ATTEMPTS ≡ 1000000000000 }
    ensures rounds { MAX_CALL_ROUNDS ≡ 10000 }
    ensures timed_rounds { MAX_ROUNDS ≡ 1000000 }
    ensures seconds { MAX_SECONDS ≡ 604800 }
    ensures keep { MAX_KEEP ≡ 1000000 }
    ensures default_rounds { DEFAULT_ROUNDS ≡ 20 }
    ensures default_timed_rounds { DEFAULT_TIMED_ROUNDS ≡ 40 }
    ensures default_seconds { DEFAULT_SECONDS ≡ 60 }
    ensures default_seed { DEFAULT_SEED ≡ 1 }
    ensures bound_rounds { MAX_BOUND_ROUNDS ≡ 1000000 }
    ensures default_bound_rounds { DEFAULT_BOUND_ROUNDS ≡ 1500 }
    ensures default_workers { DEFAULT_WORKERS ≡ 4 }
{}
