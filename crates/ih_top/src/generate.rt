//! The command `gen`.

ghost use Rattle.std.specs.Prelude.{◌≡◌, IfOk};
ghost use Rattle.ih_top.specs.Below.Arguments.{gen_call};
ghost use Rattle.ih_top.specs.Below.Endings.{IsOwnStatus, outcome_of};
ghost use Rattle.ih_top.specs.Commands.{generated_outcome};

use ih_endings::Role;
use ih_frame::{Made, Outcome};
use ih_gen::generate;
use ih_words::Gen;
use std::alloc::Global;

/// The instance that the call's number generates is written. There is nothing to be said of that.
pub fn generated_outcome<'a>(alloc: Global, call: &'a Gen<'_>) -> Made<'a>
    ensures outcome { IfOk result (λ o. outcome_of o ≡ generated_outcome (gen_call call.entry.now)) }
    ensures own { IfOk result (λ o. IsOwnStatus o.status) }
{
    let text = generate(alloc, call.number)?;
    Outcome::written(alloc, Role::Out, call.out, text, Vec::new(alloc))
}
