//! What a search made, to be written and said.

ghost use Rattle.std.specs.Prelude.{◌≡◌, IfOk};
ghost use Rattle.ih_top.specs.Below.Arguments.{solve_call};
ghost use Rattle.ih_top.specs.Below.Endings.{IsOwnStatus, outcome_of};
ghost use Rattle.ih_top.specs.Outputs.{search_outcome};

use crate::output::Output;
use crate::texts::none_found_text;
use ih_endings::{Role, Status};
use ih_frame::{Made, Outcome, Writing};
use ih_words::Solve;
use std::alloc::Global;

/// The journal is written, then the solution of the best where there is one.
pub fn search_outcome<'a>(alloc: Global, call: &'a Solve<'_>, output: Output) -> Made<'a>
    ensures outcome { IfOk result
        (λ o. outcome_of o ≡ search_outcome (solve_call call.entry.now) output.journal.items output.best) }
    ensures own { IfOk result (λ o. IsOwnStatus o.status) }
{
    let Output { journal, best } = output;
    let mut writes = Vec::new(alloc);
    writes.push(Writing {
        role: Role::Journal,
        name: call.journal,
        bytes: journal,
    })?;
    let Some(best) = best else {
        let text = none_found_text(alloc)?;
        return Ok(Outcome {
            writes,
            text,
            status: Status::NoneFound,
        });
    };
    writes.push(Writing {
        role: Role::Out,
        name: call.out,
        bytes: best.solution,
    })?;
    Ok(Outcome {
        writes,
        text: best.text,
        status: Status::Done,
    })
}
