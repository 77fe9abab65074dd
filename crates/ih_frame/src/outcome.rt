//! What a command comes to.

ghost use Rattle.std.specs.Prelude.{◌≡◌, IfOk, []};
ghost use Rattle.ih_endings.specs.declared.status.Status.TheVariants.{Done};
ghost use Rattle.ih_frame.specs.Outcomes.{outcome_of, says, writes_one};

use ih_endings::{Role, Status};
use std::alloc::{AllocError, Global};

/// A file that is to be written.
#[derive(Drop)]
pub struct Writing<'a> {
    /// What the file is to the command.
    pub role: Role,
    pub name: &'a str,
    pub bytes: Vec<u8>,
}

/// What a command comes to.
#[derive(Drop)]
pub struct Outcome<'a> {
    /// The files that are to be written, in this order.
    pub writes: Vec<Writing<'a>>,
    /// What is said once they are written.
    pub text: Vec<u8>,
    /// How the call then ends.
    pub status: Status,
}

/// What a command comes to, unless memory ran out.
pub type Made<'a> = Result<Outcome<'a>, AllocError>;

impl<'a> Outcome<'a> {
    /// Nothing is written.
    pub fn said(alloc: Global, status: Status, text: Vec<u8>) -> Outcome<'a>
        ensures outcome { outcome_of result ≡ says status text.items }
        ensures status { result.status ≡ status }
    {
        Outcome {
            writes: Vec::new(alloc),
            text,
            status,
        }
    }

    /// One file is written, and then this is said.
    pub fn written(
        alloc: Global,
        role: Role,
        name: &'a str,
        bytes: Vec<u8>,
        text: Vec<u8>,
    ) -> Made<'a>
        ensures outcome { IfOk result (λ o. outcome_of o ≡ writes_one role name.entry.now bytes.items text.items) }
        ensures status { IfOk result (λ o. o.status ≡ Done) }
    {
        let mut writes = Vec::new(alloc);
        writes.push(Writing { role, name, bytes })?;
        Ok(Outcome {
            writes,
            text,
            status: Status::Done,
        })
    }
}
