//! The files that a call reads before anything else, and what is said where one of them can't be had.

ghost use Rattle.std.specs.Prelude.{◌≡◌, ◌++◌, IfOk, IfErr};
ghost use Rattle.ih_inputs.specs.Errors.{HasOnlyRead};
ghost use Rattle.ih_inputs.specs.Reading.{ArePlans, HasGiven, files_of, given_of};
ghost use Rattle.ih_remedies.specs.Remedies.{IsRemedy};
ghost use Rattle.ih_endings.specs.Answers.{Answers, HasShelfCause, IsSaidSo};
ghost use Rattle.ih_endings.specs.Inputs.{EndsUnread, HasFailedRead, IsUnreadInputs, SaysRefused, SaysRemedy, role_in};

use crate::answer::Answer;
use crate::status::{Role, Status};
use crate::texts::{out_of_memory, refused, too_long, unread};
use ih_inputs::{InputError, InputNames, InputRole, Inputs, Refused};
use ih_remedies::remedy;
use ih_shelf::Shelf;
use std::alloc::{AllocError, Global};
use std::rt::Files;

fn role_in(role: InputRole) -> Role
    ensures { result ≡ role_in role }
{
    match role {
        InputRole::Instance | InputRole::Next => Role::Instance,
        InputRole::Solution | InputRole::Older => Role::Solution,
        InputRole::Journal => Role::Journal,
    }
}

// A refused file's line behind the file's name, and what helps to mend the file.
fn with_remedy(
    alloc: Global,
    name: &str,
    line: &[u8],
    file: &Refused,
) -> Result<Vec<u8>, AllocError>
    ensures { IfOk result (λ t. SaysRemedy name.now line.now file.now t.items) }
{
    let remedy = remedy(alloc, file.bytes.as_slice(), file.refusal)?;
    let mut out = Vec::new(alloc);
    out.extend_from_slice(name.as_bytes())?;
    out.extend_from_slice(b": ")?;
    out.extend_from_slice(line)?;
    out.extend_from_slice(remedy.as_slice())?;
    Ok(out)
}

// An answer with its status, and its line behind the file's name and before what helps to mend the file. Out of memory
// where that finds none.
fn answer_with_remedy(alloc: Global, name: &str, answer: &Answer, file: &Refused) -> Answer
    ensures { IsSaidSo answer.now.status (SaysRemedy name.now answer.now.text.items file.now) result }
{
    match with_remedy(alloc, name, answer.text.as_slice(), file) {
        Ok(text) => Answer {
            status: answer.status,
            text,
        },
        Err(_) => out_of_memory(alloc),
    }
}

// A refused file's answer. Where names are said, it also says what helps to mend the file.
#[tactic(auto, using(crate::proofs::Stopping::remedy_answer))]
fn answer_refused(
    alloc: Global,
    names: &InputNames<'_>,
    role: InputRole,
    what: &str,
    status: Status,
    file: &Refused,
) -> Answer
    ensures { IsSaidSo status (SaysRefused (files_of names.now) role what.now file.now) result }
{
    let answer = refused(alloc, status, what, file.refusal);
    if names.are_said {
        answer_with_remedy(alloc, names.named(role), &answer, file)
    } else {
        answer
    }
}

// Says why the files can't be had.
fn unread_inputs(alloc: Global, names: &InputNames<'_>, error: InputError) -> Answer
    ensures { IsUnreadInputs (files_of names.now) error result }
{
    match error {
        InputError::ReadFault(role) => unread(alloc, role_in(role), names.named(role)),
        InputError::TooLong(role) => too_long(alloc, role_in(role), names.named(role)),
        InputError::InstanceRefused(file) => {
            let status = Status::InstanceRefused(file.refusal);
            answer_refused(alloc, names, InputRole::Instance, "instance", status, &file)
        }
        InputError::SolutionRefused(file) => {
            let status = Status::StartRefused(file.refusal);
            answer_refused(alloc, names, InputRole::Solution, "solution", status, &file)
        }
        InputError::OlderRefused(file) => {
            let status = Status::StartRefused(file.refusal);
            answer_refused(
                alloc,
                names,
                InputRole::Older,
                "older solution",
                status,
                &file,
            )
        }
        InputError::NextRefused(file) => {
            let status = Status::InstanceRefused(file.refusal);
            answer_refused(alloc, names, InputRole::Next, "new instance", status, &file)
        }
        InputError::OutOfMemory => out_of_memory(alloc),
    }
}

/// Reads the files of a call: the instance, then the timetable, the older one, the journal and the instance that comes next,
/// where files are named for them. Where one of them can't be had, the answer says why. A file that is said to be
/// unreadable is the one of which a read failed. Where names are said, a refused file's line stands behind its name, and a
/// line that helps to mend the file may follow.
pub fn read_or_answer<R: Files, S: Shelf>(
    rt: &R,
    alloc: Global,
    names: &InputNames<'_>,
    shelf: &mut S,
) -> Result<Inputs, Answer>
    ensures plans { IfOk result ArePlans }
    ensures read { IfOk result (λ i. HasGiven (S.names shelf.old) (files_of names.now) (given_of i)) }
    ensures unread { IfErr result (Answers (EndsUnread (S.names shelf.old) (files_of names.now))) }
    ensures cause { IfErr result (λ a. HasShelfCause S.Shelf shelf.old shelf.new a.status) }
    ensures failed { IfErr result (λ a. HasFailedRead S.Shelf shelf.old shelf.new a.status a.text.items) }
    ensures only { HasOnlyRead S.Shelf shelf.old shelf.new }
{
    match ih_inputs::read_inputs(rt, alloc, names, shelf) {
        Ok(inputs) => Ok(inputs),
        Err(error) => Err(unread_inputs(alloc, names, error)),
    }
}
