//! The files that a call reads, by their names: an instance, a timetable for it, an older one, a journal, and the instance
//! that comes next.

ghost use Rattle.std.specs.Prelude.{◌≡◌, IfOk, IfErr, IfSome, option_map};
ghost use Rattle.ih_plan.specs.Timetable.{IsPlanOf};
ghost use Rattle.ih_inputs.specs.Errors.{HasNamedCause, HasOnlyRead, error_of_file, instance_refused_as, refused_as};
ghost use Rattle.ih_inputs.specs.Reading.{name_in, files_of, given_of, ArePlans, HasGiven, HasGivenBefore, HasInputs};
ghost use Rattle.ih_inputs.specs.Reading.{HasInstance, HasJournal, HasNext, HasOlder, HasReadCause, HasSolution};
ghost use Rattle.ih_inputs.specs.Reading.{IsNoInstance, IsNoPlan, IsUnread};

use crate::error::{InputError, InputRole, Refused};
use ih_instance::{InstanceError, read_instance};
use ih_plan::Plan;
use ih_shelf::{ReadError, Shelf};
use ih_solution::{SolutionError, read_solution};
use ih_tables::Instance;
use std::alloc::{AllocError, Global};
use std::rt::Files;

/// The most bytes of an instance or a solution file.
pub const MAX_FILE: u64 = 67_108_864;
/// The most bytes of a journal.
pub const MAX_JOURNAL: u64 = 268_435_456;

/// The names of the files. All but the instance may be left out.
#[derive(Clone, Copy)]
pub struct InputNames<'a> {
    pub instance: &'a str,
    pub solution: Option<&'a str>,
    /// A second solution of the instance.
    pub older: Option<&'a str>,
    pub journal: Option<&'a str>,
    /// A second instance, which comes next.
    pub next: Option<&'a str>,
    /// Whether what is said of a refused file begins with its name.
    pub are_said: bool,
}

impl<'a> InputNames<'a> {
    /// The name of the file with this role, where it has one.
    pub fn named(&self, role: InputRole) -> &'a str
        ensures { result.now ≡ name_in (files_of self.now) role }
    {
        match role {
            InputRole::Instance => self.instance,
            InputRole::Solution => self.solution.unwrap_or(""),
            InputRole::Older => self.older.unwrap_or(""),
            InputRole::Journal => self.journal.unwrap_or(""),
            InputRole::Next => self.next.unwrap_or(""),
        }
    }
}

/// What the files give.
#[derive(Drop)]
pub struct Inputs {
    // In a place of its own: it is handed on as an address.
    pub inst: Box<Instance>,
    pub plan: Plan,
    pub older: Option<Plan>,
    /// The bytes of the journal.
    pub journal: Option<Vec<u8>>,
    pub next: Option<Box<Instance>>,
}

// Why a file gave no bytes.
fn error_of_file(role: InputRole, error: ReadError) -> InputError
    ensures { result ≡ error_of_file role error }
{
    match error {
        ReadError::Fault => InputError::ReadFault(role),
        ReadError::TooLong => InputError::TooLong(role),
        ReadError::OutOfMemory => InputError::OutOfMemory,
    }
}

fn boxed(alloc: Global, inst: Instance) -> Result<Box<Instance>, AllocError>
    ensures { IfOk result (λ i. i.value.draft ≡ inst.draft) }
{
    Ok(Box::new(alloc, inst)?)
}

// An instance's refusal, by what its file is to the call.
fn instance_refused_as(role: InputRole, file: Refused) -> InputError
    ensures { result ≡ instance_refused_as role file }
{
    match role {
        InputRole::Next => InputError::NextRefused(file),
        _ => InputError::InstanceRefused(file),
    }
}

// The instance of a file.
fn read_instance_file<R: Files, S: Shelf>(
    rt: &R,
    alloc: Global,
    role: InputRole,
    name: &str,
    shelf: &mut S,
) -> Result<Box<Instance>, InputError>
    ensures read { IfOk result (λ i. IfSome (S.names shelf.old) (HasInstance name.now i.value.draft)) }
    ensures unread { IfErr result (IsNoInstance role (S.names shelf.old) name.now) }
    ensures cause { IfErr result (HasNamedCause S.Shelf name.now shelf.old shelf.new) }
    ensures only { HasOnlyRead S.Shelf shelf.old shelf.new }
{
    match shelf.read(rt, alloc, name, MAX_FILE) {
        Ok(bytes) => match read_instance(alloc, bytes.as_slice()) {
            Ok(inst) => match boxed(alloc, inst) {
                Ok(inst) => Ok(inst),
                Err(_) => Err(InputError::OutOfMemory),
            },
            Err(InstanceError::Refused(refusal)) => {
                Err(instance_refused_as(role, Refused { refusal, bytes }))
            }
            Err(InstanceError::OutOfMemory) => Err(InputError::OutOfMemory),
        },
        Err(error) => Err(error_of_file(role, error)),
    }
}

// The first instance.
fn read_first_instance<R: Files, S: Shelf>(
    rt: &R,
    alloc: Global,
    names: &InputNames<'_>,
    shelf: &mut S,
) -> Result<Box<Instance>, InputError>
    ensures read { IfOk result (λ i. IfSome (S.names shelf.old) (HasInstance names.now.instance.now i.value.draft)) }
    ensures unread { IfErr result (IsUnread (S.names shelf.old) (files_of names.now)) }
    ensures cause { IfErr result (HasReadCause S.Shelf (files_of names.now) shelf.old shelf.new) }
    ensures only { HasOnlyRead S.Shelf shelf.old shelf.new }
{
    read_instance_file(rt, alloc, InputRole::Instance, names.instance, shelf)
}

// A timetable's refusal, by what its file is to the call.
fn refused_as(role: InputRole, file: Refused) -> InputError
    ensures { result ≡ refused_as role file }
{
    match role {
        InputRole::Older => InputError::OlderRefused(file),
        _ => InputError::SolutionRefused(file),
    }
}

// The timetable of a solution's file.
fn read_plan<R: Files, S: Shelf>(
    rt: &R,
    alloc: Global,
    role: InputRole,
    name: &str,
    inst: &Instance,
    shelf: &mut S,
) -> Result<Plan, InputError>
    ensures plan { IfOk result (IsPlanOf inst.now.draft) }
    ensures read { IfOk result (λ p. IfSome (S.names shelf.old) (HasSolution name.now inst.now.draft p)) }
    ensures unread { IfErr result (IsNoPlan role (S.names shelf.old) name.now inst.now.draft) }
    ensures cause { IfErr result (HasNamedCause S.Shelf name.now shelf.old shelf.new) }
    ensures only { HasOnlyRead S.Shelf shelf.old shelf.new }
{
    match shelf.read(rt, alloc, name, MAX_FILE) {
        Ok(bytes) => match read_solution(alloc, inst, bytes.as_slice()) {
            Ok(plan) => Ok(plan),
            Err(SolutionError::Refused(refusal)) => {
                Err(refused_as(role, Refused { refusal, bytes }))
            }
            Err(SolutionError::OutOfMemory) => Err(InputError::OutOfMemory),
        },
        Err(error) => Err(error_of_file(role, error)),
    }
}

// The timetable of the solution's file, or the empty one where no file is named for it.
fn read_first_plan<R: Files, S: Shelf>(
    rt: &R,
    alloc: Global,
    names: &InputNames<'_>,
    inst: &Instance,
    shelf: &mut S,
) -> Result<Plan, InputError>
    requires { IfSome (S.names shelf.old) (HasInstance names.now.instance.now inst.now.draft) }
    ensures plan { IfOk result (IsPlanOf inst.now.draft) }
    ensures read { IfOk result (HasInputs (S.names shelf.old) (files_of names.now) inst.now.draft) }
    ensures unread { IfErr result (IsUnread (S.names shelf.old) (files_of names.now)) }
    ensures cause { IfErr result (HasReadCause S.Shelf (files_of names.now) shelf.old shelf.new) }
    ensures only { HasOnlyRead S.Shelf shelf.old shelf.new }
{
    match names.solution {
        Some(name) => read_plan(rt, alloc, InputRole::Solution, name, inst, shelf),
        None => match Plan::empty(alloc, inst) {
            Ok(plan) => Ok(plan),
            Err(_) => Err(InputError::OutOfMemory),
        },
    }
}

// The timetable of the older solution's file, where one is named. The contract speaks of the first one too.
fn read_older<R: Files, S: Shelf>(
    rt: &R,
    alloc: Global,
    names: &InputNames<'_>,
    inst: &Instance,
    _plan: &Plan,
    shelf: &mut S,
) -> Result<Option<Plan>, InputError>
    requires { HasInputs (S.names shelf.old) (files_of names.now) inst.now.draft _plan.now }
    ensures plan { IfOk result (λ o. IfSome o (IsPlanOf inst.now.draft)) }
    ensures read { IfOk result (HasOlder (S.names shelf.old) (files_of names.now).older inst.now.draft) }
    ensures unread { IfErr result (IsUnread (S.names shelf.old) (files_of names.now)) }
    ensures cause { IfErr result (HasReadCause S.Shelf (files_of names.now) shelf.old shelf.new) }
    ensures only { HasOnlyRead S.Shelf shelf.old shelf.new }
{
    match names.older {
        Some(name) => match read_plan(rt, alloc, InputRole::Older, name, inst, shelf) {
            Ok(plan) => Ok(Some(plan)),
            Err(error) => Err(error),
        },
        None => Ok(None),
    }
}

// The bytes of the journal, where one is named. The contract speaks of what was read before too.
fn read_journal<R: Files, S: Shelf>(
    rt: &R,
    alloc: Global,
    names: &InputNames<'_>,
    _inst: &Instance,
    _plan: &Plan,
    _older: &Option<Plan>,
    shelf: &mut S,
) -> Result<Option<Vec<u8>>, InputError>
    requires inputs { HasInputs (S.names shelf.old) (files_of names.now) _inst.now.draft _plan.now }
    requires older { HasOlder (S.names shelf.old) (files_of names.now).older _inst.now.draft _older.now }
    ensures read { IfOk result
        (λ j. HasJournal (S.names shelf.old) (files_of names.now).journal (option_map (λ v. v.items) j)) }
    ensures unread { IfErr result (IsUnread (S.names shelf.old) (files_of names.now)) }
    ensures cause { IfErr result (HasReadCause S.Shelf (files_of names.now) shelf.old shelf.new) }
    ensures only { HasOnlyRead S.Shelf shelf.old shelf.new }
{
    match names.journal {
        Some(name) => match shelf.read(rt, alloc, name, MAX_JOURNAL) {
            Ok(bytes) => Ok(Some(bytes)),
            Err(error) => Err(error_of_file(InputRole::Journal, error)),
        },
        None => Ok(None),
    }
}

// The instance that comes next, where one is named. The contract speaks of what was read before too.
fn read_next<R: Files, S: Shelf>(
    rt: &R,
    alloc: Global,
    names: &InputNames<'_>,
    _before: &Inputs,
    shelf: &mut S,
) -> Result<Option<Box<Instance>>, InputError>
    requires { HasGivenBefore (S.names shelf.old) (files_of names.now) (given_of _before.now) }
    ensures read { IfOk result
        (λ o. HasNext (S.names shelf.old) (files_of names.now).next (option_map (λ i. i.value.draft) o)) }
    ensures unread { IfErr result (IsUnread (S.names shelf.old) (files_of names.now)) }
    ensures cause { IfErr result (HasReadCause S.Shelf (files_of names.now) shelf.old shelf.new) }
    ensures only { HasOnlyRead S.Shelf shelf.old shelf.new }
{
    match names.next {
        Some(name) => match read_instance_file(rt, alloc, InputRole::Next, name, shelf) {
            Ok(inst) => Ok(Some(inst)),
            Err(error) => Err(error),
        },
        None => Ok(None),
    }
}

/// Reads the instance; then the timetable of its file, or takes the empty one where no file is named for it; then the
/// older timetable, the journal and the instance that comes next, where files are named for them. Where one of them can't
/// be had, the error says why, and nothing behind it is read. A fault is that of a read of the file that the error names,
/// and the bytes of a refused file are those that the refusal is about.
pub fn read_inputs<R: Files, S: Shelf>(
    rt: &R,
    alloc: Global,
    names: &InputNames<'_>,
    shelf: &mut S,
) -> Result<Inputs, InputError>
    ensures plans { IfOk result ArePlans }
    ensures read { IfOk result (λ i. HasGiven (S.names shelf.old) (files_of names.now) (given_of i)) }
    ensures unread { IfErr result (IsUnread (S.names shelf.old) (files_of names.now)) }
    ensures cause { IfErr result (HasReadCause S.Shelf (files_of names.now) shelf.old shelf.new) }
    ensures only { HasOnlyRead S.Shelf shelf.old shelf.new }
{
    let inst = read_first_instance(rt, alloc, names, shelf)?;
    let plan = read_first_plan(rt, alloc, names, &*inst, shelf)?;
    let older = read_older(rt, alloc, names, &*inst, &plan, shelf)?;
    let journal = read_journal(rt, alloc, names, &*inst, &plan, &older, shelf)?;
    let mut inputs = Inputs {
        inst,
        plan,
        older,
        journal,
        next: None,
    };
    inputs.next = read_next(rt, alloc, names, &inputs, shelf)?;
    Ok(inputs)
}
