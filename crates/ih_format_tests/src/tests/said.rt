//! Tables of what is said of a small instance, or of a plan for it, after one change of the instance.

ghost use Rattle.ih_plan.specs.Timetable.{IsPlanOf};

use ih_fixtures::{cut, put_changed};
use ih_instance::read_instance;
use ih_mends::mends;
use ih_plan::Plan;
use ih_solution::read_solution;
use ih_tables::Instance;
use ih_waiting::who_waits;
use ih_warnings::warnings;
use ih_why::account;
use std::alloc::{AllocError, Global};

/// Who says something of an instance, or of the plan in a file.
#[derive(Clone, Copy)]
pub(crate) enum Teller<'p> {
    Account,
    Warnings,
    Mends(&'p str),
    Waits(&'p str),
}

// What is said of a plan.
fn told_of(
    alloc: Global,
    teller: Teller<'_>,
    inst: &Instance,
    plan: &Plan,
) -> Result<Vec<u8>, AllocError>
    requires { IsPlanOf inst.now.draft plan.now }
{
    match teller {
        Teller::Mends(_) => mends(alloc, inst, plan),
        _ => who_waits(alloc, inst, plan),
    }
}

// What is said of the plan in a file.
fn told_of_file(alloc: Global, teller: Teller<'_>, inst: &Instance, file: &str) -> Option<Vec<u8>> {
    match read_solution(alloc, inst, file.as_bytes()) {
        Ok(plan) => told_of(alloc, teller, inst, &plan).ok(),
        Err(_) => None,
    }
}

// What is said.
fn told(alloc: Global, teller: Teller<'_>, inst: &Instance) -> Option<Vec<u8>> {
    match teller {
        Teller::Account => account(alloc, inst).ok(),
        Teller::Warnings => warnings(alloc, inst).ok(),
        Teller::Mends(file) | Teller::Waits(file) => told_of_file(alloc, teller, inst, file),
    }
}

// Whether a text has these lines.
fn has_lines(alloc: Global, text: &[u8], wanted: &str) -> bool {
    let mut lines = String::new(alloc);
    for line in wanted.split(" / ") {
        if lines.push_str(line).is_err() || lines.push_str("\n").is_err() {
            return false;
        }
    }
    text == lines.as_bytes()
}

// Whether what is said is so: of a plan all lines, of an instance what the first begins with.
fn is_so(alloc: Global, teller: Teller<'_>, text: &[u8], wanted: &str) -> bool {
    if wanted == "nothing" {
        return text.is_empty();
    }
    match teller {
        Teller::Account | Teller::Warnings => text.starts_with(wanted.as_bytes()),
        _ => has_lines(alloc, text, wanted),
    }
}

// Whether this is said of an instance.
fn is_said_of(alloc: Global, teller: Teller<'_>, inst: &Instance, wanted: &str) -> bool {
    match told(alloc, teller, inst) {
        Some(text) => is_so(alloc, teller, text.as_slice(), wanted),
        None => false,
    }
}

// Whether this is said after a change.
fn is_said(
    alloc: Global,
    teller: Teller<'_>,
    text: &str,
    old: &str,
    new: &str,
    wanted: &str,
) -> bool {
    let mut file = String::new(alloc);
    let changed = matches!(put_changed(&mut file, text, old, new), Ok(true));
    match read_instance(alloc, file.as_bytes()) {
        Ok(inst) => changed && is_said_of(alloc, teller, &inst, wanted),
        Err(_) => false,
    }
}

/// The first row that isn't so: what stands in a text, what is put in its place, and what is then said.
pub(crate) fn first_wrong<'t>(
    alloc: Global,
    teller: Teller<'_>,
    text: &str,
    table: &'t str,
) -> &'t str {
    for row in table.trim().split('\n') {
        let (old, rest) = cut(row, " | ");
        let (new, wanted) = cut(rest, " | ");
        if !is_said(alloc, teller, text, old, new, wanted) {
            return row;
        }
    }
    ""
}
