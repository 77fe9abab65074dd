//! What is said of a bound, and of a timetable beside it.

ghost use Rattle.std.specs.Prelude.{◌≡◌, ◌++◌, ◌<◌, decimal, IfOk, OnOk};
ghost use Rattle.ih_bound.specs.Texts.{above, bound_text, gap_text, limit_line, origin_line, parts_text};
ghost use Rattle.ih_bound.specs.Texts.{judged_text, percent_text, plan_text, share_text};

use crate::judging::Judged;
use crate::outcomes::{Outcome, Parts};
use itoa::Buffer;
use std::alloc::{AllocError, Global};

/// Appends a text.
pub fn put(out: &mut Vec<u8>, text: &str) -> Result<(), AllocError>
    ensures { OnOk result (out.new.items ≡ out.old.items ++ text.now) }
{
    out.extend_from_slice(text.as_bytes())
}

/// Appends a name and a number.
pub fn put_number(out: &mut Vec<u8>, name: &str, number: u64) -> Result<(), AllocError>
    ensures { OnOk result (out.new.items ≡ out.old.items ++ (name.now ++ decimal number)) }
{
    put(out, name)?;
    put(out, Buffer::new().format(number))
}

fn put_parts(out: &mut Vec<u8>, parts: &Parts) -> Result<(), AllocError>
    ensures { OnOk result (out.new.items ≡ out.old.items ++ parts_text parts.now) }
{
    put_number(out, "delay ", parts.delay)?;
    put_number(out, ", left out ", parts.left_out)?;
    put_number(out, ", theatres ", parts.theatres)?;
    put_number(out, ", nurses ", parts.nurses)
}

/// Appends in one line what no feasible timetable costs less than, or that there is none.
pub fn put_limit(out: &mut Vec<u8>, outcome: &Outcome) -> Result<(), AllocError>
    ensures { OnOk result (out.new.items ≡ out.old.items ++ limit_line outcome.now) }
{
    match outcome {
        Outcome::Infeasible => put(out, "no feasible timetable exists\n"),
        Outcome::AtLeast(b) => {
            put_number(out, "no feasible timetable costs less than ", b.value)?;
            put(out, "\n")
        }
    }
}

// Appends where the bound comes from.
fn put_origin(out: &mut Vec<u8>, outcome: &Outcome) -> Result<(), AllocError>
    ensures { OnOk result (out.new.items ≡ out.old.items ++ origin_line outcome.now) }
{
    match outcome {
        Outcome::Infeasible => Ok(()),
        Outcome::AtLeast(b) => {
            put_parts(out, &b.parts)?;
            put_number(out, "; rounds ", b.rounds as u64)?;
            put(out, "\n")
        }
    }
}

// By how many thousandths so much is above the least that it can be, rounded up.
fn above(cost: u64, least: u64) -> u128
    requires { 0 < least }
    ensures { result ≡ above cost least }
{
    (cost.saturating_sub(least) as u128 * 1000).div_ceil(least as u128)
}

fn put_percent(out: &mut Vec<u8>, number: u128) -> Result<(), AllocError>
    ensures { OnOk result (out.new.items ≡ out.old.items ++ percent_text number) }
{
    put(out, Buffer::new().format(number / 10))?;
    put(out, ".")?;
    put(out, Buffer::new().format(number % 10))?;
    put(out, " %")
}

fn put_share(out: &mut Vec<u8>, number: u128) -> Result<(), AllocError>
    ensures { OnOk result (out.new.items ≡ out.old.items ++ share_text number) }
{
    put(out, ", at most ")?;
    put_percent(out, number)?;
    put(out, " above the best")
}

/// Appends how far a feasible timetable of this cost may be from the best; where the best may cost nothing, nothing.
pub fn put_gap(out: &mut Vec<u8>, cost: i64, least: u64) -> Result<(), AllocError>
    ensures { OnOk result (out.new.items ≡ out.old.items ++ gap_text cost least) }
{
    if least == 0 {
        Ok(())
    } else {
        put_share(out, above(cost.unsigned_abs(), least))
    }
}

fn put_plan(out: &mut Vec<u8>, plan: &Judged, outcome: &Outcome) -> Result<(), AllocError>
    ensures { OnOk result (out.new.items ≡ out.old.items ++ plan_text plan.now outcome.now) }
{
    match outcome {
        Outcome::AtLeast(b) if plan.feasible => {
            put(out, "this one costs ")?;
            put(out, Buffer::new().format(plan.cost))?;
            put_gap(out, plan.cost, b.value)?;
            put(out, "\n")
        }
        _ => put(out, "this one breaks hard rules\n"),
    }
}

fn put_judged(
    out: &mut Vec<u8>,
    judged: &Option<Judged>,
    outcome: &Outcome,
) -> Result<(), AllocError>
    ensures { OnOk result (out.new.items ≡ out.old.items ++ judged_text judged.now outcome.now) }
{
    match judged {
        Some(plan) => put_plan(out, plan, outcome),
        None => Ok(()),
    }
}

/// What is said of all feasible timetables, and of the one that was judged, if any.
#[tactic(auto, unfolding(crate::specs::Texts::bound_text))]
pub fn bound_text(
    alloc: Global,
    outcome: &Outcome,
    judged: &Option<Judged>,
) -> Result<Vec<u8>, AllocError>
    ensures { IfOk result (λ v. v.items ≡ bound_text judged.now outcome.now) }
{
    let mut out = Vec::new(alloc);
    put_limit(&mut out, outcome)?;
    put_origin(&mut out, outcome)?;
    put_judged(&mut out, judged, outcome)?;
    Ok(out)
}
