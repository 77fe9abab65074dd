//! Reports on the small wards, of which a script writes the numbers alone, in one line.

use crate::texts::number;
use ih_fixtures::cut;
use std::alloc::{AllocError, Global};

// The weights of both wards.
const WEIGHTS: &str = "5 10 2 1 30 7 4 100";

// Adds the lines of the broken rules.
fn put_rules(alloc: Global, out: &mut String, numbers: &str) -> Result<(), AllocError> {
    let mut rule: u32 = 0;
    for number in numbers.split(' ') {
        rule = rule.saturating_add(1);
        let line = format!(in alloc; "V{rule} {number}\n")?;
        out.push_str(line.as_str())?;
    }
    Ok(())
}

// Adds the lines of the costs.
fn put_costs(alloc: Global, out: &mut String, numbers: &str) -> Result<(), AllocError> {
    let mut weights = WEIGHTS.split(' ');
    let mut cost: u32 = 0;
    for units in numbers.split(' ') {
        cost = cost.saturating_add(1);
        let weight = weights.next().unwrap_or("");
        let product = number(units)
            .unwrap_or(0)
            .saturating_mul(number(weight).unwrap_or(0));
        let line = format!(in alloc; "S{cost} {units} x {weight} = {product}\n")?;
        out.push_str(line.as_str())?;
    }
    Ok(())
}

// Adds the lines of a report.
fn put_report(alloc: Global, out: &mut String, numbers: &str) -> Result<(), AllocError> {
    let (rules, rest) = cut(numbers, ", ");
    let (costs, cost) = cut(rest, ", ");
    put_rules(alloc, out, rules)?;
    put_costs(alloc, out, costs)?;
    let line = format!(in alloc; "cost {cost}\n")?;
    out.push_str(line.as_str())
}

/// The lines of a text, each with its line feed. A line `report V1 .. V9, S1 .. S8, COST` stands for that report.
pub(crate) fn spelled_out(alloc: Global, text: &str) -> Result<String, AllocError> {
    let mut lines = String::new(alloc);
    for line in text.split('\n') {
        match line.strip_prefix("report ") {
            Some(numbers) => put_report(alloc, &mut lines, numbers)?,
            None => {
                lines.push_str(line)?;
                lines.push_str("\n")?;
            }
        }
    }
    Ok(lines)
}
