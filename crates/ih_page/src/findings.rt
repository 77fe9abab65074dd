//! What breaks rules or costs, and where, as JSON values.

ghost use Rattle.std.specs.Prelude.{◌≡◌, ◌<◌, ℕ, IfOk, unsigned_abs};
ghost use Rattle.serde_json.specs.View.{view};
ghost use Rattle.ih_tables.specs.Sizes.{sizes_of};
ghost use Rattle.ih_plan.specs.Cells.{IsCellOf, part_at};
ghost use Rattle.ih_solution.specs.Solution.{list_data};
ghost use Rattle.ih_page.specs.Findings.{IsLine, count_in, finding_data, findings_data, line_data, line_of};
ghost use Rattle.ih_page.specs.Findings.{lines_data, number_in, spot_of};

use ih_costs::Ledgers;
use ih_footprint::Numbering;
use ih_tables::{Bill, Cell};
use ih_values::{Array, Made, Object, list_value, listed_value};
use std::alloc::Global;

/// One of the nine rules or of the eight costs, by its place.
#[derive(Clone, Copy)]
pub enum Line {
    Rule(u32),
    Cost(u32),
}

/// Where a cell is: its kind, what it is of, and the day or the shift.
#[derive(Clone, Copy)]
pub struct Spot {
    pub kind: u64,
    pub row: u64,
    pub column: u64,
}

// The line's number of a bill, without its sign.
fn magnitude(bill: &Bill, line: Line) -> u64
    requires { IsLine line }
    ensures { result ≡ unsigned_abs (number_in bill.now line) }
{
    match line {
        Line::Rule(i) => bill.v[i as usize].unsigned_abs(),
        Line::Cost(i) => bill.s[i as usize].unsigned_abs(),
    }
}

// How much of the line's number the cell has.
fn amount(ledgers: &Ledgers<'_>, line: Line, cell: Cell) -> u64
    requires cell { IsCellOf ledgers.now.instance cell }
    requires line { IsLine line }
    ensures { result ≡ count_in (part_at ledgers.now.instance ledgers.now.plan cell) line }
{
    magnitude(&ledgers.part(cell), line)
}

fn spot_of(cell: Cell) -> Spot
    ensures { result ≡ spot_of cell }
{
    let (kind, row, column) = match cell {
        Cell::Stay(p) => (0, p.0, 0),
        Cell::RoomDay(r, d) => (1, r.0, d.0),
        Cell::TheatreDay(t, d) => (2, t.0, d.0),
        Cell::SurgeonDay(s, d) => (3, s.0, d.0),
        Cell::RoomShift(r, k) => (4, r.0, k.0),
        Cell::NurseShift(n, k) => (5, n.0, k.0),
        Cell::Care(x) => (6, x.0, 0),
    };
    Spot {
        kind,
        row: u64::from(row),
        column: u64::from(column),
    }
}

fn finding_value(alloc: Global, amount: u64, spot: Spot) -> Made
    ensures { IfOk result (λ v. view v ≡ finding_data amount spot) }
{
    list_value(alloc, &[amount, spot.kind, spot.row, spot.column])
}

// The cells that have any of the line's number, each with its amount.
#[tactic(auto, using(ih_solution::proofs::ListedValues::chosen_steps), unfolding(crate::specs::Findings::line_data))]
fn line_value(alloc: Global, cells: Numbering, ledgers: &Ledgers<'_>, line: Line) -> Made
    requires cells { cells ≡ sizes_of ledgers.now.instance }
    requires line { IsLine line }
    ensures { IfOk result (λ v. view v ≡ line_data ledgers.now.instance ledgers.now.plan line) }
{
    let mut values = Array::new(alloc);
    for n in 0..cells.count() {
        let cell = cells.cell(n);
        let amount = amount(ledgers, line, cell);
        if amount != 0 {
            values = values.add(finding_value(alloc, amount, spot_of(cell)))?;
        }
    }
    values.value()
}

fn line_of(are_rules: bool, number: u32) -> Line
    ensures { result ≡ line_of are_rules number }
{
    if are_rules {
        Line::Rule(number)
    } else {
        Line::Cost(number)
    }
}

// The findings of the rules, or of the costs, below a number.
fn lines_value(
    alloc: Global,
    cells: Numbering,
    ledgers: &Ledgers<'_>,
    are_rules: bool,
    count: u32,
) -> Made
    requires cells { cells ≡ sizes_of ledgers.now.instance }
    requires few { (i : ℕ) → i < count → IsLine (line_of are_rules i) }
    ensures { IfOk result (λ v. view v ≡ list_data (lines_data ledgers.now.instance ledgers.now.plan are_rules count)) }
{
    listed_value(alloc, count, |i| {
        let line = line_of(are_rules, i);
        line_value(alloc, cells, ledgers, line)
    })
}

/// The findings of each number of the bill.
#[tactic(auto, unfolding(crate::specs::Findings::findings_data))]
pub fn findings_value(alloc: Global, cells: Numbering, ledgers: &Ledgers<'_>) -> Made
    requires { cells ≡ sizes_of ledgers.now.instance }
    ensures { IfOk result (λ v. view v ≡ findings_data ledgers.now.instance ledgers.now.plan) }
{
    Object::new(alloc)
        .put("costs", lines_value(alloc, cells, ledgers, false, 8))?
        .put("rules", lines_value(alloc, cells, ledgers, true, 9))?
        .value()
}
