//! Headings, lines and moves of journals, as the worked examples have them.

ghost use Rattle.std.specs.Prelude.{◌^◌};
ghost use Rattle.ih_tables.specs.Bills.{IsWithin};

use ih_fixtures::{WARD, cut};
use ih_instance::read_instance;
use ih_journal::{BadLine, Entry, Options, Verdict, head_line, line, parse_line, parse_move, text};
use ih_plan::Move;
use ih_tables::{Day, Instance, NurseNo, RoomNo, Shift};
use std::alloc::{AllocError, Global};

const OPTIONS: Options = Options {
    seed: 0,
    workers: 1,
    moves: 2,
    heat: 0,
    hard: 1000,
    retries: 0,
};

const RETRYING: Options = Options {
    retries: 1,
    ..OPTIONS
};

// The first entry of a search on the ward of one day.
const FIRST_LINE: &str = "0 0 0 0 nurserun:0,0,0,5 0,0,0,0,0,0,0,0,-3,0,1,1,0,0,0,0,0 accepted";

// Whether the entry has each field of `FIRST_LINE`.
fn is_first(entry: &Entry) -> bool {
    (entry.worker, entry.number, entry.again, entry.seen) == (0, 0, 0, 0)
        && entry.mv == Move::NurseRun(NurseNo(0), RoomNo(0), Day(0), 5)
        && entry.price.v == [0, 0, 0, 0, 0, 0, 0, 0, -3]
        && entry.price.s == [0, 1, 1, 0, 0, 0, 0, 0]
        && entry.verdict == Verdict::Accepted
}

// The headings without and with retries, the first line of a search on the ward, and a move.
const WRITTEN: &str = "ihjournal 1 seed=0 workers=1 moves=2 heat=0 hard=1000
ihjournal 2 seed=0 workers=1 moves=2 heat=0 hard=1000 retries=1
0 0 0 0 nurserun:0,0,0,5 0,0,0,0,0,0,0,0,-3,0,1,1,0,0,0,0,0 accepted
swapnurses:7,0,12";

// The headings, an entry and a move.
fn write_all(entry: &Entry, out: &mut Vec<u8>) -> Result<(), AllocError>
    requires { IsWithin (10 ^ 11) entry.now.price }
{
    head_line(&OPTIONS, out)?;
    head_line(&RETRYING, out)?;
    line(&OPTIONS, 0, entry, out)?;
    text(&Move::SwapNurses(Shift(7), RoomNo(0), RoomNo(12)), out)
}

// Whether an entry is that of the first line, and is written so again.
fn is_written(alloc: Global, entry: &Entry) -> bool
    requires { IsWithin (10 ^ 11) entry.now.price }
{
    let mut out = Vec::new(alloc);
    is_first(entry) && write_all(entry, &mut out).is_ok() && out.as_slice() == WRITTEN.as_bytes()
}

// Texts that are no lines, and the first field of each that is wrong: `FIRST_LINE` with a double space, and with an
// eighth field; then others.
const NO_LINES: &str = "
0  0 0 0 nurserun:0,0,0,5 0,0,0,0,0,0,0,0,-3,0,1,1,0,0,0,0,0 accepted | 2
0 0 0 0 nurserun:0,0,0,5 0,0,0,0,0,0,0,0,-3,0,1,1,0,0,0,0,0 accepted 0 | 8
 | 1
00 0 0 0 idle 0,0,0,0,0,0,0,0,0,0,0,0,0,0,0,0,0 accepted | 1
0 0 0 -1 idle 0,0,0,0,0,0,0,0,0,0,0,0,0,0,0,0,0 accepted | 4
0 0 0 0 nurse:0,3,0 0,0,0,0,0,0,0,0,0,0,0,0,0,0,0,0,0 accepted | 5
0 0 0 0 idle 0,0,0,0,0,0,0,0,0,0,0,0,0,0,0,0 accepted | 6
0 0 0 0 idle 0,0,0,0,0,0,0,0,0,0,0,0,0,0,0,0,-0 accepted | 6
0 0 0 0 idle 0,0,0,0,0,0,0,0,0,0,0,0,0,0,0,0,0 | 7
0 0 0 0 idle 0,0,0,0,0,0,0,0,0,0,0,0,0,0,0,0,0 accepted\r | 7
0 0 0 0 idle 0,0,0,0,0,0,0,0,0,0,0,0,0,0,0,0,0 stale:roomday.1.0:0:0 | 7
0 0 0 0 idle 0,0,0,0,0,0,0,0,0,0,0,0,0,0,0,0,0 accepted  | 8
";

// Texts that are no lines of a journal with retries, and the first field of each that is wrong.
const NO_TRIES: &str = "
0 0 0 x 0 idle | 4
0 0 0 8 0 idle 0,0,0,0,0,0,0,0,0,0,0,0,0,0,0,0,0 accept | 8
0 0 0 0 0 idle 0,0,0,0,0,0,0,0,0,0,0,0,0,0,0,0,0 accepted  | 9
";

fn is_wrong_at(inst: &Instance, options: &Options, text: &str, field: &str) -> bool {
    match (
        parse_line(inst, options, text.as_bytes()),
        field.parse::<u32>(),
    ) {
        (Err(bad), Ok(field)) => bad == BadLine { field },
        _ => false,
    }
}

fn are_no_lines(inst: &Instance, options: &Options, table: &str) -> bool {
    for row in table.trim().split('\n') {
        let (text, field) = cut(row, " | ");
        if !is_wrong_at(inst, options, text, field) {
            return false;
        }
    }
    true
}

fn is_first_read(alloc: Global, inst: &Instance) -> bool {
    match parse_line(inst, &OPTIONS, FIRST_LINE.as_bytes()) {
        Ok((0, entry)) => is_written(alloc, &entry),
        _ => false,
    }
}

// Whether lines are read so on the ward. A shift past the last is no move there.
fn are_read(alloc: Global) -> bool {
    match read_instance(alloc, WARD.as_bytes()) {
        Ok(inst) => {
            is_first_read(alloc, &inst)
                && are_no_lines(&inst, &OPTIONS, NO_LINES)
                && are_no_lines(&inst, &RETRYING, NO_TRIES)
                && parse_move(&inst, b"nurse:0,3,0").is_none()
        }
        Err(_) => false,
    }
}

#[test]
fn lines_are_read_up_to_the_first_wrong_field(rt: HostRuntime) {
    assert!(rt; are_read(rt.alloc()));
}
