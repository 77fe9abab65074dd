//! Journals taken line by line, on a ward of two patients of whom the first is admitted, with one nurse in all shifts.

ghost use Rattle.ih_plan.specs.Timetable.{IsPlanOf};
ghost use Rattle.ih_journal.specs.Settings.{IsLawful};

use ih_fixtures::{number, on_first_admitted, share, word};
use ih_journal::{Options, Reason, parse_head};
use ih_plan::Plan;
use ih_replay::Replay;
use ih_tables::Instance;
use std::alloc::Global;

// Why a line is refused, by a word.
fn reason(word: &str) -> Reason {
    match word {
        "grammar" => Reason::Grammar,
        "place" => Reason::Place,
        "worker" => Reason::Worker,
        "number" => Reason::Number,
        "try" => Reason::Try,
        "seen" => Reason::Seen,
        "move" => Reason::Move,
        "price" => Reason::Price,
        "verdict" => Reason::Verdict,
        "short" => Reason::Early,
        _ => Reason::Extra,
    }
}

// Whether the best is at a place and costs so much, and its timetable can be made.
fn is_best(alloc: Global, replay: &Replay<'_>, text: &str) -> bool {
    let (place, cost) = word(text);
    if replay.best() != Some((number(place), i64::from(number(cost)))) {
        return false;
    }
    match replay.best_plan(alloc) {
        Ok(plan) => plan.is_some(),
        Err(_) => false,
    }
}

// Whether the replay tells what a line begins with of what stands behind that: it is taken, or refused for a reason.
// Nothing stands there where the journal is short, since the next line is missing, or whole.
fn tells(alloc: Global, replay: &mut Replay<'_>, line: &str) -> bool {
    let (told, text) = word(line);
    match told {
        "taken" => replay.step(text.as_bytes()).is_ok(),
        "whole" => replay.finish().is_ok(),
        "best" => is_best(alloc, replay, text),
        _ => {
            let answer = if told == "short" {
                replay.finish()
            } else {
                replay.step(text.as_bytes())
            };
            match answer {
                Ok(()) => false,
                Err(refusal) => refusal.reason == reason(told),
            }
        }
    }
}

// Whether a new replay tells all lines so.
fn tells_all(alloc: Global, inst: &Instance, start: &Plan, options: &Options, lines: &str) -> bool
    requires start { IsPlanOf inst.now.draft start.now }
    requires lawful { IsLawful options.now }
{
    let Ok(mut replay) = Replay::new(alloc, inst, start, options, 0) else {
        return false;
    };
    let replay: &mut Replay<'_> = &mut replay;
    share(replay);
    for line in lines.split('\n') {
        if !tells(alloc, replay, line) {
            return false;
        }
    }
    true
}

// A search in which worker 1 looked before worker 0's second entry, and tried its move again. Wrong lines stand between
// its five, each with its first reason. Worker 1 hasn't seen its own last entry at first. Later, worker 0 is done, and
// a try says that the move wasn't tried before, or hasn't seen that try.
const RIGHT_AND_WRONG: &str = "ihjournal 2 seed=7 workers=2 moves=2 heat=1000000 hard=1000 retries=1
best 0 159
short
grammar 0 0 0 0 0 nurse:0,2,0 accepted
place 1 0 0 0 0 nurse:0,2,0 0,0,0,0,0,0,0,0,0,0,0,0,0,0,0,0,0 accepted
worker 0 2 0 0 0 nurse:0,2,0 0,0,0,0,0,0,0,0,0,0,0,0,0,0,0,0,0 accepted
number 0 0 1 0 0 nurse:0,2,0 0,0,0,0,0,0,0,0,0,0,0,0,0,0,0,0,0 accepted
try 0 0 0 1 0 nurse:0,2,0 0,0,0,0,0,0,0,0,0,0,0,0,0,0,0,0,0 accepted
seen 0 0 0 0 1 nurse:0,2,0 0,0,0,0,0,0,0,0,0,0,0,0,0,0,0,0,0 accepted
move 0 0 0 0 0 nurse:0,2,1 0,0,0,0,0,0,0,0,0,0,0,0,0,0,0,0,0 accepted
taken 0 0 0 0 0 nurse:0,2,0 0,0,0,0,0,0,0,0,0,0,0,0,0,0,0,0,0 accepted
seen 1 0 1 0 0 place:0,1,1,1 0,1,0,0,0,0,0,0,3,-1,0,-1,0,0,0,1,0 accepted
price 1 0 1 0 1 place:0,1,1,1 0,1,0,0,0,0,0,0,4,-1,0,-1,0,0,0,1,0 accepted
taken 1 0 1 0 1 place:0,1,1,1 0,1,0,0,0,0,0,0,3,-1,0,-1,0,0,0,1,0 accepted
worker 2 0 2 0 2 nurse:0,2,0 0,0,0,0,0,0,0,0,0,0,0,0,0,0,0,0,0 accepted
verdict 2 1 0 0 0 swapnurses:5,1,0 0,0,0,0,0,0,0,0,1,0,0,0,0,0,0,0,0 accepted
verdict 2 1 0 0 0 swapnurses:5,1,0 0,0,0,0,0,0,0,0,1,0,0,0,0,0,0,0,0 stale:roomshift.0.5:0:2
taken 2 1 0 0 0 swapnurses:5,1,0 0,0,0,0,0,0,0,0,1,0,0,0,0,0,0,0,0 stale:roomshift.0.5:0:1
try 3 1 0 0 3 swapnurses:5,1,0 0,0,0,0,0,0,0,0,-1,0,0,1,0,0,0,0,0 accepted
seen 3 1 0 1 2 swapnurses:5,1,0 0,0,0,0,0,0,0,0,-1,0,0,1,0,0,0,0,0 accepted
taken 3 1 0 1 3 swapnurses:5,1,0 0,0,0,0,0,0,0,0,-1,0,0,1,0,0,0,0,0 accepted
short
number 4 1 0 0 4 swapnurses:5,1,1 0,0,0,0,0,0,0,0,0,0,0,0,0,0,0,0,0 accepted
taken 4 1 1 0 4 swapnurses:5,1,1 0,0,0,0,0,0,0,0,0,0,0,0,0,0,0,0,0 accepted
extra 5 0 2 0 5 idle 0,0,0,0,0,0,0,0,0,0,0,0,0,0,0,0,0 accepted
whole
best 0 159";

// A search by one worker without heat, whose first move makes the timetable cheaper: the best is made anew.
const CHEAPER: &str = "ihjournal 1 seed=0 workers=1 moves=2 heat=0 hard=1000
taken 0 0 0 0 nurserun:1,0,0,5 0,0,0,0,0,0,0,0,0,0,-2,0,0,0,0,0,0 accepted
taken 1 0 1 1 nurse:1,5,0 0,0,0,0,0,0,0,0,0,0,0,0,0,0,0,0,0 accepted
best 1 139";

// The first lines of a search without retries, in which worker 1 saw nothing at first: a line that had seen less is
// taken after a refused one.
const SEEN_LESS: &str = "ihjournal 1 seed=4 workers=2 moves=2 heat=1000000 hard=1000
taken 0 0 0 0 place:0,0,0,0 0,0,0,0,0,0,0,0,0,0,0,0,0,0,0,0,0 accepted
taken 1 0 1 1 setday:1,0 0,0,0,0,0,0,0,0,0,0,0,0,0,0,0,0,0 accepted
price 2 1 0 2 nurse:0,5,0 0,0,0,0,0,0,0,0,0,0,0,0,0,0,0,0,1 accepted
taken 2 1 0 0 nurse:0,5,0 0,0,0,0,0,0,0,0,0,0,0,0,0,0,0,0,0 stale:roomshift.0.5:0:1
best 0 159";

// Whether a search's journal is told so.
fn comes_out_so(alloc: Global, inst: &Instance, start: &Plan, text: &str) -> bool
    requires { IsPlanOf inst.now.draft start.now }
{
    let (heading, lines) = text.split_once("\n").unwrap_or((text, ""));
    match parse_head(heading.as_bytes()) {
        Some(options) => tells_all(alloc, inst, start, &options, lines),
        None => false,
    }
}

fn hold(alloc: Global, inst: &Instance, start: &Plan) -> bool
    requires { IsPlanOf inst.now.draft start.now }
{
    comes_out_so(alloc, inst, start, RIGHT_AND_WRONG)
        && comes_out_so(alloc, inst, start, CHEAPER)
        && comes_out_so(alloc, inst, start, SEEN_LESS)
}

#[test]
fn journals_are_taken_line_by_line(rt: HostRuntime) {
    let alloc = rt.alloc();
    assert!(rt; on_first_admitted(alloc, |inst, start| hold(alloc, inst, start)));
}
