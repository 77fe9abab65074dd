//! The command `improve`: its description for `clap`, its values and when they are lawful.

ghost use Rattle.std.specs.Prelude.{◌&&◌, ◌*◌, ◌++◌, ◌||◌, ◌∷◌, ◌≡◌, codes, is_some, map, nat_le, not, option_map};
ghost use Rattle.std.specs.Prelude.{option_to_list, true, unwrap_or};
ghost use Rattle.ih_commands.specs.Below.Arguments.{IsNumberIfGiven, all_differ, found_of, freezes_a_file};
ghost use Rattle.ih_commands.specs.Below.Arguments.{number_if_given, rows_of, start_call, texts_at};
ghost use Rattle.ih_commands.specs.Below.Searches.{MAX_KEEP};
ghost use Rattle.ih_commands.specs.Calls.Improve.{AreOptionsWithin, HasImprove};
ghost use Rattle.ih_optimizer.specs.Call.{ImproveCall, IsLawfulCall};
ghost use Rattle.ih_commands.specs.Calls.Improve.{are_names_apart, are_options_apart, are_settings_lawful};
ghost use Rattle.ih_commands.specs.Calls.Improve.{default_rounds, filled_start_in, improve_app};
ghost use Rattle.ih_optimizer.specs.Call.{improve_call};
ghost use Rattle.ih_commands.specs.Calls.Improve.{improve_in, keep_in, keeps_a_file, lawful_improve, length_of};
ghost use Rattle.ih_optimizer.specs.Pacing.{attempts_of};

use crate::command::calls::Worded;
use crate::command::common::{INSTANCE, arguments};
use clap::ArgMatches;
use ih_arguments::arguments::{Argument, Description, Kind};
use ih_arguments::explaining::{NoCall, refused};
use ih_arguments::file_names::all_differ;
use ih_arguments::matches::{
    any_number_if_given, flag_of, is_given, number_if_given, optional_text_of, text_of, texts_of,
};
use ih_arguments::start::{FILL, FREEZE, START, Start, freezes_a_file, start_in, takes_a_file};
use ih_improve::{Given, MAX_KEEP};
use ih_optimizer::{Improve, Length, MAX_CALL_ATTEMPTS, MAX_CALL_ROUNDS, MAX_SECONDS, Pace};
use ih_plan::{MAX_FREEZE, MAX_HARD, MAX_HEAT, MAX_WORKERS};
use std::alloc::Global;

/// How many rounds of attempts there are where no number is given.
pub const DEFAULT_ROUNDS: u32 = 20;
/// About how many rounds there are by the clock where no number is given.
pub const DEFAULT_TIMED_ROUNDS: u32 = 40;
/// How many seconds a search takes where neither attempts nor seconds are given.
pub const DEFAULT_SECONDS: u32 = 60;
/// Where the random words begin where no number is given.
pub const DEFAULT_SEED: u64 = 1;

/// `improve INSTANCE OUT`, and the options, all of which may be left out.
pub const IMPROVE: Description<'static, 'static> = Description {
    name: "improve",
    about: "Searches for a better plan, and writes the best so far after each round that improved it",
    called: "ih_planner improve",
    arguments: &arguments![
        INSTANCE;
        "OUT" => Kind::Named, "The file that the best plan is written to";
        "seconds" => Kind::OptionalNumber(1, MAX_SECONDS),
            "How long the search takes; not with '--attempts' [default: 60]";
        "attempts" => Kind::OptionalAnyNumber, "How many attempts each worker makes, in place of a time";
        "seed" => Kind::OptionalAnyNumber, "Where the random numbers begin [default: 1]";
        "workers" => Kind::OptionalNumber(1, MAX_WORKERS),
            "How many search side by side [default: as many as processors]";
        "rounds" => Kind::OptionalNumber(1, MAX_CALL_ROUNDS),
            "How often the best plan goes out to all workers [default: 20, by the clock about 40]";
        "hot" => Kind::OptionalNumber(0, MAX_HEAT), "The temperature at the first attempt [default: by the weights]";
        "cold" => Kind::OptionalNumber(0, MAX_HEAT), "The temperature at the last attempt [default: by the weights]";
        "hard" => Kind::OptionalNumber(0, MAX_HARD), "The weight of a broken hard rule [default: by the weights]";
        START; FREEZE; FILL;
        "empty" => Kind::Flag, "Starts from nobody, and doesn't fill that; not with '--start' or '--fill'";
        "draft" => Kind::Optional, "The file that the plan with the least score goes to, where none keeps to all rules";
        "replace" => Kind::Flag, "Writes OUT whatever is there; else a cheaper plan stays";
        "keep" => Kind::OptionalNumber(0, MAX_KEEP),
            "What each change against the start weighs; it needs '--start' [default: by the weights]";
        "pin" => Kind::Repeated, "The id of a patient who stays as in the start; it needs '--start'";
        "pin-nurses" => Kind::Flag, "Leaves the nurses of all rooms that the start occupies; it needs '--start'";
        "bound" => Kind::Flag,
            "Says first what no plan costs less than, and in each line how far the best may be above the best possible";
    ],
};

// How long the search goes on: where no attempts are given, by the clock.
fn length_of(attempts: Option<u64>, seconds: Option<u32>) -> Length
    ensures { result ≡ length_of attempts seconds }
{
    match attempts {
        Some(attempts) => Length::Attempts(attempts),
        None => Length::Seconds(seconds.unwrap_or(DEFAULT_SECONDS)),
    }
}

// How many rounds there are where no number is given.
fn default_rounds(length: Length) -> u32
    ensures { result ≡ default_rounds length }
{
    match length {
        Length::Attempts(_) => DEFAULT_ROUNDS,
        Length::Seconds(_) => DEFAULT_TIMED_ROUNDS,
    }
}

// What the search starts from. Where no file is named for it, it is filled, unless the words say that it isn't.
fn filled_start_in<'a>(matches: &ArgMatches<'a>) -> Start<'a>
    requires { IsNumberIfGiven 0 MAX_FREEZE (codes "freeze") (rows_of (found_of matches.now)) }
    ensures { start_call result ≡ filled_start_in (rows_of (found_of matches.now)) }
{
    let start = start_in(matches);
    Start {
        file: start.file,
        fill: start.fill || !(is_given(matches, "start") || flag_of(matches, "empty")),
        freeze: start.freeze,
    }
}

// What a change weighs: where no number is given it is by the weights, if the timetable of a file is taken as it is, and
// else nothing.
fn keep_in(matches: &ArgMatches) -> Option<u32>
    requires { IsNumberIfGiven 0 MAX_KEEP (codes "keep") (rows_of (found_of matches.now)) }
    ensures { result ≡ keep_in (rows_of (found_of matches.now)) }
{
    if takes_a_file(matches) {
        number_if_given(matches, "keep")
    } else {
        Some(0)
    }
}

// The values of `improve`, with the ids that are pinned.
fn improve_in<'a>(matches: &ArgMatches<'a>, pins: Vec<&'a str>) -> Improve<'a>
    requires rows { HasImprove (rows_of (found_of matches.now)) }
    requires pins { map (λ t. t.now) pins.items ≡ texts_at (codes "pin") (rows_of (found_of matches.now)) }
    ensures { improve_call result ≡ improve_in (rows_of (found_of matches.now)) }
{
    let length = length_of(
        any_number_if_given(matches, "attempts"),
        number_if_given(matches, "seconds"),
    );
    let start = filled_start_in(matches);
    Improve {
        instance: text_of(matches, "INSTANCE"),
        out: text_of(matches, "OUT"),
        keeps: !flag_of(matches, "replace"),
        pace: Pace {
            length,
            rounds: number_if_given(matches, "rounds").unwrap_or(default_rounds(length)),
        },
        settings: Given {
            seed: any_number_if_given(matches, "seed").unwrap_or(DEFAULT_SEED),
            workers: number_if_given(matches, "workers"),
            hot: number_if_given(matches, "hot"),
            cold: number_if_given(matches, "cold"),
            hard: number_if_given(matches, "hard"),
            freeze: start.freeze,
            keep: keep_in(matches),
        },
        start,
        draft: optional_text_of(matches, "draft"),
        pins,
        pin_nurses: flag_of(matches, "pin-nurses"),
        is_bounded: flag_of(matches, "bound"),
    }
}

// The names of the instance, of another file and of the draft, where they are given, differ.
fn differ<'a>(instance: &'a str, other: Option<&'a str>, draft: Option<&'a str>) -> bool
    ensures { result ≡ all_differ (instance.entry.now ∷ (option_to_list (option_map (λ t. t.now) other.entry)
        ++ option_to_list (option_map (λ t. t.now) draft.entry))) }
{
    match (other, draft) {
        (Some(other), Some(draft)) => {
            let names = [instance, other, draft];
            all_differ(names.as_slice())
        }
        (Some(one), None) | (None, Some(one)) => {
            let names = [instance, one];
            all_differ(names.as_slice())
        }
        (None, None) => {
            let names = [instance];
            all_differ(names.as_slice())
        }
    }
}

// The names of the files differ, but for a start that is the file of the solution.
fn names_differ(improve: &Improve) -> bool
    ensures { result ≡ are_names_apart (improve_call improve.now) }
{
    differ(improve.instance, Some(improve.out), improve.draft)
        && differ(improve.instance, improve.start.file, improve.draft)
}

// The attempts of each worker, where they are given.
fn attempts_of(length: Length) -> u64
    ensures { result ≡ attempts_of length }
{
    match length {
        Length::Attempts(attempts) => attempts,
        Length::Seconds(_) => 0,
    }
}

// All workers together make so few attempts.
fn are_few(workers: u32, attempts: u64) -> bool
    ensures { result ≡ (nat_le attempts MAX_CALL_ATTEMPTS && nat_le (workers * attempts) MAX_CALL_ATTEMPTS) }
{
    attempts <= MAX_CALL_ATTEMPTS
        && u128::from(workers) * u128::from(attempts) <= u128::from(MAX_CALL_ATTEMPTS)
}

// The temperature doesn't rise.
fn is_falling(settings: &Given) -> bool
    ensures { result ≡ nat_le (unwrap_or settings.now.cold 0) (unwrap_or settings.now.hot MAX_HEAT) }
{
    settings.cold.unwrap_or(0) <= settings.hot.unwrap_or(MAX_HEAT)
}

// The attempts of all workers are so few, and the temperature doesn't rise.
fn are_settings_lawful(improve: &Improve) -> bool
    requires { AreOptionsWithin (improve_call improve.now) }
    ensures value { result ≡ are_settings_lawful (improve_call improve.now) }
    ensures lawful { result ≡ true → IsLawfulCall (improve_call improve.now) }
{
    let attempts = attempts_of(improve.pace.length);
    let workers = improve.settings.workers.unwrap_or(1);
    are_few(workers, attempts) && is_falling(&improve.settings)
}

// Changes weigh something, and choices are pinned, only where the timetable of a file is taken as it is.
fn keeps_a_file(matches: &ArgMatches) -> bool
    ensures { result ≡ keeps_a_file (rows_of (found_of matches.now)) }
{
    !(is_given(matches, "keep") || (is_given(matches, "pin") || flag_of(matches, "pin-nurses")))
        || takes_a_file(matches)
}

// No option is given with another that it can't be used with.
fn are_options_apart(matches: &ArgMatches) -> bool
    ensures { result ≡ are_options_apart (rows_of (found_of matches.now)) }
{
    keeps_a_file(matches)
        && (!(is_given(matches, "attempts") && is_given(matches, "seconds"))
            && !(flag_of(matches, "empty")
                && (flag_of(matches, "fill") || is_given(matches, "start"))))
}

// What is unlawful of the values, where something is.
fn fault_in(matches: &ArgMatches, improve: &Improve) -> Option<&'static str>
    requires { AreOptionsWithin (improve_call improve.now) }
    ensures value { not (is_some result) ≡ (freezes_a_file (rows_of (found_of matches.now))
        && (are_options_apart (rows_of (found_of matches.now))
        && (are_names_apart (improve_call improve.now) && are_settings_lawful (improve_call improve.now)))) }
    ensures lawful { not (is_some result) ≡ true → IsLawfulCall (improve_call improve.now) }
{
    if !freezes_a_file(matches) {
        Some("'--freeze' needs '--start', and '--fill' can't be used with it")
    } else if !keeps_a_file(matches) {
        Some("'--keep' and '--pin' need '--start', and '--fill' can't be used with them")
    } else if !are_options_apart(matches) {
        Some(
            "'--seconds' can't be used with '--attempts', nor '--empty' with '--start' or '--fill'",
        )
    } else if !names_differ(improve) {
        Some("two files of the call have one name")
    } else if !are_settings_lawful(improve) {
        Some("'--cold' is above '--hot', or all workers together make more than 10^12 '--attempts'")
    } else {
        None
    }
}

impl<'a> Worded<'a> for Improve<'a> {
    ghost Call = { ImproveCall };

    ghost wording = { record { app = improve_app; call = improve_call; lawful = lawful_improve } };

    ghost holds = { λ i. IsLawfulCall (improve_call i) };

    fn of_matches(alloc: Global, matches: &ArgMatches<'a>) -> Result<Improve<'a>, NoCall> {
        let improve = improve_in(matches, texts_of(alloc, matches, "pin")?);
        match fault_in(matches, &improve) {
            None => Ok(improve),
            Some(fault) => Err(refused(alloc, fault)),
        }
    }
}
