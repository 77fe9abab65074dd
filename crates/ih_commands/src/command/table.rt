//! The command `table`: its description for `clap`, its values and what it comes to.

ghost use Rattle.std.specs.Prelude.{◌≡◌, IfSome, is_some, not};
ghost use Rattle.ih_commands.specs.Below.Arguments.{IsNoHelp, all_differ, found_of, rows_of};
ghost use Rattle.ih_commands.specs.Calls.Table.{IsTabled, TableCall, has_dates, has_table_words, lawful_table};
ghost use Rattle.ih_commands.specs.Calls.Table.{needs_dates, subject_at, subject_in, table_app, table_call, table_files};
ghost use Rattle.ih_commands.specs.Calls.Table.{table_in, table_inputs};

use crate::command::calls::Worded;
use crate::command::common::{INSTANCE, SOLUTION, arguments, equal_names};
use crate::command::days::{FROM, first_day, no_day, refused_day};
use clap::ArgMatches;
use ih_arguments::arguments::{Argument, Description, Kind};
use ih_arguments::explaining::{NoCall, refused};
use ih_arguments::file_names::names_differ;
use ih_arguments::matches::{optional_text_of, text_of};
use ih_endings::Role;
use ih_frame::{Made, Outcome, two_names};
use ih_inputs::{InputNames, Inputs};
use ih_sheet::{Subject, table};
use jiff::civil::Date;
use std::alloc::Global;
use std::sync::Wait;
use std::thread::Threads;

/// `table INSTANCE SOLUTION OUT [--from DATE] [--of SUBJECT]`.
#[derive(Clone, Copy, Debug)]
pub struct Table<'a> {
    /// The name of the instance's file.
    pub instance: &'a str,
    /// The name of the solution's file.
    pub solution: &'a str,
    /// The name of the file that the table goes to.
    pub out: &'a str,
    /// The date of the first day.
    pub from: Option<Date>,
    /// What the table is about.
    pub of: Subject,
}

/// `table INSTANCE SOLUTION OUT [--from DATE] [--of SUBJECT]`.
pub const TABLE: Description<'static, 'static> = Description {
    name: "table",
    about: "Writes a solution's timetable as a table for a spreadsheet, or as a calendar",
    called: "ih_planner table",
    arguments: &arguments![
        INSTANCE; SOLUTION;
        "OUT" => Kind::Named, "The file that the table is written to";
        FROM;
        "of" => Kind::Optional,
            "What the rows are about: patients, nurses, rooms or theatres; or calendar, for an event a surgery [default: patients]";
    ],
};

// The subject that a word names.
fn subject_in(word: &str) -> Option<Subject>
    ensures { result ≡ subject_in word.now }
{
    match word {
        "patients" => Some(Subject::Patients),
        "nurses" => Some(Subject::Nurses),
        "rooms" => Some(Subject::Rooms),
        "theatres" => Some(Subject::Theatres),
        "calendar" => Some(Subject::Calendar),
        _ => None,
    }
}

// The subject that the word of `--of` names: patients, where there is no word.
fn subject_of(matches: &ArgMatches) -> Option<Subject>
    ensures { result ≡ subject_at (rows_of (found_of matches.now)) }
{
    match optional_text_of(matches, "of") {
        None => Some(Subject::Patients),
        Some(word) => subject_in(word),
    }
}

// The values of `table`.
fn table_in<'a>(matches: &ArgMatches<'a>) -> Table<'a>
    ensures { table_call result ≡ table_in (rows_of (found_of matches.now)) }
{
    Table {
        instance: text_of(matches, "INSTANCE"),
        solution: text_of(matches, "SOLUTION"),
        out: text_of(matches, "OUT"),
        from: first_day(matches),
        of: subject_of(matches).unwrap_or(Subject::Patients),
    }
}

// The names of the files differ.
fn files_differ(table: &Table) -> bool
    ensures { result ≡ all_differ (table_files (table_call table.now)) }
{
    names_differ(table.instance, table.solution, table.out, None)
}

// Whether all that is there of the subject has a date.
fn needs_dates(of: Subject) -> bool
    ensures { result ≡ needs_dates of }
{
    match of {
        Subject::Patients | Subject::Nurses | Subject::Rooms | Subject::Theatres => false,
        Subject::Calendar => true,
    }
}

// Whether the first day has its date, where there would be nothing without.
fn has_dates(table: &Table) -> bool
    ensures { result ≡ has_dates (table_call table.now) }
{
    table.from.is_some() || !needs_dates(table.of)
}

// What is said of a word that names no subject.
fn refused_subject(alloc: Global, word: &str) -> NoCall
    ensures { IsNoHelp result }
{
    match format!(in alloc;
        "'{word}' for '--of' is none of patients, nurses, rooms, theatres and calendar"
    ) {
        Ok(fault) => refused(alloc, fault.as_str()),
        Err(_) => NoCall::OutOfMemory,
    }
}

// What is said of words that name no day or no subject, or give a calendar no day, where they don't.
fn refused_words(alloc: Global, matches: &ArgMatches, table: &Table) -> Option<NoCall>
    requires { table_call table.now ≡ table_in (rows_of (found_of matches.now)) }
    ensures none { not (is_some result) ≡ has_table_words (rows_of (found_of matches.now)) }
    ensures said { IfSome result IsNoHelp }
{
    if let Some(word) = no_day(matches, &table.from) {
        return Some(refused_day(alloc, word));
    }
    if subject_of(matches).is_none() {
        return Some(refused_subject(alloc, text_of(matches, "of")));
    }
    if has_dates(table) {
        None
    } else {
        Some(refused(alloc, "'--of calendar' needs '--from'"))
    }
}

impl<'a> Worded<'a> for Table<'a> {
    ghost Call = { TableCall };

    ghost wording = { record { app = table_app; call = table_call; lawful = lawful_table } };

    fn of_matches(alloc: Global, matches: &ArgMatches<'a>) -> Result<Table<'a>, NoCall> {
        let table = table_in(matches);
        if let Some(fault) = refused_words(alloc, matches, &table) {
            Err(fault)
        } else if files_differ(&table) {
            Ok(table)
        } else {
            Err(equal_names(alloc))
        }
    }
}

impl<'t> ih_frame::Command for Table<'t> {
    ghost files = { λ t. table_inputs (table_call t) };

    ghost comes_to = { λ t. IsTabled (table_call t) };

    fn names(&self) -> InputNames<'_> {
        two_names(self.instance, Some(self.solution), true)
    }

    fn outcome<R: Threads + Wait + Sync>(&self, _: &R, alloc: Global, inputs: Inputs) -> Made<'_> {
        let bytes = table(alloc, self.of, &*inputs.inst, &inputs.plan, self.from)?;
        Outcome::written(alloc, Role::Out, self.out, bytes, Vec::new(alloc))
    }
}
