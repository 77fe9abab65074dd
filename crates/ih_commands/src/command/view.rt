//! The command `view`: its description for `clap`, its values and what it comes to.

ghost use Rattle.std.specs.Prelude.{◌≡◌};
ghost use Rattle.ih_commands.specs.Below.Arguments.{all_differ, found_of, rows_of};
ghost use Rattle.ih_page.specs.Page.{heading_texts};
ghost use Rattle.ih_commands.specs.Calls.View.{IsViewed, ViewCall, heading_of, lawful_view, view_app, view_call};
ghost use Rattle.ih_commands.specs.Calls.View.{view_files, view_in, view_inputs};

use crate::command::calls::Worded;
use crate::command::common::{INSTANCE, SOLUTION, arguments, equal_names};
use crate::command::days::{FROM, first_day, no_day, refused_day};
use clap::ArgMatches;
use ih_arguments::arguments::{Argument, Description, Kind};
use ih_arguments::explaining::NoCall;
use ih_arguments::file_names::names_differ;
use ih_arguments::matches::{optional_text_of, text_of};
use ih_endings::Role;
use ih_frame::{Made, Outcome, two_names};
use ih_inputs::{InputNames, Inputs};
use ih_page::{Heading, page};
use jiff::civil::Date;
use std::alloc::Global;
use std::sync::Wait;
use std::thread::Threads;

/// `view INSTANCE SOLUTION PAGE [--from DATE] [--since OLDER] [--title TEXT]`.
#[derive(Clone, Copy, Debug)]
pub struct View<'a> {
    /// The name of the instance's file.
    pub instance: &'a str,
    /// The name of the solution's file.
    pub solution: &'a str,
    /// The name of the file that the page goes to.
    pub page: &'a str,
    /// The date of the first day.
    pub from: Option<Date>,
    /// The name of the older solution's file.
    pub since: Option<&'a str>,
    /// What stands over the page.
    pub title: Option<&'a str>,
}

/// `view INSTANCE SOLUTION PAGE [--from DATE] [--since OLDER] [--title TEXT]`.
pub const VIEW: Description<'static, 'static> = Description {
    name: "view",
    about: "Writes a solution's timetable as a page",
    called: "ih_planner view",
    arguments: &arguments![
        INSTANCE; SOLUTION;
        "PAGE" => Kind::Named, "The file that the page is written to";
        FROM;
        "since" => Kind::Optional, "The file of an older solution: the page says what changed";
        "title" => Kind::Optional, "What stands over the page, in place of the instance's name";
    ],
};

// The values of `view`.
fn view_in<'a>(matches: &ArgMatches<'a>) -> View<'a>
    ensures { view_call result ≡ view_in (rows_of (found_of matches.now)) }
{
    View {
        instance: text_of(matches, "INSTANCE"),
        solution: text_of(matches, "SOLUTION"),
        page: text_of(matches, "PAGE"),
        from: first_day(matches),
        since: optional_text_of(matches, "since"),
        title: optional_text_of(matches, "title"),
    }
}

// The names of the files differ.
fn files_differ(view: &View) -> bool
    ensures { result ≡ all_differ (view_files (view_call view.now)) }
{
    names_differ(view.instance, view.solution, view.page, view.since)
}

// What stands over the page: the instance's name, where there is no title.
fn heading_of<'a>(view: &View<'a>) -> Heading<'a>
    ensures { heading_texts result ≡ heading_of (view_call view.now) }
{
    let title = match view.title {
        Some(title) => title,
        None => view.instance,
    };
    Heading {
        title,
        instance: view.instance,
        solution: view.solution,
        older: view.since,
    }
}

impl<'a> Worded<'a> for View<'a> {
    ghost Call = { ViewCall };

    ghost wording = { record { app = view_app; call = view_call; lawful = lawful_view } };

    fn of_matches(alloc: Global, matches: &ArgMatches<'a>) -> Result<View<'a>, NoCall> {
        let view = view_in(matches);
        if let Some(word) = no_day(matches, &view.from) {
            Err(refused_day(alloc, word))
        } else if files_differ(&view) {
            Ok(view)
        } else {
            Err(equal_names(alloc))
        }
    }
}

impl<'v> ih_frame::Command for View<'v> {
    ghost files = { λ v. view_inputs (view_call v) };

    ghost comes_to = { λ v. IsViewed (view_call v) };

    fn names(&self) -> InputNames<'_> {
        InputNames {
            older: self.since,
            ..two_names(self.instance, Some(self.solution), true)
        }
    }

    fn outcome<R: Threads + Wait + Sync>(&self, _: &R, alloc: Global, inputs: Inputs) -> Made<'_> {
        let older = inputs.older.as_ref();
        let heading = heading_of(self);
        let bytes = page(
            alloc,
            &heading,
            &*inputs.inst,
            &inputs.plan,
            self.from,
            older,
        )?;
        Outcome::written(alloc, Role::Out, self.page, bytes, Vec::new(alloc))
    }
}
