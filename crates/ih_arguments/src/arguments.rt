//! The rules of the commands' arguments, for `clap`: a command is described by a table of its arguments.
ghost use Rattle.std.specs.Prelude.{◌≡◌, IfOk, IsTrue, false, map};
ghost use Rattle.std.specs.List.{list_all};
ghost use Rattle.clap.specs.Words.{app_of, rule_of};
ghost use Rattle.ih_arguments.specs.Arguments.{any_number_option, app_by, flag, is_plain_by, named, named_number};
ghost use Rattle.ih_arguments.specs.Arguments.{numbered_option, optional, optional_any, optional_between};
ghost use Rattle.ih_arguments.specs.Arguments.{optional_name, repeated, rule_by, with_commands};
ghost use Rattle.ih_arguments.specs.Arguments.{with_rules};

use clap::{Arg, ArgAction, Command, value_parser};
use std::alloc::{AllocError, Global};

/// How an argument is given.
#[derive(Clone, Copy)]
pub enum Kind {
    /// A required value, by its place.
    Named,
    /// A value by its place, which may be left out.
    OptionalNamed,
    /// A required number of 64 bits, by its place.
    NamedNumber,
    /// A required `--id N`, where N is a number from the first to the second.
    Number(u32, u32),
    /// A required `--id N`, where N is any number of 64 bits.
    AnyNumber,
    /// `--id VALUE`, which may be left out.
    Optional,
    /// `--id VALUE`, any number of times.
    Repeated,
    /// `--id N`, which may be left out, where N is a number from the first to the second.
    OptionalNumber(u32, u32),
    /// `--id N`, which may be left out, where N is any number of 64 bits.
    OptionalAnyNumber,
    /// The flag `--id`.
    Flag,
}

/// An argument of a command.
#[derive(Clone, Copy)]
pub struct Argument<'a> {
    pub id: &'a str,
    pub kind: Kind,
    /// What the help says of it.
    pub help: &'a str,
}

/// An argument, with or without what the help says of it.
#[macro_export]
macro_rules! argument {
    ($id:expr, $kind:expr) => {
        argument!($id, $kind, "")
    };
    ($id:expr, $kind:expr, $help:expr) => {
        Argument { id: $id, kind: $kind, help: $help }
    };
}

/// A command with these arguments, with or without what the help says of it and the words that call it.
#[macro_export]
macro_rules! described {
    ($name:expr, [$($argument:expr),* $(,)?]) => {
        described!($name, "", "", [$($argument),*])
    };
    ($name:expr, $about:expr, $called:expr, [$($argument:expr),* $(,)?]) => {
        Description { name: $name, about: $about, called: $called, arguments: &[$($argument),*] }
    };
}

/// A command, as `clap` reads its words and explains them.
#[derive(Clone, Copy)]
pub struct Description<'d, 'a> {
    pub name: &'a str,
    /// What the help says of it.
    pub about: &'a str,
    /// The words that call it.
    pub called: &'a str,
    /// Its arguments, in order.
    pub arguments: &'d [Argument<'a>],
}

// A required argument with one value, by its place.
fn named<'a>(alloc: Global, id: &'a str) -> Arg<'a>
    ensures rule { rule_of result ≡ named id.entry.now }
    ensures local { result.global ≡ false }
{
    Arg::new(alloc, id).required(true).action(ArgAction::Set)
}

// A value by its place, which may be left out.
fn optional_name<'a>(alloc: Global, id: &'a str) -> Arg<'a>
    ensures rule { rule_of result ≡ optional_name id.entry.now }
    ensures local { result.global ≡ false }
{
    Arg::new(alloc, id).action(ArgAction::Set)
}

// A required number of 64 bits, by its place.
fn named_number<'a>(alloc: Global, id: &'a str) -> Arg<'a>
    ensures rule { rule_of result ≡ named_number id.entry.now }
    ensures local { result.global ≡ false }
{
    named(alloc, id).value_parser(value_parser!(u64))
}

// A required `--id N`, where N is a number from `low` to `high`.
fn numbered_option<'a>(alloc: Global, id: &'a str, low: u32, high: u32) -> Arg<'a>
    ensures rule { rule_of result ≡ numbered_option id.entry.now low high }
    ensures local { result.global ≡ false }
{
    named(alloc, id)
        .long(id)
        .value_parser(value_parser!(u64).range(i64::from(low)..=i64::from(high)))
}

// A required `--id N`, where N is any number of 64 bits.
fn any_number_option<'a>(alloc: Global, id: &'a str) -> Arg<'a>
    ensures rule { rule_of result ≡ any_number_option id.entry.now }
    ensures local { result.global ≡ false }
{
    named(alloc, id).long(id).value_parser(value_parser!(u64))
}

// `--id VALUE`, which may be left out.
fn optional<'a>(alloc: Global, id: &'a str) -> Arg<'a>
    ensures rule { rule_of result ≡ optional id.entry.now }
    ensures local { result.global ≡ false }
{
    Arg::new(alloc, id).long(id).action(ArgAction::Set)
}

// `--id VALUE`, any number of times.
fn repeated<'a>(alloc: Global, id: &'a str) -> Arg<'a>
    ensures rule { rule_of result ≡ repeated id.entry.now }
    ensures local { result.global ≡ false }
{
    Arg::new(alloc, id).long(id).action(ArgAction::Append)
}

// `--id N`, which may be left out, where N is a number from `low` to `high`.
fn optional_between<'a>(alloc: Global, id: &'a str, low: u32, high: u32) -> Arg<'a>
    ensures rule { rule_of result ≡ optional_between id.entry.now low high }
    ensures local { result.global ≡ false }
{
    optional(alloc, id).value_parser(value_parser!(u64).range(i64::from(low)..=i64::from(high)))
}

// `--id N`, which may be left out, where N is any number of 64 bits.
fn optional_any<'a>(alloc: Global, id: &'a str) -> Arg<'a>
    ensures rule { rule_of result ≡ optional_any id.entry.now }
    ensures local { result.global ≡ false }
{
    optional(alloc, id).value_parser(value_parser!(u64))
}

// The flag `--id`.
fn flag<'a>(alloc: Global, id: &'a str) -> Arg<'a>
    ensures rule { rule_of result ≡ flag id.entry.now }
    ensures local { result.global ≡ false }
{
    Arg::new(alloc, id).long(id).action(ArgAction::SetTrue)
}

// What `clap` knows of an argument.
fn made<'a>(alloc: Global, argument: &Argument<'a>) -> Arg<'a>
    ensures rule { rule_of result ≡ rule_by argument.entry.now }
    ensures local { result.global ≡ false }
{
    let id = argument.id;
    let arg = match argument.kind {
        Kind::Named => named(alloc, id),
        Kind::OptionalNamed => optional_name(alloc, id),
        Kind::NamedNumber => named_number(alloc, id),
        Kind::Number(low, high) => numbered_option(alloc, id, low, high),
        Kind::AnyNumber => any_number_option(alloc, id),
        Kind::Optional => optional(alloc, id),
        Kind::Repeated => repeated(alloc, id),
        Kind::OptionalNumber(low, high) => optional_between(alloc, id, low, high),
        Kind::OptionalAnyNumber => optional_any(alloc, id),
        Kind::Flag => flag(alloc, id),
    };
    arg.help(argument.help)
}

// The command with these arguments behind its own.
fn with_arguments<'a>(
    alloc: Global,
    command: Command<'a>,
    arguments: &[Argument<'a>],
) -> Result<Command<'a>, AllocError>
    ensures { IfOk result
        (λ c. app_of c ≡ with_rules (app_of command.entry) (map rule_by arguments.entry.now)) }
{
    match arguments.split_first() {
        None => Ok(command),
        Some((first, others)) => {
            let command = command.arg(made(alloc, first))?;
            with_arguments(alloc, command, others)
        }
    }
}

/// What `clap` knows of a command.
pub fn command<'a>(
    alloc: Global,
    description: &Description<'_, 'a>,
) -> Result<Command<'a>, AllocError>
    ensures { IfOk result (λ c. app_of c ≡ app_by description.entry.now) }
{
    let command = Command::new(alloc, description.name)
        .about(description.about)
        .bin_name(description.called)?;
    with_arguments(alloc, command, description.arguments)
}

/// A program with these commands behind its own.
pub fn with_commands<'a>(
    alloc: Global,
    program: Command<'a>,
    commands: &[Description<'_, 'a>],
) -> Result<Command<'a>, AllocError>
    requires plain { IsTrue (list_all is_plain_by commands.now) }
    ensures { IfOk result (λ c. app_of c ≡ with_commands (app_of program.entry) commands.entry.now) }
{
    match commands.split_first() {
        None => Ok(program),
        Some((first, others)) => {
            let program = program.subcommand(command(alloc, first)?)?;
            with_commands(alloc, program, others)
        }
    }
}
