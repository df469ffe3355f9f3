//! The command that knows the words, made from their table.
use crate::words::{
    Argument, LONGEST_WAIT, Need, SYNC_TWICE, SYNCS, Word, desk_words, operator_words, report_words,
};
use crate::{arguments, help};
use clap::builder::ValueParser;
use clap::{Arg, ArgAction, Command};
use std::alloc::{AllocError, Global};

// A value that is told by its place.
fn positional<'a>(alloc: Global, id: &'a str, help: &'a str) -> Arg<'a> {
    Arg::new(alloc, id).action(ArgAction::Set).help(help)
}

// An option that takes a value.
fn option<'a>(alloc: Global, id: &'a str, value: &'a str, help: &'a str) -> Arg<'a> {
    Arg::new(alloc, id)
        .long(id)
        .value_name(value)
        .action(ArgAction::Set)
        .help(help)
}

// An option that takes none.
fn flag<'a>(alloc: Global, id: &'a str, help: &'a str) -> Arg<'a> {
    Arg::new(alloc, id)
        .long(id)
        .action(ArgAction::SetTrue)
        .help(help)
}

// An argument that has to be there so.
fn needed<'a>(arg: Arg<'a>, need: Need) -> Result<Arg<'a>, AllocError> {
    match need {
        Need::Always => Ok(arg.required(true)),
        Need::Unless(options) => arg.required_unless_present_any(options),
        Need::Never => Ok(arg),
    }
}

fn arg<'a>(alloc: Global, argument: Argument) -> Result<Arg<'a>, AllocError> {
    Ok(match argument {
        Argument::Positional {
            id,
            value,
            need,
            help,
        } => needed(
            positional(alloc, id, help).value_parser(value.parser()),
            need,
        )?,
        Argument::Option {
            id,
            value_name,
            value,
            need,
            help,
        } => needed(
            option(alloc, id, value_name, help).value_parser(value.parser()),
            need,
        )?,
        Argument::Seconds { id, default, help } => option(alloc, id, "N", help)
            .value_parser(clap::value_parser!(u64))
            .default_value(default.text),
        Argument::Wait { of } => {
            let wait = option(alloc, arguments::WAIT, "SECONDS", help::WAITS).value_parser(
                ValueParser::unsigned(0, LONGEST_WAIT),
            );
            match of {
                Some(file) => wait.requires_arg(file)?,
                None => wait,
            }
        }
        Argument::Sync { of } => option(alloc, arguments::SYNC, "WORD", help::SYNCS)
            .value_parser(ValueParser::Names(SYNCS))
            .default_value(SYNC_TWICE)
            .requires_arg(of)?,
        Argument::Optional {
            id,
            value,
            missing,
            help,
        } => option(alloc, id, "WORD", help)
            .value_parser(value.parser())
            .num_args(0..=1)
            .default_missing_value(missing),
        Argument::Flag { id, help } => flag(alloc, id, help),
    })
}

// The command of a word.
fn command<'a>(alloc: Global, word: &'static Word) -> Result<Command<'a>, AllocError> {
    let mut command = Command::new(alloc, word.name)
        .about(word.about)
        .after_help(word.after);
    if let Some(usage) = word.usage {
        command = command.override_usage(usage);
    }
    for &argument in word.arguments {
        command = command.arg(arg(alloc, argument)?)?;
    }
    let verbose = flag(alloc, arguments::VERBOSE, help::VERBOSE);
    let quiet = flag(alloc, arguments::QUIET, help::QUIET).conflicts_with(arguments::VERBOSE)?;
    command.arg(verbose)?.arg(quiet)
}

// A command with so many words more.
fn with_words<'a>(
    alloc: Global,
    mut desk: Command<'a>,
    words: &'static [Word],
) -> Result<Command<'a>, AllocError> {
    for word in words {
        desk = desk.subcommand(command(alloc, word)?)?;
    }
    Ok(desk)
}

/// The program's words, each with its arguments and its help.
///
/// # Errors
///
/// Where a growth was refused.
pub(crate) fn desk<'a>(alloc: Global) -> Result<Command<'a>, AllocError> {
    let desk = Command::new(alloc, "desk")
        .about("The order desk of an ACME certificate authority (RFC 8555)")
        .after_help(help::DESK)
        .version(help::VERSION)
        .subcommand_required(true);
    let desk = with_words(alloc, desk, desk_words())?;
    let desk = with_words(alloc, desk, report_words())?;
    with_words(alloc, desk, operator_words())
}
