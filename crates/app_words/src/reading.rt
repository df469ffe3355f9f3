//! Words read as what they ask for.
ghost use Rattle.std.specs.Prelude.{◌≡◌, if◌then◌else◌, true, false};

use crate::arguments;
use crate::command::{
    Asked, AuthorizationListing, Command, Listening, LogForm, OrderListing, Place, Report,
    Revocation, Serving, SyncedFile, Syncs, Terms,
};
use crate::fault::WordsFault;
use crate::grammar::desk;
use crate::numbers::number_in;
use crate::served::Served;
use crate::subcommand::Subcommand;
use crate::words::{Argument, LAST_NUMBER, LOG_JSON, SYNC_ONCE, word_named};
use clap::ArgMatches;
use clap::error::ErrorKind;
use std::alloc::Global;

// What is said of a number that is written otherwise.
const NOT_DECIMAL: &str =
    "a number is written in decimal, without a sign and without a zero in front";

// What is said of a revocation that has a port, and neither a file nor a number.
const NO_NUMBER_AT_PORT: &str =
    "with --port N stands in the place of FILE: a number, 1 to 2^62, without a sign and without a zero in front";

// What is said of one that has a socket, and neither a file nor a number.
const NO_NUMBER_AT_SOCKET: &str =
    "with --socket N stands in the place of FILE: a number, 1 to 2^62, without a sign and without a zero in front";

// What the matches ask for, and how.
fn asked<'a>(matches: &ArgMatches<'a>, is_terminal: bool) -> Option<Asked<'a>> {
    let (name, given) = matches.subcommand()?;
    let (verbose, quiet) = (
        given.get_flag(arguments::VERBOSE),
        given.get_flag(arguments::QUIET),
    );
    let is_verbose = says_causes(verbose, quiet, is_terminal);
    Some(Asked {
        command: command(Subcommand::named(name)?, given, is_verbose)?,
        wait: given.get_one::<u64>(arguments::WAIT).unwrap_or(0),
        is_verbose,
    })
}

// Whether causes are said: as the words say, and without one at a terminal alone.
fn says_causes(verbose: bool, quiet: bool, is_terminal: bool) -> bool
    ensures { result ≡ (if verbose then true else (if quiet then false else is_terminal)) }
{
    verbose || (is_terminal && !quiet)
}

// What a word asks for by what is given behind it.
fn command<'a>(
    subcommand: Subcommand,
    given: &ArgMatches<'a>,
    is_verbose: bool,
) -> Option<Command<'a>> {
    if let Some(report) = report(subcommand, given) {
        return reporting(report, given);
    }
    match subcommand {
        Subcommand::Batch => Some(batch(given)),
        _ => with_file(
            subcommand,
            given.get_str(arguments::FILE)?,
            given,
            is_verbose,
        ),
    }
}

// The report that a word asks for, if it asks for one.
fn report<'a>(subcommand: Subcommand, given: &ArgMatches<'a>) -> Option<Report<'a>> {
    let json = given.get_flag(arguments::JSON);
    match subcommand {
        Subcommand::About => Some(Report::About),
        Subcommand::Page => Some(Report::Page),
        Subcommand::Status => Some(Report::Orders(orders(given))),
        Subcommand::Accounts => Some(Report::Accounts { json }),
        Subcommand::Authorizations => Some(Report::Authorizations(authorizations(given))),
        Subcommand::Check => Some(Report::Check { json }),
        _ => None,
    }
}

// By the desk that is served at a place, where one is given, else of that in the file.
fn reporting<'a>(report: Report<'a>, given: &ArgMatches<'a>) -> Option<Command<'a>> {
    match place(given) {
        Some(place) => Some(Command::Look { place, report }),
        None => {
            let file = given.get_str(arguments::FILE)?;
            Some(Command::Report { file, report })
        }
    }
}

// What a word asks for that names the file of a desk in any case, or what stands in its place.
fn with_file<'a>(
    subcommand: Subcommand,
    file: &'a str,
    given: &ArgMatches<'a>,
    is_verbose: bool,
) -> Option<Command<'a>> {
    match subcommand {
        Subcommand::Make => make(file, given),
        Subcommand::Serve => serve(file, given, is_verbose),
        Subcommand::BackUp => back_up(file, given),
        Subcommand::Restore => restore(file, given),
        Subcommand::RevokeAuthorization => {
            let authorization = Revocation::Authorization(revoked(file, given)?);
            Some(revoke(file, given, authorization))
        }
        Subcommand::RevokeAccount => {
            let account = Revocation::Account(revoked(file, given)?);
            Some(revoke(file, given, account))
        }
        _ => None,
    }
}

fn make<'a>(file: &'a str, given: &ArgMatches<'a>) -> Option<Command<'a>> {
    let terms = terms(given)?;
    Some(Command::Make { file, terms })
}

fn orders<'a>(given: &ArgMatches<'a>) -> OrderListing<'a> {
    OrderListing {
        account: given.get_one::<u64>(arguments::ACCOUNT),
        status: given.get_str(arguments::STATUS),
        name: given.get_str(arguments::NAME),
        json: given.get_flag(arguments::JSON),
    }
}

fn authorizations<'a>(given: &ArgMatches<'a>) -> AuthorizationListing<'a> {
    AuthorizationListing {
        account: given.get_one::<u64>(arguments::ACCOUNT),
        name: given.get_str(arguments::NAME),
        json: given.get_flag(arguments::JSON),
    }
}

// Of the desk that is served at a place, where one is given; what stands in the place of the file is then the new one.
fn back_up<'a>(file: &'a str, given: &ArgMatches<'a>) -> Option<Command<'a>> {
    match place(given) {
        Some(place) => Some(Command::BackUpServed { place, to: file }),
        None => {
            let to = given.get_str(arguments::TO)?;
            Some(Command::BackUp { file, to })
        }
    }
}

fn restore<'a>(file: &'a str, given: &ArgMatches<'a>) -> Option<Command<'a>> {
    let copy = given.get_str(arguments::COPY)?;
    Some(Command::Restore { copy, file })
}

fn serve<'a>(path: &'a str, given: &ArgMatches<'a>, is_verbose: bool) -> Option<Command<'a>> {
    let serving = Serving {
        listening: listening(given)?,
        count: given.get_one::<u64>(arguments::COUNT),
        max_step: given.get_one::<u64>(arguments::MAX_STEP),
        max_ahead: given.get_one::<u64>(arguments::MAX_AHEAD),
        log: log_form(given),
        is_verbose,
    };
    let file = synced(path, given);
    Some(Command::Serve { file, serving })
}

// Where connections are taken.
fn listening<'a>(given: &ArgMatches<'a>) -> Option<Listening<'a>> {
    match (
        given.get_one::<u16>(arguments::PORT),
        given.get_str(arguments::SOCKET),
    ) {
        (Some(port), Some(socket)) => Some(Listening::AtBoth { port, socket }),
        _ => Some(Listening::At(place(given)?)),
    }
}

// The place where a desk is served, where one is given.
fn place<'a>(given: &ArgMatches<'a>) -> Option<Place<'a>> {
    match given.get_one::<u16>(arguments::PORT) {
        Some(port) => Some(Place::Port(port)),
        None => Some(Place::Socket(given.get_str(arguments::SOCKET)?)),
    }
}

// How a line for each connection is written, where one is asked for.
fn log_form(given: &ArgMatches<'_>) -> Option<LogForm> {
    if given.get_str(arguments::LOG)? == LOG_JSON {
        Some(LogForm::Json)
    } else {
        Some(LogForm::Text)
    }
}

fn batch<'a>(given: &ArgMatches<'a>) -> Command<'a> {
    let file = match given.get_str(arguments::BATCH_FILE) {
        Some(path) => Some(synced(path, given)),
        None => None,
    };
    Command::Batch { file }
}

// By the desk that is served at a place, where one is given, else in the file.
fn revoke<'a>(file: &'a str, given: &ArgMatches<'a>, target: Revocation) -> Command<'a> {
    match place(given) {
        Some(place) => Command::RevokeServed { place, target },
        None => Command::Revoke { file, target },
    }
}

// The file at a path, with how often a commit to it syncs.
fn synced<'a>(path: &'a str, given: &ArgMatches<'a>) -> SyncedFile<'a> {
    let syncs = if given.get_str(arguments::SYNC) == Some(SYNC_ONCE) {
        Syncs::Once
    } else {
        Syncs::Twice
    };
    SyncedFile { path, syncs }
}

// The number of what is revoked, which stands in the place of the file where a desk is asked that is served.
fn revoked(file: &str, given: &ArgMatches<'_>) -> Option<u64> {
    match given.get_one::<u64>(arguments::NUMBER) {
        Some(number) => Some(number),
        None => object_number(file),
    }
}

// The number of an object that a text is.
fn object_number(text: &str) -> Option<u64> {
    match number_in(text) {
        Some(number) if (1..=LAST_NUMBER).contains(&number) => Some(number),
        _ => None,
    }
}

// What is wrong with words that ask a desk which is served, if anything is.
fn misplaced(matches: &ArgMatches<'_>) -> Option<&'static str> {
    let (name, given) = matches.subcommand()?;
    let subcommand = Subcommand::named(name)?;
    let served = Served::of(subcommand)?;
    let place = place(given)?;
    if given.get_str(arguments::PORT).is_some() && given.get_str(arguments::SOCKET).is_some() {
        return Some(served.two_places);
    }
    if given.get_str(served.beside).is_some() {
        return Some(served.file_beside(place));
    }
    match subcommand {
        Subcommand::RevokeAuthorization | Subcommand::RevokeAccount => unnumbered(place, given),
        _ => None,
    }
}

// What is said of a revocation by a place, where what stands in the place of the file is no number.
fn unnumbered(place: Place<'_>, given: &ArgMatches<'_>) -> Option<&'static str> {
    match object_number(given.get_str(arguments::FILE)?) {
        Some(_) => None,
        None => Some(no_number_at(place)),
    }
}

// What is said where what stands in the place of the file is no number.
fn no_number_at(place: Place<'_>) -> &'static str {
    match place {
        Place::Port(_) => NO_NUMBER_AT_PORT,
        Place::Socket(_) => NO_NUMBER_AT_SOCKET,
    }
}

// The terms among them.
fn terms<'a>(given: &ArgMatches<'a>) -> Option<Terms<'a>> {
    Some(Terms {
        base: given.get_str(arguments::BASE)?,
        nonce_life: given.get_one::<u64>(arguments::NONCE_LIFE)?,
        order_life: given.get_one::<u64>(arguments::ORDER_LIFE)?,
        authz_life: given.get_one::<u64>(arguments::AUTHZ_LIFE)?,
    })
}

// Whether each number that is given is written in decimal, which the parser does not ask: it takes a sign, and zeros in front.
fn are_decimal(matches: &ArgMatches<'_>) -> bool {
    match matches.subcommand() {
        Some((name, given)) => match word_named(name) {
            Some(word) => word
                .arguments
                .iter()
                .all(|argument| is_decimal(given, *argument)),
            None => true,
        },
        None => true,
    }
}

// Whether an argument is written in decimal, where it is a number and given.
fn is_decimal(given: &ArgMatches<'_>, argument: Argument) -> bool {
    match argument.number_id().and_then(|id| given.get_str(id)) {
        Some(text) => number_in(text).is_some(),
        None => true,
    }
}

// What the matches of a command ask for, or why they ask for nothing.
fn asked_by<'a>(
    alloc: Global,
    grammar: &mut clap::Command<'a>,
    matches: &ArgMatches<'a>,
    is_terminal: bool,
) -> Result<Asked<'a>, WordsFault> {
    if !are_decimal(matches) {
        let error = grammar.error(ErrorKind::ValueValidation, NOT_DECIMAL)?;
        return Err(WordsFault::of(alloc, &error));
    }
    if let Some(text) = misplaced(matches) {
        let error = grammar.error(ErrorKind::ArgumentConflict, text)?;
        return Err(WordsFault::of(alloc, &error));
    }
    match asked(matches, is_terminal) {
        Some(asked) => Ok(asked),
        None => {
            let error = grammar.error(ErrorKind::MissingSubcommand, "no command")?;
            Err(WordsFault::of(alloc, &error))
        }
    }
}

// What the words ask for by a command that knows them.
fn read_by<'a>(
    alloc: Global,
    grammar: &mut clap::Command<'a>,
    words: &'a [String],
    is_terminal: bool,
) -> Result<Asked<'a>, WordsFault> {
    match grammar.try_get_matches_from_mut(words) {
        Ok(matches) => asked_by(alloc, grammar, &matches, is_terminal),
        Err(error) => Err(WordsFault::of(alloc, &error)),
    }
}

/// What the words of a command line ask for, and how; the first word is the program's name. Where the words say nothing of the
/// causes of faults, these are said if standard error is a terminal.
///
/// # Errors
///
/// `Help` where they ask for help or the version, `Wrong` where they are wrong, each with its text; `Memory` where a growth
/// was refused.
pub fn read_words<'a>(
    alloc: Global,
    words: &'a [String],
    is_terminal: bool,
) -> Result<Asked<'a>, WordsFault> {
    let mut grammar = desk(alloc)?;
    read_by(alloc, &mut grammar, words, is_terminal)
}
