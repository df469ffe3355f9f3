//! The words that the program knows, as help lists them.
use crate::lives::{AUTHZ_LIFE, Life, NONCE_LIFE, ORDER_LIFE};
use crate::subcommand::Subcommand;
use crate::{arguments, help};
use clap::builder::ValueParser;

/// The greatest number that an object may have, `LAST_NUMBER` of desk_model.
pub(crate) const LAST_NUMBER: u64 = 1 << 62;

// The last moment that a desk knows, `LAST_MOMENT` of desk_model, in seconds since 1970-01-01T00:00:00Z.
const LAST_MOMENT: u64 = 250_000_000_000;

/// The longest wait for a file, a day, in seconds.
pub(crate) const LONGEST_WAIT: u64 = 86400;

// The statuses of an order (RFC 8555, 7.1.6).
const ORDER_STATUSES: &[&str] = &["pending", "ready", "processing", "valid", "invalid"];

// The word for a log of words.
const LOG_TEXT: &str = "text";

/// The word for a log of JSON.
pub(crate) const LOG_JSON: &str = "json";

// How the lines of a log may be written.
const LOG_FORMS: &[&str] = &[LOG_TEXT, LOG_JSON];

/// The word for commits of which most sync once.
pub(crate) const SYNC_ONCE: &str = "once";

/// The word for commits that sync twice.
pub(crate) const SYNC_TWICE: &str = "twice";

/// How often a commit may sync.
pub(crate) const SYNCS: &[&str] = &[SYNC_ONCE, SYNC_TWICE];

/// A word, with what help says of it above its options and below them.
pub(crate) struct Word {
    /// What it asks for.
    pub(crate) subcommand: Subcommand,
    /// The word itself.
    pub(crate) name: &'static str,
    /// What it does.
    pub(crate) about: &'static str,
    /// An example, and the exit statuses.
    pub(crate) after: &'static str,
    /// Its arguments, as help lists them.
    pub(crate) arguments: &'static [Argument],
    /// How it is used, where that is not told by its arguments.
    pub(crate) usage: Option<&'static str>,
}

/// An argument of a word.
#[derive(Clone, Copy)]
pub(crate) enum Argument {
    /// A value that is told by its place.
    Positional {
        id: &'static str,
        value: Value,
        need: Need,
        help: &'static str,
    },
    /// An option that takes a value.
    Option {
        id: &'static str,
        value_name: &'static str,
        value: Value,
        need: Need,
        help: &'static str,
    },
    /// An option that is a number of seconds, with the life that stands where it is not given.
    Seconds {
        id: &'static str,
        default: Life,
        help: &'static str,
    },
    /// An option of another argument, which names a file: how often a commit to that syncs.
    Sync {
        of: &'static str,
    },
    /// An option that may take a word, with the one that stands where it has none.
    Optional {
        id: &'static str,
        value: Value,
        missing: &'static str,
        help: &'static str,
    },
    /// How long to try again while another program has a file: an option of the argument that names that, where it may be missing.
    Wait {
        of: Option<&'static str>,
    },
    /// An option that takes none.
    Flag {
        id: &'static str,
        help: &'static str,
    },
}

/// Whether an argument has to be there.
#[derive(Clone, Copy)]
pub(crate) enum Need {
    /// It has to.
    Always,
    /// It has to where none of these options is.
    Unless(&'static [&'static str]),
    /// It may be left out.
    Never,
}

/// What a value has to be.
#[derive(Clone, Copy)]
pub(crate) enum Value {
    /// Any text.
    Text,
    /// A number of 64 bits.
    Count,
    /// A port.
    Port,
    /// The number of an object.
    Number,
    /// The seconds of a step or a lead of a clock.
    Step,
    /// The status of an order.
    Status,
    /// How the lines of a log are written.
    LogForm,
}

impl Argument {
    /// Its name, if its value is a number.
    pub(crate) fn number_id(self) -> Option<&'static str> {
        match self {
            Argument::Positional { id, value, .. } | Argument::Option { id, value, .. }
                if value.is_number() => Some(id),
            Argument::Seconds { id, .. } => Some(id),
            Argument::Wait { .. } => Some(arguments::WAIT),
            _ => None,
        }
    }
}

impl Value {
    // Whether it is a number.
    fn is_number(self) -> bool {
        matches!(
            self,
            Value::Count | Value::Port | Value::Number | Value::Step
        )
    }

    /// What checks it.
    pub(crate) fn parser<'a>(self) -> ValueParser<'a> {
        match self {
            Value::Text => ValueParser::String,
            Value::Count => clap::value_parser!(u64),
            Value::Port => clap::value_parser!(u16),
            Value::Number => ValueParser::unsigned(1, LAST_NUMBER),
            Value::Step => ValueParser::unsigned(1, LAST_MOMENT),
            Value::Status => ValueParser::Names(ORDER_STATUSES),
            Value::LogForm => ValueParser::Names(LOG_FORMS),
        }
    }
}

// The file that holds the desk.
const DESK_FILE: Argument = Argument::Positional {
    id: arguments::FILE,
    value: Value::Text,
    need: Need::Always,
    help: "the file that holds the desk",
};

// How long to try again while another program has the desk's file.
const DESK_WAIT: Argument = Argument::Wait { of: None };

// The arguments of a word that reports on a desk: where that is, and `DESK_WAIT`, are among them.
macro_rules! on_desk {
    ($($argument:expr,)*) => {
        &[REPORTED_FILE, AT_PORT, AT_SOCKET, $($argument,)* DESK_WAIT]
    };
}

// An option that may be left out.
macro_rules! option {
    ($id:expr, $name:literal, $value:ident, $help:literal) => {
        Argument::Option {
            id: $id,
            value_name: $name,
            value: Value::$value,
            need: Need::Never,
            help: $help,
        }
    };
}

// The file that holds the desk, where that is not asked where it is served.
const REPORTED_FILE: Argument = Argument::Positional {
    id: arguments::FILE,
    value: Value::Text,
    need: Need::Unless(&[arguments::PORT, arguments::SOCKET]),
    help: "the file that holds the desk; none with --port or --socket",
};

// The port of a desk that is served.
const AT_PORT: Argument =
    option! { arguments::PORT, "N", Port, "asks the desk that is served at this port of 127.0.0.1, 0 to 65535, in place of the file" };

// The socket of one.
const AT_SOCKET: Argument =
    option! { arguments::SOCKET, "PATH", Text, "asks the desk that is served at the Unix socket of this path, in place of the file" };

// The option that asks for JSON.
macro_rules! json {
    ($help:literal) => {
        Argument::Flag {
            id: arguments::JSON,
            help: $help,
        }
    };
}

// The life of an object, in seconds.
macro_rules! life {
    ($life:ident, $help:literal) => {
        Argument::Seconds {
            id: arguments::$life,
            default: $life,
            help: $help,
        }
    };
}

const MAKE: &[Argument] = &[
    Argument::Positional {
        id: arguments::FILE,
        value: Value::Text,
        need: Need::Always,
        help: "the new file that will hold the desk",
    },
    Argument::Option {
        id: arguments::BASE,
        value_name: "URL",
        value: Value::Text,
        need: Need::Always,
        help: "what each URL begins with, as https://ca.example: http:// or https://, 8 to 256 bytes, no / at its end",
    },
    life! { NONCE_LIFE, "seconds that a nonce is open, 1 to 315360000" },
    life! { ORDER_LIFE, "seconds that an order lives, 1 to 315360000" },
    life! { AUTHZ_LIFE, "seconds that an authorization lives, 1 to 315360000" },
];

const SERVE: &[Argument] = &[
    DESK_FILE,
    Argument::Option {
        id: arguments::PORT,
        value_name: "N",
        value: Value::Port,
        need: Need::Unless(&[arguments::SOCKET]),
        help: "the port of 127.0.0.1, 0 to 65535; 0 for one that the machine chooses",
    },
    option! {
        arguments::SOCKET, "PATH", Text,
        "the path of a Unix socket, beside --port or in its place; one that nobody serves is replaced; see below"
    },
    option! { arguments::COUNT, "N", Count, "how many connections to serve, 0 to 2^64 - 1; without it 2^64 - 1" },
    option! {
        arguments::MAX_STEP, "SECONDS", Step,
        "refuses by fault 24 a call whose moment is more than this above the latest known one, 1 to 250000000000; without it none; see below"
    },
    option! {
        arguments::MAX_AHEAD, "SECONDS", Step,
        "ends with status 1 where the desk's clock is more than this ahead of the machine's, 1 to 250000000000; without it never; see below"
    },
    Argument::Optional {
        id: arguments::LOG,
        value: Value::LogForm,
        missing: LOG_TEXT,
        help: "writes a line for each connection to standard output, as text without a word; what it says is said below",
    },
    Argument::Sync {
        of: arguments::FILE,
    },
];

const BATCH: &[Argument] = &[
    option! { arguments::BATCH_FILE, "FILE", Text, "the file that holds the desk; without it a new desk in memory" },
    Argument::Sync {
        of: arguments::BATCH_FILE,
    },
    Argument::Wait {
        of: Some(arguments::BATCH_FILE),
    },
];

const STATUS: &[Argument] = on_desk! {
    option! { arguments::ACCOUNT, "N", Number, "only orders of the account of this number, 1 to 2^62; without it of all accounts" },
    option! { arguments::STATUS, "WORD", Status, "only orders of this status; without it of every status" },
    option! { arguments::NAME, "NAME", Text, "only orders that ask for this name, as www.example.org or '*.example.org'; without it of every name" },
    json! { "one JSON document a line, an order each, and no count" },
};

const ABOUT: &[Argument] = on_desk! {};

const PAGE: &[Argument] = on_desk! {};

const ACCOUNTS: &[Argument] =
    on_desk! { json! { "one JSON document a line, an account each, and no count" }, };

const AUTHORIZATIONS: &[Argument] = on_desk! {
    option! { arguments::ACCOUNT, "N", Number, "only authorizations of the account of this number, 1 to 2^62; without it of all accounts" },
    option! { arguments::NAME, "NAME", Text, "only authorizations for this name, as www.example.org or '*.example.org'; without it of every name" },
    json! { "one JSON document a line, an authorization each, and no count" },
};

const CHECK: &[Argument] =
    on_desk! { json! { "one JSON document a line, a wrong status each; nothing where there is none" }, };

const BACKUP: &[Argument] = &[
    Argument::Positional {
        id: arguments::FILE,
        value: Value::Text,
        need: Need::Always,
        help: "the file that holds the desk; with --port or --socket TO stands in its place",
    },
    Argument::Positional {
        id: arguments::TO,
        value: Value::Text,
        need: Need::Unless(&[arguments::PORT, arguments::SOCKET]),
        help: "the new file that will hold the copy",
    },
    AT_PORT,
    AT_SOCKET,
    DESK_WAIT,
];

const RESTORE: &[Argument] = &[
    Argument::Positional {
        id: arguments::COPY,
        value: Value::Text,
        need: Need::Always,
        help: "the copy, as backup makes one",
    },
    Argument::Positional {
        id: arguments::FILE,
        value: Value::Text,
        need: Need::Always,
        help: "the file that holds the desk whose place the copy takes, or that will hold it",
    },
    DESK_WAIT,
];

const REVOKE: &[Argument] = &[
    Argument::Positional {
        id: arguments::FILE,
        value: Value::Text,
        need: Need::Always,
        help: "the file that holds the desk; with --port or --socket N stands in its place",
    },
    Argument::Positional {
        id: arguments::NUMBER,
        value: Value::Number,
        need: Need::Unless(&[arguments::PORT, arguments::SOCKET]),
        help: "its number, 1 to 2^62",
    },
    option! { arguments::PORT, "P", Port, "asks the desk that is served at this port of 127.0.0.1, 0 to 65535, in place of the file" },
    AT_SOCKET,
    DESK_WAIT,
];

// A word: what it asks for, its name, what it does, what help says below its arguments, these, and how it is used, where these do not
// tell that.
macro_rules! word {
    ($subcommand:ident, $name:literal, $about:literal, $after:ident, $arguments:ident) => {
        word!($subcommand, $name, $about, $after, $arguments, None)
    };
    ($subcommand:ident, $name:literal, $about:literal, $after:ident, $arguments:ident, $usage:expr) => {
        Word {
            subcommand: Subcommand::$subcommand,
            name: $name,
            about: $about,
            after: help::$after,
            arguments: $arguments,
            usage: $usage,
        }
    };
}

const DESK_WORDS: &[Word] = &[
    word! { Make, "make", "Makes a desk in a new file", MAKE, MAKE },
    word! { Serve, "serve", "Serves HTTP, one request a connection", SERVE, SERVE, Some(help::SERVE_USAGE) },
    word! { Batch, "batch", "Answers the lines of standard input, a call each", BATCH, BATCH },
];

const REPORT_WORDS: &[Word] = &[
    word! { About, "about", "Tells what a desk was made with, its clock, its objects by status, the size of its log", ABOUT, ABOUT, Some(help::ABOUT_USAGE) },
    word! { Page, "page", "Shows a desk as one page of HTML: objects by status, what waits, what ends soon, the last orders", PAGE, PAGE, Some(help::PAGE_USAGE) },
    word! { Status, "status", "Lists the orders: number, account, status, end; last how many these are", STATUS, STATUS, Some(help::STATUS_USAGE) },
    word! {
        Accounts, "accounts", "Lists the accounts: number, status, thumbprint of the key, contacts; last how many these are", ACCOUNTS, ACCOUNTS,
        Some(help::ACCOUNTS_USAGE)
    },
    word! {
        Authorizations, "authorizations", "Lists the authorizations: number, account, status, end, name; last how many these are",
        AUTHORIZATIONS, AUTHORIZATIONS, Some(help::AUTHORIZATIONS_USAGE)
    },
    word! { Check, "check", "Lists the stored statuses that are wrong, and then ends with status 3", CHECK, CHECK, Some(help::CHECK_USAGE) },
];

const OPERATOR_WORDS: &[Word] = &[
    word! { BackUp, "backup", "Checks a desk, and copies it into a new file", BACKUP, BACKUP, Some(help::BACKUP_USAGE) },
    word! { Restore, "restore", "Checks a copy, and puts it into the place of a desk", RESTORE, RESTORE },
    word! { RevokeAuthorization, "revoke-authz", "Revokes an authorization", REVOKE_AUTHZ, REVOKE, Some(help::REVOKE_AUTHZ_USAGE) },
    word! { RevokeAccount, "revoke-account", "Revokes an account", REVOKE_ACCOUNT, REVOKE, Some(help::REVOKE_ACCOUNT_USAGE) },
];

/// The word of this name.
pub(crate) fn word_named(name: &str) -> Option<&'static Word> {
    named_in(desk_words(), name)
        .or(named_in(report_words(), name))
        .or(named_in(operator_words(), name))
}

// The one of these words that has this name.
fn named_in(words: &'static [Word], name: &str) -> Option<&'static Word> {
    words.iter().find(|word| word.name == name)
}

/// The words that make a desk and have it answer, as help lists them. A function, so that the table is unfolded in one proof alone.
pub(crate) fn desk_words() -> &'static [Word] {
    DESK_WORDS
}

/// The words that report on a desk, which help lists behind those. One table of all words takes more steps than a proof may.
pub(crate) fn report_words() -> &'static [Word] {
    REPORT_WORDS
}

/// The other words of the operator, which help lists last.
pub(crate) fn operator_words() -> &'static [Word] {
    OPERATOR_WORDS
}
