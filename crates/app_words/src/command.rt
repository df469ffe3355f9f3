//! What the words ask for.

/// What the words ask for, and how.
#[derive(Clone, Copy)]
pub struct Asked<'a> {
    /// What they ask for.
    pub command: Command<'a>,
    /// For how many seconds to try again while another program has the file.
    pub wait: u64,
    /// Whether the cause of a fault is said, too.
    pub is_verbose: bool,
}

/// What the words ask for.
#[derive(Clone, Copy)]
pub enum Command<'a> {
    /// To make a desk in a new file.
    Make {
        /// The path of the file.
        file: &'a str,
        /// The terms that the desk is made with.
        terms: Terms<'a>,
    },
    /// To serve connections.
    Serve {
        /// The file that holds the desk.
        file: SyncedFile<'a>,
        /// How they are served.
        serving: Serving<'a>,
    },
    /// To report on the desk in a file.
    Report {
        /// The path of the file that holds the desk.
        file: &'a str,
        /// What is reported.
        report: Report<'a>,
    },
    /// To have a desk that is served report on itself.
    Look {
        /// Where it is served.
        place: Place<'a>,
        /// What is reported.
        report: Report<'a>,
    },
    /// To check the desk in a file, and to copy it into a new one.
    BackUp {
        /// The path of the file that holds the desk.
        file: &'a str,
        /// The path of the new file.
        to: &'a str,
    },
    /// To have a desk that is served give its files, and to check and keep them as a copy in a new one.
    BackUpServed {
        /// Where it is served.
        place: Place<'a>,
        /// The path of the new file.
        to: &'a str,
    },
    /// To check the desk in a copy, and to put that into the place of a file.
    Restore {
        /// The path of the copy.
        copy: &'a str,
        /// The path of the file whose place it takes.
        file: &'a str,
    },
    /// To revoke an authorization or an account.
    Revoke {
        /// The path of the file that holds the desk.
        file: &'a str,
        /// What is revoked.
        target: Revocation,
    },
    /// To have a desk that is served revoke an authorization or an account.
    RevokeServed {
        /// Where it is served.
        place: Place<'a>,
        /// What is revoked.
        target: Revocation,
    },
    /// To answer the lines of standard input.
    Batch {
        /// The file that holds the desk, or `None` for a new desk in memory.
        file: Option<SyncedFile<'a>>,
    },
}

impl<'a> Command<'a> {
    /// The path of the file that holds the desk, or that will, of a restoring the copy; `None` for a desk in memory, or one that is
    /// asked where it is served.
    pub fn file(self) -> Option<&'a str> {
        match self {
            Command::Make { file, .. } => Some(file),
            Command::Serve { file, .. } => Some(file.path),
            Command::Report { file, .. } => Some(file),
            Command::Look { .. } => None,
            Command::BackUp { file, .. } => Some(file),
            Command::BackUpServed { .. } => None,
            Command::Restore { copy, .. } => Some(copy),
            Command::Revoke { file, .. } => Some(file),
            Command::RevokeServed { .. } => None,
            Command::Batch { file: Some(file) } => Some(file.path),
            Command::Batch { file: None } => None,
        }
    }

    /// The path of the file that a wait is for: the one that may be served, of a restoring the one whose place is taken.
    pub fn waited_file(self) -> Option<&'a str> {
        match self {
            Command::Restore { file, .. } => Some(file),
            command => command.file(),
        }
    }
}

/// What is reported on a desk.
#[derive(Clone, Copy)]
pub enum Report<'a> {
    /// What it was made with, its clock, and its objects by status.
    About,
    /// Its page.
    Page,
    /// The orders.
    Orders(OrderListing<'a>),
    /// The accounts.
    Accounts {
        /// Whether as JSON.
        json: bool,
    },
    /// The authorizations.
    Authorizations(AuthorizationListing<'a>),
    /// The stored statuses that are wrong.
    Check {
        /// Whether as JSON.
        json: bool,
    },
}

/// Where a desk is served.
#[derive(Clone, Copy)]
pub enum Place<'a> {
    /// At this port of 127.0.0.1.
    Port(u16),
    /// At the socket that is the file at this path.
    Socket(&'a str),
}

/// Where connections are taken; port 0 stands for one that the machine chooses.
#[derive(Clone, Copy)]
pub enum Listening<'a> {
    /// At one place.
    At(Place<'a>),
    /// At a port of 127.0.0.1, and at the socket that is the file at a path.
    AtBoth {
        /// The port.
        port: u16,
        /// The path.
        socket: &'a str,
    },
}

/// How connections are served.
#[derive(Clone, Copy)]
pub struct Serving<'a> {
    /// Where they are taken.
    pub listening: Listening<'a>,
    /// After how many connections to end, or `None` for 2^64 - 1.
    pub count: Option<u64>,
    /// By how many seconds a call's moment may be above the latest that is known, or `None` for any number.
    pub max_step: Option<u64>,
    /// By how many seconds the desk's clock may be ahead of the machine's, or `None` for any number.
    pub max_ahead: Option<u64>,
    /// How a line for each connection is written, or `None` for none.
    pub log: Option<LogForm>,
    /// Whether the cause is said, too, where a connection fails.
    pub is_verbose: bool,
}

/// How the lines of a log are written.
#[derive(Clone, Copy)]
pub enum LogForm {
    /// As words.
    Text,
    /// One JSON document each.
    Json,
}

/// The file that holds a desk which records calls.
#[derive(Clone, Copy)]
pub struct SyncedFile<'a> {
    /// Its path.
    pub path: &'a str,
    /// How often a commit syncs its log.
    pub syncs: Syncs,
}

/// How often a commit syncs the log of a file.
#[derive(Clone, Copy)]
pub enum Syncs {
    /// Most commits once: each byte that was written and not synced is supposed to be the old or the new one after a loss of power.
    Once,
    /// Twice: nothing is supposed of such bytes.
    Twice,
}

/// What is revoked.
#[derive(Clone, Copy)]
pub enum Revocation {
    /// The authorization of this number.
    Authorization(u64),
    /// The account of this number.
    Account(u64),
}

/// The terms of a desk, as the words give them.
#[derive(Clone, Copy)]
pub struct Terms<'a> {
    /// What each URL begins with.
    pub base: &'a str,
    /// How long a nonce is open, in seconds.
    pub nonce_life: u64,
    /// How long an order lives, in seconds.
    pub order_life: u64,
    /// How long an authorization lives, in seconds.
    pub authz_life: u64,
}

/// Which orders are listed, and how.
#[derive(Clone, Copy)]
pub struct OrderListing<'a> {
    /// The account whose orders they are, or `None` for all accounts.
    pub account: Option<u64>,
    /// The word of the status that they have (RFC 8555, 7.1.6), or `None` for every status.
    pub status: Option<&'a str>,
    /// The text of a name that they ask for (RFC 8555, 7.1.3), or `None` for every name.
    pub name: Option<&'a str>,
    /// Whether as JSON.
    pub json: bool,
}

/// Which authorizations are listed, and how.
#[derive(Clone, Copy)]
pub struct AuthorizationListing<'a> {
    /// The account whose authorizations they are, or `None` for all accounts.
    pub account: Option<u64>,
    /// The text of their name, or `None` for every name.
    pub name: Option<&'a str>,
    /// Whether as JSON.
    pub json: bool,
}
