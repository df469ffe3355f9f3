//! What the program does, a word each.
use crate::words::word_named;

/// What the program does, a word each.
#[derive(Clone, Copy)]
pub(crate) enum Subcommand {
    /// Makes a desk in a new file.
    Make,
    /// Serves connections.
    Serve,
    /// Answers the lines of standard input.
    Batch,
    /// Tells about a desk.
    About,
    /// Shows a desk as a page.
    Page,
    /// Lists the orders.
    Status,
    /// Lists the accounts.
    Accounts,
    /// Lists the authorizations.
    Authorizations,
    /// Lists the stored statuses that are wrong.
    Check,
    /// Checks a desk and copies it.
    BackUp,
    /// Checks a copy of a desk and puts it into the place of one.
    Restore,
    /// Revokes an authorization.
    RevokeAuthorization,
    /// Revokes an account.
    RevokeAccount,
}

impl Subcommand {
    /// The one that a word asks for.
    pub(crate) fn named(name: &str) -> Option<Subcommand> {
        Some(word_named(name)?.subcommand)
    }
}
