//! The names of arguments; an option has two hyphens before its own.

/// The file that holds a desk, or that will.
pub(crate) const FILE: &str = "FILE";

/// The new file that a backup is copied into.
pub(crate) const TO: &str = "TO";

/// The copy of a desk that is restored.
pub(crate) const COPY: &str = "COPY";

/// How long to try again while another program has the file.
pub(crate) const WAIT: &str = "wait";

/// Whether the cause of a fault is said, too; every word has it.
pub(crate) const VERBOSE: &str = "verbose";

/// Whether it is not said at a terminal either; every word has it.
pub(crate) const QUIET: &str = "quiet";

/// The number of what is revoked.
pub(crate) const NUMBER: &str = "N";

/// What each URL begins with.
pub(crate) const BASE: &str = "base";

/// How long a nonce is open.
pub(crate) const NONCE_LIFE: &str = "nonce-life";

/// How long an order lives.
pub(crate) const ORDER_LIFE: &str = "order-life";

/// How long an authorization lives.
pub(crate) const AUTHZ_LIFE: &str = "authz-life";

/// The port of 127.0.0.1.
pub(crate) const PORT: &str = "port";

/// The path of the socket.
pub(crate) const SOCKET: &str = "socket";

/// How many connections to serve.
pub(crate) const COUNT: &str = "count";

/// By how much a call's moment may be above the latest that is known.
pub(crate) const MAX_STEP: &str = "max-step";

/// By how much the desk's clock may be ahead of the machine's.
pub(crate) const MAX_AHEAD: &str = "max-ahead";

/// Whether a line is written for each connection.
pub(crate) const LOG: &str = "log";

/// The file that holds the desk of a batch.
pub(crate) const BATCH_FILE: &str = "file";

/// How often a commit to the file syncs.
pub(crate) const SYNC: &str = "sync";

/// The account whose orders or authorizations are listed.
pub(crate) const ACCOUNT: &str = "account";

/// The status of the orders that are listed.
pub(crate) const STATUS: &str = "status";

/// The name that is asked for.
pub(crate) const NAME: &str = "name";

/// Whether a report is JSON.
pub(crate) const JSON: &str = "json";
