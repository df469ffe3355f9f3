//! What help says below the options, and the version.

/// The version of the program.
pub(crate) const VERSION: &str = "0.1.0";

// What stands below the options of a word: an example, and the exit statuses, which all words share; before these, where
// there is more to say, what that is.
macro_rules! after {
    ($example:literal) => {
        after!(Example: $example)
    };
    ($($before:literal,)* Example: $example:literal) => {
        concat!(
            $($before, "\n\n",)*
            "Example:\n  ",
            $example,
            "

Exit statuses:
  0  done
  1  a fault or a refusal, with a line on standard error that begins with desk:
  2  wrong words, or a limit that is broken
  3  a stored status is wrong: check found it, or backup or restore, which then copies nothing"
        )
    };
}

/// What help says of `--wait`.
pub(crate) const WAITS: &str =
    "for how many seconds to try again while another program has the file, as serve does while it runs, 0 to 86400; without it not at all";

/// What help says of `--sync`.
pub(crate) const SYNCS: &str =
    "how often a commit syncs the log of the file; once supposes more of the disk, as said below";

/// What help says of `--verbose`.
pub(crate) const VERBOSE: &str =
    "say the file of a fault and its cause on a second line of standard error, as at a terminal without it";

/// What help says of `--quiet`.
pub(crate) const QUIET: &str = "leave that line out at a terminal, too";

/// Below the words.
pub(crate) const DESK: &str = after!(
    "Files:
  One program at a time has a file: while serve runs, any other word on it ends with fault 21, at
  once or after its --wait, and changes nothing; by --socket or --port it asks that desk itself. The
  first word that opens a file of an earlier format brings it into today's, status and check too.
  There is no way back, and an older program refuses the file then: keep a copy.",
    "Faults, of which a second line says the file and the cause, at a terminal or by --verbose:
  20 memory        a growth of memory was refused
  21 device        another program has the file, as serve does while it runs; this user may not read
                   and write the file, its log or its directory; their file system is read-only; the
                   directory is missing; the file or its log has a second name, by a hard link, or is
                   no regular file; a rollback journal stands beside it; it or its log was replaced,
                   cut or removed while it was served; the disk is full, or failed
  22 reopen        an earlier fault closed the desk, and the next start opens it
  23 not a desk    there is no file, an empty one, or one of something else; for make, a file with
                   bytes, the log of another desk, or the name of what stands beside another file
  24 moment        a moment is past the last one that a desk knows, or further above the latest than
                   the --max-step of serve
  25 short random  a line of a batch has too few random bytes
  26 full          a number would be past 2^62
  27 newer format  a newer program wrote the file",
    Example: "desk status --help"
);

/// Below the options of `make`.
pub(crate) const MAKE: &str = after!(
    "Files:
  A file that is made is its user's alone, mode 600, as is its log. One that stands empty keeps its
  user and its mode.",
    Example: "desk make /var/lib/desk/desk.db --base https://ca.example --nonce-life 600"
);

// What `--sync` supposes of the disk.
macro_rules! synced {
    ($example:literal) => {
        synced!(Example: $example)
    };
    ($($before:literal,)* Example: $example:literal) => {
        after!(
            $($before,)*
            "Syncs:
  A call's commit is on the disk before its reply is written. By twice nothing is supposed of what
  a loss of power leaves of bytes that were written and not synced. By once each of them is supposed
  to be the old or the new one then, as on a disk that finishes each sector it begins, and most
  commits sync once.",
            Example: $example
        )
    };
}

/// Below the options of `serve`.
pub(crate) const SERVE: &str = synced!(
    "Log:
  By --log a line is written for each connection: moment, method, path, status, number of the
  refusal (1 to 17) or fault (20 to 26), number of the object, microseconds from the request read
  to the reply sent; - for what there is none of, and for the status of a connection that failed.",
    "Clock:
  Moments never go back, so one wrong reading of the machine's clock, the year 2099 say, ends every
  order for good. By --max-step a call is refused, and changes nothing, whose moment is more than so
  many seconds above the latest that serve knows: the desk's clock as it was opened, or the moment of a
  call since then that was not refused so. A desk that make has just left knows none, and takes any.
  Nobody can tell a long silence from a wrong clock: choose more than the longest time without a call,
  2592000 for 30 days. The log has the machine's moment beside a 24. If it is wrong, set the machine's
  clock. If it is right, start serve once without --max-step, or with a larger one, until a call has
  been recorded, a nonce say; then start it as before.
  Behind a wrong reading nothing ends before the machine's clock has come so far. A line on standard
  error says where the desk's clock is ahead of it; by --max-ahead serve then ends, where it is more
  than so many seconds. Set the machine's clock, or restore a backup from before the wrong reading.",
    "Files:
  While it serves, no other word works on the file: each ends with fault 21, at once or after its
  --wait; words that look, back up or revoke ask it by --socket or --port. Do not replace, cut or
  remove the file or its log meanwhile: serve ends with fault 21 then.",
    "Sockets:
  By --socket it listens on a Unix socket, whose mode and group come from the umask, the user and the
  directory: who may write it asks the desk as who reaches its port does. A socket that stands there and
  that nobody serves is replaced; of one that is served, and of any other file, a second line says so.
  It stays behind where serve ends. With --port, too, connections at both are taken in turn.",
    Example: "desk serve /var/lib/desk/desk.db --port 8555"
);

/// How `serve` is used: at a port, at a socket, or at both.
pub(crate) const SERVE_USAGE: &str =
    "desk serve [OPTIONS] --port <N> <FILE>\n       desk serve [OPTIONS] --socket <PATH> <FILE>";

/// Below the options of `batch`.
pub(crate) const BATCH: &str = synced!("desk batch --file /var/lib/desk/desk.db < calls.jsonl");

// How a desk is reported on: that in a file, or one that is served.
macro_rules! reported_on {
    ($word:literal) => {
        concat!("desk ", $word, " [OPTIONS] <FILE>\n       desk ", $word, " [OPTIONS] --port <N>\n       desk ", $word, " [OPTIONS] --socket <PATH>")
    };
}

/// How `about` is used.
pub(crate) const ABOUT_USAGE: &str = reported_on!("about");

/// How `page` is used.
pub(crate) const PAGE_USAGE: &str = reported_on!("page");

/// How `status` is used.
pub(crate) const STATUS_USAGE: &str = reported_on!("status");

/// How `accounts` is used.
pub(crate) const ACCOUNTS_USAGE: &str = reported_on!("accounts");

/// How `authorizations` is used.
pub(crate) const AUTHORIZATIONS_USAGE: &str = reported_on!("authorizations");

/// How `check` is used.
pub(crate) const CHECK_USAGE: &str = reported_on!("check");

/// How `backup` is used: of the desk in a file, or of one that is served.
pub(crate) const BACKUP_USAGE: &str =
    "desk backup [OPTIONS] <FILE> <TO>\n       desk backup [OPTIONS] <TO> --port <N>\n       desk backup [OPTIONS] <TO> --socket <PATH>";

// What a desk that is served reports.
macro_rules! reported {
    ($example:literal) => {
        reported!(Example: $example)
    };
    ($($before:literal,)* Example: $example:literal) => {
        after!(
            $($before,)*
            "While it is served:
  A desk that serve has is asked by --port or by --socket, without its file, and what is written is
  the same. Where the desk does not begin its reply within a minute, stops in it for as long, or
  breaks it off, the word ends with desk: connection: what was written is then not all of it.",
            Example: $example
        )
    };
}

/// Below the arguments of `about`.
pub(crate) const ABOUT: &str = reported!("desk about /var/lib/desk/desk.db");

/// Below the arguments of `page`.
pub(crate) const PAGE: &str = reported!(
    "Page:
  One document without scripts, and with nothing from elsewhere. What clients gave stands in it as
  text. A table shows the first 50 rows, by number, and says how many there are in all.",
    Example: "desk page /var/lib/desk/desk.db > page.html"
);

/// Below the arguments of `backup`.
pub(crate) const BACKUP: &str = after!(
    "Copies:
  The copy is the desk as it stands, in one file, which is its user's alone, and it is on the disk
  once copied is printed. A file that stands at TO is left as it is; so is the log of one, TO-wal, beside
  which no copy is made. A desk with a wrong stored status is listed, as check does, and not copied.
  While it is made the copy is TO-part, and a stop leaves nothing else: the next backup to TO removes
  it. Its file system has to have hard links. A copy by hand takes a desk that no program has: while one
  does, some of the desk is in FILE-wal alone.",
    "While it is served:
  A desk that serve has is asked by --port or by --socket, without its file, and gives what its file
  and its log hold between two requests. That is checked as a copy is, and is then at TO. Where the
  desk does not give all of it, the word ends with desk: connection, and nothing is left at TO.",
    Example: "desk backup /var/lib/desk/desk.db /var/backups/desk.db"
);

/// Below the arguments of `restore`.
pub(crate) const RESTORE: &str = after!(
    "Restoring:
  Stop the desk first: a FILE that another program has is left as it is. The copy is checked as check
  does; one with a wrong stored status is listed, and not restored. The old desk is gone then: back it
  up first, if it is any good. Whenever the program is stopped, FILE has the old desk or the whole
  copy; what may be left beside it, FILE-part, the next restore removes. The file that takes its place
  has the owner and the mode of FILE; where there is none, the owner of its directory and mode 600. A
  FILE that holds something else than a desk, or a newer one, stays: move it away first, and its
  FILE-wal.",
    Example: "desk restore /var/backups/desk.db /var/lib/desk/desk.db"
);

/// Below the options of `status`.
pub(crate) const STATUS: &str = reported!("desk status /var/lib/desk/desk.db --status pending");

/// Below the options of `accounts`.
pub(crate) const ACCOUNTS: &str = reported!("desk accounts /var/lib/desk/desk.db");

/// Below the options of `authorizations`.
pub(crate) const AUTHORIZATIONS: &str = reported!(
    "desk authorizations /var/lib/desk/desk.db --name www.example.org"
);

/// Below the options of `check`.
pub(crate) const CHECK: &str = reported!("desk check /var/lib/desk/desk.db --json");

// How a desk is asked that is served.
macro_rules! revoked {
    ($example:literal) => {
        after!(
            "While it is served:
  A desk that serve has is asked by --port or by --socket, without its file. Where it does not say
  within a minute that it is done, or why it is not, the word ends with desk: connection; the desk may
  then have revoked or not, and asking again is safe.",
            Example: $example
        )
    };
}

// How a revocation is used: on the desk in a file, or on one that is served.
macro_rules! used {
    ($word:literal) => {
        concat!("desk ", $word, " [OPTIONS] <FILE> <N>\n       desk ", $word, " [OPTIONS] <N> --port <P>\n       desk ", $word, " [OPTIONS] <N> --socket <PATH>")
    };
}

/// How `revoke-authz` is used.
pub(crate) const REVOKE_AUTHZ_USAGE: &str = used!("revoke-authz");

/// How `revoke-account` is used.
pub(crate) const REVOKE_ACCOUNT_USAGE: &str = used!("revoke-account");

/// Below the arguments of `revoke-authz`.
pub(crate) const REVOKE_AUTHZ: &str = revoked!("desk revoke-authz /var/lib/desk/desk.db 7");

/// Below the arguments of `revoke-account`.
pub(crate) const REVOKE_ACCOUNT: &str = revoked!("desk revoke-account /var/lib/desk/desk.db 1");
