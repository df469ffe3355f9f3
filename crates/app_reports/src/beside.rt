//! What is known of a desk beside its rows.
ghost use Rattle.std.specs.Prelude.{◌≡◌};
ghost use Rattle.app_reports.specs.About.{ahead};

/// What is known beside the rows of a desk.
#[derive(Clone, Copy)]
pub struct Beside {
    /// The machine's moment, in seconds since 1970-01-01T00:00:00Z, or `None` where its clock tells none.
    pub now: Option<u64>,
    /// How many bytes the log had that stood beside the file.
    pub log: u64,
}

/// By how many seconds the clock of a desk is ahead of the machine's, if it is.
pub fn seconds_ahead(clock: u64, now: Option<u64>) -> Option<u64>
    ensures { result ≡ ahead clock now }
{
    match now {
        Some(now) if now < clock => Some(clock - now),
        _ => None,
    }
}
