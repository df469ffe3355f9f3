//! How far the clock of a desk is ahead of the machine's.
ghost use Rattle.std.specs.Prelude.{◌≡◌};
ghost use Rattle.app_tasks.specs.Deeds.{is_too_far, lacks_moment};

use std::io::Write;

/// Says by how many seconds the desk's clock is ahead of the machine's, if it is.
pub(crate) fn tell_ahead<E: Write>(errors: &mut E, lead: Option<u64>) {
    if let Some(seconds) = lead {
        let _ = writeln!(
            errors,
            "desk: the desk's clock is {seconds} seconds ahead of the machine's"
        );
    }
}

/// Whether how far it is ahead is limited, and not to be told: the machine's clock tells no moment.
pub(crate) fn lacks_moment(now: Option<u64>, most: Option<u64>) -> bool
    ensures { result ≡ lacks_moment now most }
{
    match (now, most) {
        (None, Some(_)) => true,
        (None, None) => false,
        (Some(_), _) => false,
    }
}

/// Whether it is further ahead than it may be.
pub(crate) fn is_too_far(lead: Option<u64>, most: Option<u64>) -> bool
    ensures { result ≡ is_too_far lead most }
{
    match (lead, most) {
        (Some(lead), Some(most)) => most < lead,
        _ => false,
    }
}
