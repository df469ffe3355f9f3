//! The texts of moments (RFC 3339, 5.6). `core_replies`, `app_reports`, `app_page` and `app_tasks` stand on it.
#![tactic(auto)]

ghost use Rattle.std.specs.Prelude.{◌≡◌, ◌≤◌, ◌*ℤ◌, pos, IfOk, string_bytes};
ghost use Rattle.jiff_core.specs.DateTime.{civil_nanos};
ghost use Rattle.desk_model.specs.Limits.{last_end};
ghost use Rattle.desk_model.specs.Moment.{IsMomentText, moment_text as text_of_moment};
ghost use Rattle.moments.specs.Capped.{capped};
ghost use Rattle.moments.specs.MomentLaws.{GivesTheText, TellsMomentsApart};

use desk_model::LAST_END;
use jiff::Timestamp;
use jiff::civil::DateTime;
use jiff::tz::Offset;
use std::alloc::{AllocError, Global};

/// The text of a moment in seconds since 1970, `YYYY-MM-DDThh:mm:ssZ` (RFC 3339, 5.6).
///
/// # Errors
///
/// Where there is no memory for it.
pub fn moment_text(alloc: Global, moment: u64) -> Result<String, AllocError>
    requires { moment ≤ last_end }
    ensures civil { IfOk result (λ text. IsMomentText moment (string_bytes text)) }
    ensures value { IfOk result (λ text. string_bytes text ≡ text_of_moment moment) }
{
    let datetime = datetime_of(moment);
    format!(in alloc; "{datetime}Z")
}

/// The text of a moment in seconds since 1970, and that of the last one that has a text for each past it.
///
/// # Errors
///
/// Where there is no memory for it.
pub fn capped_moment_text(alloc: Global, moment: u64) -> Result<String, AllocError>
    ensures { IfOk result (λ text. string_bytes text ≡ text_of_moment (capped moment)) }
{
    moment_text(alloc, moment.min(LAST_END))
}

/// The function `moment_text` gives the text of each moment, and different moments have different texts.
pub fn moments_have_texts()
    ensures gives { GivesTheText }
    ensures apart { TellsMomentsApart }
{}

// The civil date and time of a moment.
fn datetime_of(moment: u64) -> DateTime
    requires { moment ≤ last_end }
    ensures { civil_nanos result ≡ pos moment *ℤ pos 1_000_000_000 }
{
    Offset::UTC.to_datetime(Timestamp::constant(moment as i64, 0))
}
