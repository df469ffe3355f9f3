//! The documents of authorizations and their challenges (RFC 8555, 7.1.4, 7.1.5, 8).
ghost use Rattle.std.specs.Prelude.{◌≡◌, codes, is_some, true, OnOk};
ghost use Rattle.std.specs.List.{list_any};
ghost use Rattle.serde_json.specs.Data.{boolean};
ghost use Rattle.desk_model.specs.Json.{when};
ghost use Rattle.desk_model.specs.Document.{error_of, report_error, validated, validated_by};
ghost use Rattle.moments.specs.Capped.{capped};
ghost use Rattle.core_replies.specs.Shown.{authorization_members, capped_authorization, capped_challenge, capped_report, challenge_members, shown_challenge};
ghost use Rattle.core_replies.specs.Texts.{HasMembers};

use crate::json_text::{
    JsonText, ListItem, ShowsObject, write_error, write_identifier, write_list, write_object,
};
use crate::replies::numbered_url;
use desk_model::{AuthorizationRow, ChallengeRow, Outcome, Policy, Report};
use keys::token_text;
use moments::capped_moment_text;
use std::alloc::AllocError;

// Writes an error of the validator.
fn write_outcome(text: &mut JsonText, outcome: Outcome) -> Result<(), AllocError>
    ensures { OnOk result (HasMembers text.old text.new (report_error outcome)) }
{
    if outcome.is_good() {
        return Ok(());
    }
    write_error(text, outcome.as_str(), outcome.detail(), outcome.status())
}

// Writes the error that the report on a challenge showed, if there is one.
fn write_reported(text: &mut JsonText, reported: Option<Report>) -> Result<(), AllocError>
    ensures { OnOk result (HasMembers text.old text.new (error_of (capped_report reported))) }
{
    match reported {
        Some(report) => write_outcome(text, report.outcome),
        None => Ok(()),
    }
}

// Writes when a good report was made.
fn write_date(text: &mut JsonText, report: Report) -> Result<(), AllocError>
    ensures { OnOk result (HasMembers text.old text.new (validated_by report.outcome (capped report.date))) }
{
    if !report.outcome.is_good() {
        return Ok(());
    }
    let date = capped_moment_text(text.alloc(), report.date)?;
    text.member("validated", &date)
}

// Writes when a challenge was validated, if it was.
fn write_validated(text: &mut JsonText, reported: Option<Report>) -> Result<(), AllocError>
    ensures { OnOk result (HasMembers text.old text.new (validated (capped_report reported))) }
{
    match reported {
        Some(report) => write_date(text, report),
        None => Ok(()),
    }
}

// A challenge (RFC 8555, 8).
impl ShowsObject<Policy> for ChallengeRow {
    ghost members = { λ t c. challenge_members t (capped_challenge c) };

    fn write_members(&self, text: &mut JsonText, by: &Policy) -> Result<(), AllocError> {
        let alloc = text.alloc();
        write_reported(text, self.reported)?;
        text.member("status", self.status.as_str())?;
        text.member("token", &token_text(alloc, self.token)?)?;
        text.member("type", self.kind.as_str())?;
        text.member("url", &numbered_url(alloc, by, "/chall/", self.number)?)?;
        write_validated(text, self.reported)
    }
}

// Whether one of the challenges was reported.
fn is_reported(challenges: &[ChallengeRow]) -> bool
    ensures { result ≡ list_any (λ c. is_some c.reported) challenges.now }
{
    challenges
        .iter()
        .any(|challenge| challenge.reported.is_some())
}

// A challenge, which is shown if it was reported, or if none was.
impl<'a> ListItem<(&'a Policy, bool)> for ChallengeRow {
    ghost values = { λ by c. shown_challenge by.0.now by.1 c };

    fn write_shown(&self, text: &mut JsonText, by: &(&'a Policy, bool)) -> Result<(), AllocError> {
        let (policy, reported) = *by;
        if reported && self.reported.is_none() {
            return Ok(());
        }
        write_object(text, self, policy)
    }
}

// Writes that the authorization is for a wildcard name, where it is.
fn write_wildcard(text: &mut JsonText, wildcard: bool) -> Result<(), AllocError>
    ensures { OnOk result (HasMembers text.old text.new (when wildcard (codes "wildcard", boolean true))) }
{
    if !wildcard {
        return Ok(());
    }
    text.true_member("wildcard")
}

// An authorization (RFC 8555, 7.1.4).
impl ShowsObject<Policy> for AuthorizationRow {
    ghost members = { λ t a. authorization_members t (capped_authorization a) };

    fn write_members(&self, text: &mut JsonText, by: &Policy) -> Result<(), AllocError> {
        let challenges = self.challenges.as_slice();
        let told = (by, is_reported(challenges));
        write_list(text, "challenges", challenges, &told)?;
        let expires = capped_moment_text(text.alloc(), self.expires)?;
        text.member("expires", &expires)?;
        text.name("identifier")?;
        write_identifier(text, self.name.base())?;
        text.member("status", self.status.as_str())?;
        write_wildcard(text, self.name.is_wildcard())
    }
}
