//! The types and definitions of a desk: its history, its tables, its rules and its replies (RFC 8555). Every crate of the desk
//! stands on it, but for `sql_schema` and `app_words`.
#![tactic(auto)]

mod call;
mod dns_name;
mod entry;
mod jwk;
mod limits;
mod objects;
mod payload;
mod policy;
mod refusal;
mod reply;
mod rows;
mod sequence;
mod status;
mod verdict;

pub use call::{
    Ask, BadKey, Call, FetchError, Finding, OfficeAsk, OrderProblem, Signed, Target, keep_form,
};
pub use dns_name::{DnsName, is_well_formed};
pub use entry::{Dated, Ending, Entry, Move, Outcome, Wanted};
pub use jwk::{Jwk, has_base64url_bytes, is_number};
pub use limits::{
    LAST_END, LAST_MOMENT, LAST_NUMBER, LONGEST_BASE, LONGEST_BODY, LONGEST_CERTIFICATE,
    LONGEST_CONTACT, LONGEST_CSR, LONGEST_DETAIL, LONGEST_HEAD, LONGEST_LIFE, MOST_CONTACTS,
    MOST_NAMES, SHORTEST_BASE,
};
pub use objects::{
    Account, AccountEnd, Answer, Authorization, AuthorizationEnd, Challenge, Nonce, Order, Report,
};
pub use payload::{
    AccountChange, AuthorizationChange, ChallengeChange, DNS, Identifier, KeyChange, NewAccount,
};
pub use policy::Policy;
pub use refusal::Refusal;
pub use reply::{Allow, Body, Problem, Reply, Subproblem};
pub use rows::{
    AccountRow, AuthorizationRow, ChallengeRow, Change, Clock, Counters, DatedBytes, DatedProblem,
    Listed, Meta, OrderRow, StatusFault,
};
pub use sequence::{Document, Sequence, Text, is_same_bytes, is_same_text};
pub use status::{AccountStatus, AuthzStatus, ChallengeStatus, EndKind, Kind, OrderStatus};
pub use verdict::{Listing, Shows, Verdict};
