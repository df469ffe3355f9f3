//! Worked examples of the desk, computed on its definitions. Nothing stands on it.
#![tactic(auto, unfolding(crate::proofs::Computing::computing, crate::proofs::Hashing::hashing))]

mod histories;
mod lives;
mod rekeying;
mod requests;
mod texts;
mod touched;

pub use histories::{authorizations_are_shared, entries_are_formed, entries_follow, rows_are_kept};
pub use lives::{
    accounts_end, certificates_have_limits, fifty_names_are_ordered, first_order_holds,
    identifiers_are_counted, offices_are_served, statuses_are_derived,
};
pub use rekeying::{keys_are_changed, keys_are_free};
pub use requests::{
    contacts_are_tested, moments_are_kept, nonces_and_accounts_hold, payloads_are_refused,
    requests_are_refused,
};
pub use texts::{
    documents_are_written, findings_are_matched, keys_hold, names_are_read, problems_are_said,
};
pub use touched::rows_are_touched;
