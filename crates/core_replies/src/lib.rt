//! The replies of the desk and their documents, by the rows that they show (RFC 8555, 6.7, 7.1). `desk_core` stands on it.
#![tactic(auto)]

mod authorization_documents;
mod documents;
mod json_text;
mod order_documents;
mod replies;

pub use order_documents::order_names;
pub use replies::{
    account_reply, authorization_reply, certificate_reply, challenge_reply, client_challenge_reply,
    key_reply, list_reply, located_account, located_order, nonce_reply, order_reply, refusal_reply,
    taken_reply, with_nonce,
};
