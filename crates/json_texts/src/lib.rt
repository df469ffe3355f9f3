//! JSON texts: values, members, lists of strings, problems of orders, and refusals with their replies and documents (RFC 7807;
//! RFC 8555, 6.7). What reads or writes JSON stands on it.
#![tactic(auto)]

mod refused;
mod values;

pub use refused::{order_problem, problem_document, problem_text, refusal_reply, type_text};
pub use values::{
    JsonValue, lone_text, object_in, text_list, text_member, text_of, texts_in, texts_of, value_of,
    written_list,
};
