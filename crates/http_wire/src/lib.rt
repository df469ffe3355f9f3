//! Requests read from the bytes of HTTP/1.1 messages, replies as such bytes, and the URLs that they show (RFC 9112; RFC 8555, 6.2,
//! 6.5, 6.7, 7.1). `desk_http` stands on it, and `app_batch`, which reads its lines as such requests.
#![tactic(auto)]

mod body;
mod call;
mod replies;
mod served;

pub use body::{ReadFailed, fill_from};
pub use call::{ParsedRequest, ReplyForm, read_call, read_call_by};
pub use replies::reply_text;
pub use served::shown_urls_are_served;
