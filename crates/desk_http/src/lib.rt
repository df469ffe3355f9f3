//! Calls over HTTP: a request in, its reply out; connections served one after the other; and a request to a desk that is served
//! (RFC 9112). `app_tasks`, `app_commands` and `http_trials` stand on it.
#![tactic(auto)]

mod asking;
mod clients;
mod connection;
mod connections;
mod copying;
mod listener;
mod moment_bound;
mod overseeing;
mod serve_fault;
mod serving;
mod showing;

pub use asking::{Unheard, ask, ask_by};
pub use connection::Connection;
pub use connections::{moment, serve_connections};
pub use copying::{Inquiry, Uncopied, copy_by, copy_shown};
pub use http_routes::{Looked, ReportForm, Request, Routes};
pub use http_wire::{ParsedRequest, ReadFailed, ReplyForm, read_call, read_call_by, reply_text};
pub use json_texts::problem_document;
pub use listener::{Both, Listener, bind};
pub use moment_bound::{MomentBound, admits};
pub use overseeing::{Entry, Overseer, ReplySummary, Watch};
pub use serve_fault::ServeFault;
pub use serving::{IoFault, Served, Unanswered, respond, serve_request, serve_request_by};
pub use showing::{Hook, shown_head};
