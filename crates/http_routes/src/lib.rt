//! What requests ask, by their methods, paths and bodies, and the lines of a batch (RFC 8555, 6.2, 6.3, 7.1). `http_wire` stands on it,
//! and with that `desk_http` and `app_batch`.
#![tactic(auto)]

mod lines;
mod looked;
mod request;
mod routes;

pub use lines::{Line, LineFault, read_line, reply_line};
pub use looked::{Looked, ReportForm};
pub use request::{Place, Request, RequestRefusal, ask_in, look_in, place_of};
pub use routes::{
    OfficeResource, Resource, Route, Routes, has_index, is_visible, methods_of, number_between,
    route_at,
};
