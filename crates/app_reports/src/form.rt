//! How a report is written.

/// How a report is written.
#[derive(Clone, Copy, PartialEq, Eq)]
pub enum Form {
    /// As lines for people, with a last line that sums up.
    Text,
    /// As one JSON document a line, and nothing else.
    Json,
}
