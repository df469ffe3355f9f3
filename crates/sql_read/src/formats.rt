//! The formats of a file.

/// Which tables a file has.
#[derive(Clone, Copy)]
pub(crate) enum Format {
    /// Those of format 1.
    First,
    /// Today's: beside them that of the keys of answers.
    Second,
}
