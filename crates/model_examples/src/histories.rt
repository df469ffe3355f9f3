//! What may be recorded, and the rows that are kept of it.
ghost use Rattle.model_examples.specs.{Following.EntriesFollow, Formed.EntriesAreFormed, Reusing.AuthorizationsAreShared, Rows.RowsAreKept};

/// Which entries may follow a history, and where each of their conditions fails.
pub fn entries_follow()
    ensures { EntriesFollow }
{}

/// What an entry may keep as text (RFC 8555, 5).
pub fn entries_are_formed()
    ensures { EntriesAreFormed }
{}

/// The rows that a desk keeps of its history, and which stored statuses are faults (RFC 8555, 7.1.6).
pub fn rows_are_kept()
    ensures { RowsAreKept }
{}

/// Orders that use valid authorizations again: which they may use, which is used, what is made, and what falls with it.
pub fn authorizations_are_shared()
    ensures { AuthorizationsAreShared }
{}
