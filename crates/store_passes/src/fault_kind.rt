//! The kinds of objects that have a status.

/// A kind of object whose rows store a status (RFC 8555, 7.1.6).
#[derive(Clone, Copy)]
pub enum FaultKind {
    Account,
    Order,
    Authorization,
    Challenge,
}

impl FaultKind {
    /// All kinds, in the order in which the check of statuses lists their faults.
    pub const ALL: [FaultKind; 4] = [
        FaultKind::Account,
        FaultKind::Order,
        FaultKind::Authorization,
        FaultKind::Challenge,
    ];
}
