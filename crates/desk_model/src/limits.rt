//! The limits of the desk: moments, numbers, counts and lengths.

/// The last moment at which a call may be made, in seconds since 1970-01-01T00:00:00Z.
pub const LAST_MOMENT: u64 = 250_000_000_000;

/// The last moment at which anything may end, in seconds since 1970-01-01T00:00:00Z: the last moment of a call and the
/// longest life after it.
pub const LAST_END: u64 = LAST_MOMENT + LONGEST_LIFE;

/// The shortest base of the URLs, in bytes.
pub const SHORTEST_BASE: usize = 8;

/// The longest base of the URLs, in bytes.
pub const LONGEST_BASE: usize = 256;

/// The longest life of nonces, orders and authorizations, in seconds.
pub const LONGEST_LIFE: u64 = 315_360_000;

/// The greatest number that an object may have.
pub const LAST_NUMBER: u64 = 1 << 62;

/// The most names of an order (RFC 8555, 7.4).
pub const MOST_NAMES: usize = 50;

/// The most contacts of an account (RFC 8555, 7.3).
pub const MOST_CONTACTS: usize = 10;

/// The longest contact, in bytes (RFC 8555, 7.3).
pub const LONGEST_CONTACT: usize = 320;

/// The longest CSR, in bytes of DER (RFC 8555, 7.4).
pub const LONGEST_CSR: usize = 8192;

/// The longest certificate, in bytes (RFC 8555, 7.4.2).
pub const LONGEST_CERTIFICATE: usize = 65536;

/// The longest detail of an order's problem, in bytes (RFC 8555, 7.1.3).
pub const LONGEST_DETAIL: usize = 256;

/// The longest head of an HTTP request, in bytes (RFC 9112, 3, 5).
pub const LONGEST_HEAD: usize = 16384;

/// The longest body of an HTTP request, in bytes, where its resource takes no other (RFC 9112, 6).
pub const LONGEST_BODY: usize = 131072;
