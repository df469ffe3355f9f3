//! The lives of a desk where the words give none.

/// How long something lives, in seconds and as the text of these.
#[derive(Clone, Copy)]
pub struct Life {
    /// The seconds.
    pub seconds: u64,
    pub(crate) text: &'static str,
}

// The life of so many seconds.
macro_rules! life {
    ($seconds:literal) => {
        Life {
            seconds: $seconds,
            text: concat!($seconds),
        }
    };
}

/// How long a nonce is open.
pub const NONCE_LIFE: Life = life!(3600);

/// How long an order lives.
pub const ORDER_LIFE: Life = life!(604800);

/// How long an authorization lives.
pub const AUTHZ_LIFE: Life = life!(2592000);
