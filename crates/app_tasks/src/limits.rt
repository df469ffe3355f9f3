//! The limit that the terms of a desk break.
ghost use Rattle.std.specs.Prelude.{◌≡◌, false};
ghost use Rattle.desk_model.specs.Terms.{are_terms, is_life};
ghost use Rattle.app_tasks.specs.GivenTerms.{keeps, terms_of};

use app_words::Terms;
use desk_model::LONGEST_LIFE;
use thiserror::Error;

/// A limit of the terms of a desk; its text names the option that breaks it.
#[derive(Clone, Copy, Debug, Error)]
pub enum Limit {
    /// Of what each URL begins with.
    #[error("--base begins with http:// or https://, has 8 to 256 bytes of ASCII, no space, none of \" < > \\, and no / at its end")]
    Base,
    /// Of how long a nonce is open.
    #[error("--nonce-life is 1 to 315360000 seconds")]
    NonceLife,
    /// Of how long an order lives.
    #[error("--order-life is 1 to 315360000 seconds")]
    OrderLife,
    /// Of how long an authorization lives.
    #[error("--authz-life is 1 to 315360000 seconds")]
    AuthzLife,
}

/// The first limit that terms break, which break one; the base is the last.
pub fn broken_limit(terms: Terms<'_>) -> Limit
    ensures { are_terms (terms_of terms.entry) ≡ false → keeps (terms_of terms.entry) result ≡ false }
{
    if !is_life(terms.nonce_life) {
        Limit::NonceLife
    } else if !is_life(terms.order_life) {
        Limit::OrderLife
    } else if !is_life(terms.authz_life) {
        Limit::AuthzLife
    } else {
        Limit::Base
    }
}

// Whether something may live so long.
fn is_life(seconds: u64) -> bool
    ensures { result ≡ is_life seconds }
{
    (1..=LONGEST_LIFE).contains(&seconds)
}
