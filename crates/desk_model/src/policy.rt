//! What the operator fixes when the desk is made.
ghost use Rattle.std.specs.Prelude.{◌≡◌, ◌≤◌, ◌==◌, ◌-◌, length, slice_index, true, false, IfOk, IsTrue, MatchOption};
ghost use Rattle.std.specs.{Int.is_in_range, List.list_all};
ghost use Rattle.desk_model.specs.Effect.{lasts};
ghost use Rattle.desk_model.specs.Limits.{longest_base, longest_life, shortest_base};
ghost use Rattle.desk_model.specs.Terms.{Terms, are_terms, is_base, is_life, has_scheme, is_base_byte};

use crate::limits::{LONGEST_BASE, LONGEST_LIFE, SHORTEST_BASE};
use crate::objects::Nonce;
use crate::sequence::Text;
use std::alloc::{AllocError, Global};
use std::marker::Model;

/// The base of every URL, and how long nonces, orders and authorizations live, in seconds.
#[derive(Drop)]
pub struct Policy {
    base: Text,
    nonce_life: u64,
    order_life: u64,
    authz_life: u64,
}

impl Model for Policy {
    ghost use Rattle.std.specs.Prelude.{IsTrue};
    ghost use Rattle.desk_model.specs.Terms.{Terms, are_terms};

    ghost Value = { Terms };

    ghost view = { λ p. record { base = p.base; nonce_life = p.nonce_life; order_life = p.order_life; authz_life = p.authz_life } };

    ghost invariant = { λ p. IsTrue (are_terms (record { base = p.base; nonce_life = p.nonce_life; order_life = p.order_life; authz_life = p.authz_life })) };
}

impl Policy {
    /// The policy with these terms, or `None` where they break a limit; lives are in seconds.
    ///
    /// # Errors
    ///
    /// Where there is no memory for the base.
    pub fn new(
        alloc: Global,
        base: &str,
        nonce_life: u64,
        order_life: u64,
        authz_life: u64,
    ) -> Result<Option<Policy>, AllocError>
        ensures { IfOk result (λ made.
            let asked : Terms = record { base = base.now; nonce_life = nonce_life; order_life = order_life; authz_life = authz_life } in
            MatchOption made (are_terms asked ≡ false) (λ policy. (are_terms asked ≡ true) × (policy ≡ asked))) }
    {
        let allowed = is_allowed_base(base)
            && is_allowed_life(nonce_life)
            && is_allowed_life(order_life)
            && is_allowed_life(authz_life);
        if !allowed {
            return Ok(None);
        }
        let base = Text::new(String::from_str(alloc, base)?);
        Ok(Some(Policy {
            base,
            nonce_life,
            order_life,
            authz_life,
        }))
    }

    /// The base of every URL, without a slash at its end.
    pub fn base(&self) -> &str
        ensures base { result.now ≡ self.now.base }
        ensures allowed { IsTrue (are_terms self.now) }
    {
        self.base.as_str()
    }

    /// How long a nonce lives, in seconds.
    pub fn nonce_life(&self) -> u64
        ensures life { result ≡ self.now.nonce_life }
        ensures limit { result ≤ longest_life }
    {
        self.nonce_life
    }

    /// Whether a nonce is good at a moment, in seconds since 1970: up to and including the end of its life (RFC 8555, 6.5).
    pub fn lasts(&self, moment: u64, nonce: &Nonce) -> bool
        ensures { result ≡ lasts self.now moment nonce.now }
    {
        moment <= nonce.issued.saturating_add(self.nonce_life)
    }

    /// The moment, in seconds since 1970, before which the nonces were issued that are past their life at this one.
    pub fn first_lasting(&self, moment: u64) -> u64
        ensures { result ≡ moment - self.now.nonce_life }
    {
        moment.saturating_sub(self.nonce_life)
    }

    /// How long an order lives, in seconds.
    pub fn order_life(&self) -> u64
        ensures life { result ≡ self.now.order_life }
        ensures limit { result ≤ longest_life }
    {
        self.order_life
    }

    /// How long an authorization lives, in seconds.
    pub fn authz_life(&self) -> u64
        ensures life { result ≡ self.now.authz_life }
        ensures limit { result ≤ longest_life }
    {
        self.authz_life
    }
}

impl Clone for Policy {
    ghost is_clone = { λ policy copy. copy ≡ policy };

    fn clone(&self) -> Result<Policy, AllocError> {
        let base = self.base.clone()?;
        Ok(Policy {
            base,
            nonce_life: self.nonce_life,
            order_life: self.order_life,
            authz_life: self.authz_life,
        })
    }
}

// Whether a text may be the base of the URLs.
fn is_allowed_base(base: &str) -> bool
    ensures { result ≡ is_base base.now }
{
    has_web_scheme(base)
        && is_allowed_len(base.len())
        && has_allowed_bytes(base)
        && !ends_with_slash(base)
}

// Whether a web scheme stands first.
fn has_web_scheme(base: &str) -> bool
    ensures { result ≡ has_scheme base.now }
{
    base.starts_with("http://") || base.starts_with("https://")
}

// Whether a base may be so long, in bytes.
fn is_allowed_len(len: usize) -> bool
    ensures { result ≡ is_in_range shortest_base longest_base len }
{
    (SHORTEST_BASE..=LONGEST_BASE).contains(&len)
}

// Whether each byte may stand in a base.
fn has_allowed_bytes(base: &str) -> bool
    ensures { result ≡ list_all is_base_byte base.now }
{
    base.bytes().all(is_allowed_byte)
}

// Whether the byte may stand in a base.
fn is_allowed_byte(b: u8) -> bool
    ensures { result ≡ is_base_byte b }
{
    (33..=126).contains(&b) && !matches!(b, b'"' | b'<' | b'>' | b'\\')
}

// Whether the base ends with a slash.
fn ends_with_slash(base: &str) -> bool
    ensures { result ≡ (slice_index base.now (length base.now - 1) == 47) }
{
    base.ends_with('/')
}

// Whether something may live so long.
fn is_allowed_life(seconds: u64) -> bool
    ensures { result ≡ is_life seconds }
{
    (1..=LONGEST_LIFE).contains(&seconds)
}
