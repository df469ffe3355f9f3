//! Thumbprints, key authorizations, and the answers that challenges ask for (RFC 8555, 8.1, 8.3, 8.4).
ghost use Rattle.std.specs.Prelude.{◌≡◌, ◌≤◌, ◌-◌, ◌&&◌, ◌↔◌, ◌++◌, ◌∷◌, ◌==◌, string_bytes, IfOk, nat_lt, length, slice_index, ℕ, List, IsTrue, Any, All};
ghost use Rattle.std.specs.Prelude.{bytes_eq};
ghost use Rattle.desk_model.specs.Tokens.{authorization_of, token_text as text_of_token, body_matches, dns_value_of, is_blank, records_match, IsBodyMatch};
ghost use Rattle.desk_model.specs.Document.{expected_by};
ghost use Rattle.std.specs.List.{list_any};
ghost use Rattle.sha2.specs.Sha256.{sha256};

use crate::texts::{token_text, url_safe};
use desk_model::{Jwk, Kind, Text, is_same_bytes, is_same_text};
use sha2::{Digest, Sha256};
use std::alloc::{AllocError, Global};

// ---- what an answer has to be

/// What the validator has to find for a token, under the thumbprint of the key that it was answered with: the key
/// authorization for http-01, the value of the record for dns-01.
///
/// # Errors
///
/// Where there is no memory for it.
pub fn expected_text(
    alloc: Global,
    kind: Kind,
    token: [u8; 16],
    thumb: &[u8],
) -> Result<String, AllocError>
    ensures { IfOk result (λ t. string_bytes t ≡ expected_by kind (authorization_of (text_of_token token) thumb.now)) }
{
    let token = token_text(alloc, token)?;
    let authorization = authorization(alloc, token.as_str(), thumb)?;
    match kind {
        Kind::Http01 => Ok(authorization),
        Kind::Dns01 => dns_value(alloc, authorization.as_str()),
    }
}

// ---- whether one is that

/// The thumbprint of a key: the SHA-256 of its canonical text (RFC 7638, 3).
pub fn thumbprint(key: &Jwk) -> [u8; 32]
    ensures { result ≡ sha256 key.now }
{
    text_thumbprint(key.canonical())
}

/// The thumbprint of the key that has this canonical text.
pub fn text_thumbprint(key: &str) -> [u8; 32]
    ensures { result ≡ sha256 key.now }
{
    Sha256::digest(key)
}

/// The key authorization of a token's text under a thumbprint (RFC 8555, 8.1).
///
/// # Errors
///
/// Where there is no memory for it.
pub fn key_authorization(alloc: Global, token: &str, thumb: &[u8; 32]) -> Result<String, AllocError>
    ensures { IfOk result (λ t. string_bytes t ≡ authorization_of token.now thumb.now) }
{
    authorization(alloc, token, thumb)
}

// The key authorization of a token's text under these bytes, which are a thumbprint where the challenge was answered.
fn authorization(alloc: Global, token: &str, thumb: &[u8]) -> Result<String, AllocError>
    ensures { IfOk result (λ t. string_bytes t ≡ authorization_of token.now thumb.now) }
{
    let digest = url_safe(alloc, thumb)?;
    format!(in alloc; "{token}.{digest}")
}

/// What a TXT record has to hold for a key authorization (RFC 8555, 8.4).
///
/// # Errors
///
/// Where there is no memory for it.
pub fn dns_value(alloc: Global, key_authorization: &str) -> Result<String, AllocError>
    ensures { IfOk result (λ t. string_bytes t ≡ dns_value_of key_authorization.now) }
{
    let digest = Sha256::digest(key_authorization);
    url_safe(alloc, &digest)
}

/// Whether a body is the expected text with nothing but blanks after it, and that text does not end in one
/// (RFC 8555, 8.3).
pub fn http_matches(body: &[u8], expected: &str) -> bool
    ensures matching { IsTrue result ↔ IsBodyMatch body.now expected.now }
    ensures value { result ≡ body_matches body.now expected.now }
{
    is_same_bytes(without_blanks(body), expected.as_bytes())
}

/// Whether one of the TXT records is the expected text (RFC 8555, 8.4).
#[tactic(auto, unfolding(desk_model::specs::Tokens::records_match))]
pub fn dns_matches(records: &[Text], expected: &str) -> bool
    ensures matching { IsTrue result ↔ Any (λ entry. entry ≡ expected.now) records.now }
    ensures value { result ≡ records_match records.now expected.now }
{
    has_text(records, expected)
}

// Whether one of the records is the text.
fn has_text(records: &[Text], expected: &str) -> bool
    ensures { result ≡ list_any (λ r. bytes_eq r expected.now) records.now }
{
    records
        .iter()
        .any(|text| is_same_text(text.as_str(), expected))
}

// The bytes without the blanks at their end.
fn without_blanks(bytes: &[u8]) -> &[u8]
    ensures { IsBodyMatch bytes.now result.now }
{
    let mut end = bytes.len();
    while ends_in_blank(bytes, end) {
        end -= 1;
    }
    &bytes[..end]
}

// Whether there is a byte before the end, and it is a blank.
fn ends_in_blank(bytes: &[u8], end: usize) -> bool
    requires { end ≤ length bytes.now }
    ensures { result ≡ (nat_lt 0 end && is_blank (slice_index bytes.now (end - 1))) }
{
    end > 0 && is_blank_byte(bytes[end - 1])
}

// Whether the byte is a space, a tab, a carriage return or a line feed.
fn is_blank_byte(b: u8) -> bool
    ensures { result ≡ is_blank b }
{
    matches!(b, b' ' | b'\t' | b'\r' | b'\n')
}
