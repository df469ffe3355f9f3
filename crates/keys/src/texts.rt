//! The texts of tokens and nonces (RFC 8555, 6.5 and 8), in base64url.
ghost use Rattle.std.specs.Prelude.{◌≡◌, ◌≢◌, ◌^◌, ◌<◌, ◌++◌, IfOk, option_map, string_bytes, ℕ, List, None, Some, drop, length, take, MatchOption};
ghost use Rattle.desk_model.specs.Tokens.{base64url, from_base64url, nonce_in, nonce_text as text_of_nonce, number_from, token_text as text_of_token};
ghost use Rattle.std.specs.Int.{w64, to_be_bytes};
ghost use Rattle.base64.specs.GeneralPurpose.{IsBytes};

use base64::DecodeAllocError;
use base64::engine::general_purpose::URL_SAFE_NO_PAD;
use std::alloc::{AllocError, Global};

// ---- bytes in base64, in the URL-safe alphabet without padding (RFC 4648, 5)

/// The bytes that a text spells in the URL-safe alphabet without padding, read strictly, or `None` where it spells
/// none (RFC 8555, 6.1).
///
/// # Errors
///
/// Where there is no memory for them.
#[tactic(auto, unfolding(desk_model::specs::Tokens::from_base64url))]
pub fn from_base64url(alloc: Global, text: &str) -> Result<Option<Vec<u8>>, AllocError>
    ensures { IfOk result (λ o. option_map (λ v. v.items) o ≡ from_base64url text.now) }
{
    match URL_SAFE_NO_PAD.decode(alloc, text.as_bytes()) {
        Ok(bytes) => Ok(Some(bytes)),
        Err(DecodeAllocError::DecodeError(_)) => Ok(None),
        Err(DecodeAllocError::OutOfMemory) => Err(AllocError),
    }
}

/// The text of bytes in base64, in the URL-safe alphabet without padding.
#[tactic(auto, unfolding(desk_model::specs::Tokens::base64url))]
pub(crate) fn url_safe(alloc: Global, bytes: &[u8]) -> Result<String, AllocError>
    ensures { IfOk result (λ t. string_bytes t ≡ base64url bytes.now) }
{
    URL_SAFE_NO_PAD.encode(alloc, bytes)
}

// ---- nonces and tokens

/// The text of a token of 16 bytes.
///
/// # Errors
///
/// Where there is no memory for it.
pub fn token_text(alloc: Global, token: [u8; 16]) -> Result<String, AllocError>
    ensures { IfOk result (λ t. string_bytes t ≡ text_of_token token) }
{
    url_safe(alloc, &token)
}

/// The text of a nonce: its serial, high byte first, and its random bytes.
///
/// # Errors
///
/// Where there is no memory for it.
pub fn nonce_text(alloc: Global, serial: u64, random: [u8; 16]) -> Result<String, AllocError>
    ensures { IfOk result (λ t. string_bytes t ≡ text_of_nonce serial random) }
{
    let mut bytes = Vec::new(alloc);
    bytes.extend_from_slice(&serial.to_be_bytes())?;
    bytes.extend_from_slice(&random)?;
    url_safe(alloc, &bytes)
}

/// The serial and the random bytes of a nonce's text, or `None` where it is the text of none.
#[tactic(auto, using(crate::proofs::NonceTexts::no_nonce_in, crate::proofs::Nonces::nonce_of_decoded, crate::proofs::Nonces::nonce_of_decodes))]
pub fn read_nonce(text: &str) -> Option<(u64, [u8; 16])>
    ensures undoes { MatchOption result
        ((serial : ℕ) (random : List ℕ) → serial < 2 ^ 64 → length random ≡ 16 → IsBytes random → text.now ≢ text_of_nonce serial random)
        (λ p. text.now ≡ text_of_nonce p.0 p.1) }
    ensures value { MatchOption result (nonce_in text.now ≡ None) (λ p. nonce_in text.now ≡ Some (record { serial = p.0; random = p.1 })) }
{
    let mut bytes = [0; 24];
    let Ok(len) = URL_SAFE_NO_PAD.decode_slice(text.as_bytes(), &mut bytes) else {
        return None;
    };
    if len != 24 {
        return None;
    }
    Some(parts_of(&bytes))
}

// The number in the first 8 bytes, high byte first, and the other bytes.
fn parts_of(bytes: &[u8; 24]) -> (u64, [u8; 16])
    ensures whole { to_be_bytes w64 result.0 ++ result.1 ≡ bytes.now }
    ensures serial { result.0 ≡ number_from 0 (take 8 bytes.now) }
    ensures random { result.1 ≡ drop 8 bytes.now }
{
    let (front, back) = bytes.split_at(8);
    let mut serial = [0; 8];
    serial.copy_from_slice(front);
    let mut random = [0; 16];
    random.copy_from_slice(back);
    (u64::from_be_bytes(serial), random)
}
