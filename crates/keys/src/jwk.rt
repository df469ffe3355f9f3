//! The keys that JSON values spell (RFC 7517, RFC 7638).
ghost use Rattle.std.specs.Prelude.{◌≡◌, ◌≢◌, ◌↔◌, Option, Some, ℕ, List, IsTrue, IfOk, option_map, string_bytes};
ghost use Rattle.std.specs.{Int.is_in_range, List.list_all};
ghost use Rattle.serde_json.specs.View.{view};
ghost use Rattle.desk_model.specs.Payload.{key_text_in};
ghost use Rattle.desk_model.specs.Keys.{Key, IsKeyOf, IsEc, IsRsa, IsOkp, IsCurve, number_member, canonical_text, ec, rsa, okp};
ghost use Rattle.keys.specs.declared.jwk.KeyFault.TheVariants.{Memory};

use desk_model::{Jwk, is_number, is_same_text};
use json_texts::{JsonValue, text_member};
use serde_json::Value;
use std::alloc::{AllocError, Global};
use thiserror::Error;

/// Why a key was not read.
#[derive(Debug, Drop, Clone, Copy, Error)]
pub enum KeyFault {
    /// The value is no object with the members of a key that is served (RFC 7518, 6; RFC 8037, 2).
    #[error("not a key that is served")]
    Bad,
    /// A growth was refused; whether it is a key is not known.
    #[error("out of memory")]
    Memory,
}

impl From<AllocError> for KeyFault {
    ghost from_gives = { λ _ fault. fault ≡ Memory };

    fn from(_refused: AllocError) -> KeyFault {
        KeyFault::Memory
    }
}

/// The key that a value spells, if it spells one (RFC 7638, 3.2).
///
/// # Errors
///
/// Where there is no memory.
#[tactic(auto, using(crate::proofs::KeyReadings::none_computed))]
pub fn key_of(alloc: Global, value: &Value) -> Result<Option<Jwk>, AllocError>
    ensures { IfOk result (λ key. key ≡ key_text_in (view value.now)) }
{
    match read_jwk(alloc, value) {
        Ok(key) => Ok(Some(key)),
        Err(KeyFault::Bad) => Ok(None),
        Err(KeyFault::Memory) => Err(AllocError),
    }
}

/// The key that a value spells, by the members that its type requires; others are passed over.
///
/// # Errors
///
/// `Bad` where it spells none, `Memory` where there is no memory (RFC 7638, 3.2).
pub fn read_jwk<V: JsonValue>(alloc: Global, value: &V) -> Result<Jwk, KeyFault>
    ensures key { IfOk result (λ jwk. (k : Key) × IsKeyOf (V.meaning value.now) k × (jwk ≡ canonical_text k)) }
    ensures bad { result ≡ Err KeyFault.Bad → (k : Key) → ¬ (IsKeyOf (V.meaning value.now) k) }
{
    let Some(kty) = text_member(value, "kty") else {
        return Err(KeyFault::Bad);
    };
    if is_same_text(kty, "EC") {
        read_ec(alloc, value)
    } else if is_same_text(kty, "RSA") {
        read_rsa(alloc, value)
    } else if is_same_text(kty, "OKP") {
        read_okp(alloc, value)
    } else {
        Err(KeyFault::Bad)
    }
}

// The key of a curve of the NIST that the members spell.
fn read_ec<V: JsonValue>(alloc: Global, value: &V) -> Result<Jwk, KeyFault>
    ensures key { IfOk result (λ j. (crv x y : List ℕ) × IsEc (V.meaning value.now) crv x y × (j ≡ canonical_text (ec crv x y))) }
    ensures bad { result ≡ Err KeyFault.Bad → (crv x y : List ℕ) → ¬ (IsEc (V.meaning value.now) crv x y) }
{
    let Some(crv) = text_member(value, "crv") else {
        return Err(KeyFault::Bad);
    };
    if !is_curve(crv) {
        return Err(KeyFault::Bad);
    }
    let Some(x) = number_of(value, "x") else {
        return Err(KeyFault::Bad);
    };
    let Some(y) = number_of(value, "y") else {
        return Err(KeyFault::Bad);
    };
    Ok(Jwk::new(ec_text(alloc, crv, x, y)?))
}

// The RSA key that the members spell.
fn read_rsa<V: JsonValue>(alloc: Global, value: &V) -> Result<Jwk, KeyFault>
    ensures key { IfOk result (λ j. (e n : List ℕ) × IsRsa (V.meaning value.now) e n × (j ≡ canonical_text (rsa e n))) }
    ensures bad { result ≡ Err KeyFault.Bad → (e n : List ℕ) → ¬ (IsRsa (V.meaning value.now) e n) }
{
    let Some(e) = number_of(value, "e") else {
        return Err(KeyFault::Bad);
    };
    let Some(n) = number_of(value, "n") else {
        return Err(KeyFault::Bad);
    };
    Ok(Jwk::new(rsa_text(alloc, e, n)?))
}

// The Ed25519 key that the members spell.
fn read_okp<V: JsonValue>(alloc: Global, value: &V) -> Result<Jwk, KeyFault>
    ensures key { IfOk result (λ j. (x : List ℕ) × IsOkp (V.meaning value.now) x × (j ≡ canonical_text (okp x))) }
    ensures bad { result ≡ Err KeyFault.Bad → (x : List ℕ) → ¬ (IsOkp (V.meaning value.now) x) }
{
    if text_member(value, "crv") != Some("Ed25519") {
        return Err(KeyFault::Bad);
    }
    let Some(x) = number_of(value, "x") else {
        return Err(KeyFault::Bad);
    };
    Ok(Jwk::new(okp_text(alloc, x)?))
}

// The canonical text of a key of a curve of the NIST.
fn ec_text(alloc: Global, crv: &str, x: &str, y: &str) -> Result<String, AllocError>
    ensures { IfOk result (λ t. string_bytes t ≡ canonical_text (ec crv.now x.now y.now)) }
{
    format!(in alloc; "{{\"crv\":\"{crv}\",\"kty\":\"EC\",\"x\":\"{x}\",\"y\":\"{y}\"}}")
}

// The canonical text of an RSA key.
fn rsa_text(alloc: Global, e: &str, n: &str) -> Result<String, AllocError>
    ensures { IfOk result (λ t. string_bytes t ≡ canonical_text (rsa e.now n.now)) }
{
    format!(in alloc; "{{\"e\":\"{e}\",\"kty\":\"RSA\",\"n\":\"{n}\"}}")
}

// The canonical text of an Ed25519 key.
fn okp_text(alloc: Global, x: &str) -> Result<String, AllocError>
    ensures { IfOk result (λ t. string_bytes t ≡ canonical_text (okp x.now)) }
{
    format!(in alloc; "{{\"crv\":\"Ed25519\",\"kty\":\"OKP\",\"x\":\"{x}\"}}")
}

// The number of this member.
fn number_of<'v, V: JsonValue>(value: &'v V, name: &str) -> Option<&'v str>
    ensures { option_map (λ s. s.now) result ≡ number_member name.now (V.meaning value.now) }
{
    let text = text_member(value, name)?;
    if is_number(text) { Some(text) } else { None }
}

// Whether the curve is served.
fn is_curve(crv: &str) -> bool
    ensures { IsTrue result ↔ IsCurve crv.now }
{
    crv == "P-256" || crv == "P-384" || crv == "P-521"
}
