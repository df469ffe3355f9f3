//! Public keys of accounts.
ghost use Rattle.std.specs.Prelude.{◌≡◌, ◌≢◌, ◌↔◌, ◌++◌, ◌∷◌, ℕ, List, IsTrue, IfOk, MatchOption, codes, string_bytes};
ghost use Rattle.std.specs.{Int.is_in_range, List.list_all};
ghost use Rattle.desk_model.specs.Keys.{IsKeyText, is_number_text, is_base64url_byte};
ghost use Rattle.desk_model.specs.KeyTexts.{IsNumberThen, IsLastNumber, AreTwoNumbers, HasEcShape, HasKeyShape, HasTwoNumbers, HasOneNumber};

use crate::sequence::{Text, is_same_text};
use std::alloc::AllocError;
use std::marker::Model;

/// A key, which contracts see as its canonical text (RFC 7638, 3).
#[derive(Drop)]
pub struct Jwk {
    canonical: Text,
}

impl Model for Jwk {
    ghost use Rattle.std.specs.Prelude.{List, ℕ};
    ghost use Rattle.desk_model.specs.Keys.{IsKeyText};

    ghost Value = { List ℕ };

    ghost view = { λ k. k.canonical };

    ghost invariant = { λ k. IsKeyText k.canonical };

    ghost inverse = { λ text. record { canonical = text } };
}

impl Jwk {
    /// The key with this canonical text; `from_canonical` tests whether there is one.
    pub fn new(text: String) -> Jwk
        requires { IsKeyText (string_bytes text) }
        ensures { result ≡ string_bytes text }
    {
        let canonical = Text::new(text);
        Jwk { canonical }
    }

    /// The key with this canonical text, or `None` where no key has it.
    pub fn from_canonical(text: String) -> Option<Jwk>
        ensures { MatchOption result (¬ (IsKeyText (string_bytes text)))
            (λ key. IsKeyText (string_bytes text) × (key ≡ string_bytes text)) }
    {
        if is_key_text(text.as_str()) {
            Some(Jwk::new(text))
        } else {
            None
        }
    }

    /// The canonical text (RFC 7638, 3).
    pub fn canonical(&self) -> &str
        ensures canonical { result.now ≡ self.now }
        ensures of_a_key { IsKeyText self.now }
    {
        self.canonical.as_str()
    }
}

impl Clone for Jwk {
    ghost is_clone = { λ key copy. copy ≡ key };

    fn clone(&self) -> Result<Jwk, AllocError> {
        let canonical = self.canonical.clone()?;
        Ok(Jwk { canonical })
    }
}

// Whether the text is the canonical text of a key.
fn is_key_text(text: &str) -> bool
    ensures { IsTrue result ↔ IsKeyText text.now }
{
    has_key_shape(text)
}

// Whether the text is of one of the shapes of canonical texts.
#[tactic(auto, using(std::proofs::Common::inl, std::proofs::Common::inr))]
fn has_key_shape(text: &str) -> bool
    ensures { IsTrue result ↔ HasKeyShape text.now }
{
    if has_ec_shape(text) {
        return true;
    }
    if has_two_numbers(text, "{\"e\":\"", ",\"kty\":\"RSA\",\"n\":\"") {
        return true;
    }
    has_one_number(text, "{\"crv\":\"Ed25519\",\"kty\":\"OKP\",\"x\":\"")
}

// Whether the text has the shape of a key on a curve of the NIST.
#[tactic(auto, using(std::proofs::Common::inl, std::proofs::Common::inr))]
fn has_ec_shape(text: &str) -> bool
    ensures { IsTrue result ↔ HasEcShape text.now }
{
    if is_on_curve(text, "{\"crv\":\"P-256\",\"kty\":\"EC\",\"x\":\"") {
        return true;
    }
    if is_on_curve(text, "{\"crv\":\"P-384\",\"kty\":\"EC\",\"x\":\"") {
        return true;
    }
    is_on_curve(text, "{\"crv\":\"P-521\",\"kty\":\"EC\",\"x\":\"")
}

// Whether the two coordinates of a point stand behind the head, and end the text.
fn is_on_curve(text: &str, head: &str) -> bool
    ensures { IsTrue result ↔ HasTwoNumbers head.now (codes ",\"y\":\"") text.now }
{
    has_two_numbers(text, head, ",\"y\":\"")
}

// Whether two numbers stand behind the head, with this between them, and end the text.
#[tactic(auto, using(std::proofs::lemmas::List::append_cancel_left))]
fn has_two_numbers(text: &str, head: &str, between: &str) -> bool
    ensures { IsTrue result ↔ HasTwoNumbers head.now between.now text.now }
{
    match text.strip_prefix(head) {
        Some(rest) => are_two_numbers(rest, between),
        None => false,
    }
}

// Whether one number stands behind the head and ends the text.
#[tactic(auto, using(std::proofs::lemmas::List::append_cancel_left))]
fn has_one_number(text: &str, head: &str) -> bool
    ensures { IsTrue result ↔ HasOneNumber head.now text.now }
{
    match text.strip_prefix(head) {
        Some(rest) => is_last_number(rest),
        None => false,
    }
}

// Whether the text is two numbers with this between them.
fn are_two_numbers(text: &str, between: &str) -> bool
    ensures { IsTrue result ↔ AreTwoNumbers between.now text.now }
{
    match after_number(text) {
        Some(rest) => has_one_number(rest, between),
        None => false,
    }
}

// Whether the text is a number and the end of an object.
fn is_last_number(text: &str) -> bool
    ensures { IsTrue result ↔ IsLastNumber text.now }
{
    match after_number(text) {
        Some(rest) => is_same_text(rest, "}"),
        None => false,
    }
}

// What stands behind a number and its quotation mark.
fn after_number(text: &str) -> Option<&str>
    ensures { MatchOption result
        ((number rest : List ℕ) → IsTrue (is_number_text number) → text.now ≢ number ++ 34 ∷ rest)
        (λ rest. IsNumberThen text.now rest.now) }
{
    let Some((number, rest)) = text.split_once('"') else {
        return None;
    };
    if is_number(number) { Some(rest) } else { None }
}

/// Whether a text is a number in base64url, of 1 to 4096 characters.
pub fn is_number(text: &str) -> bool
    ensures { result ≡ is_number_text text.now }
{
    is_number_len(text.len()) && has_base64url_bytes(text)
}

// Whether a number may have this many characters.
fn is_number_len(len: usize) -> bool
    ensures { result ≡ is_in_range 1 4096 len }
{
    (1..=4096).contains(&len)
}

// Whether a byte is a character of base64url.
fn is_base64url_byte(byte: u8) -> bool
    ensures { result ≡ is_base64url_byte byte }
{
    byte.is_ascii_alphanumeric() || byte == b'-' || byte == b'_'
}

/// Whether each character of a text is one of base64url (RFC 4648, 5).
pub fn has_base64url_bytes(text: &str) -> bool
    ensures { result ≡ list_all is_base64url_byte text.now }
{
    text.bytes().all(is_base64url_byte)
}
