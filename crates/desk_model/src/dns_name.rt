//! Domain names of identifiers.
ghost use Rattle.std.specs.Prelude.{◌≡◌, ◌==◌, ◌&&◌, ◌||◌, ◌-◌, ℕ, not, true, false, nat_le, length, slice_index, IsTrue, IfOk, MatchOption, string_bytes};
ghost use Rattle.std.specs.{Int.is_in_range, List.list_all, Char.is_ascii_digit};
ghost use Rattle.desk_model.specs.{Authorization.kinds_of, Name.same_name, Names.shown_name};
ghost use Rattle.desk_model.specs.BaseName.{is_base_name, is_label, is_label_byte, labels_of, last_label};

use crate::sequence::Text;
use crate::status::Kind;
use std::alloc::{AllocError, Global};
use std::marker::Model;

/// A domain name as an order asks for it (RFC 8555, 7.1.3): a base name, and whether `*.` stands before it.
#[derive(Drop)]
pub struct DnsName {
    base: Text,
    wildcard: bool,
}

impl Model for DnsName {
    ghost use Rattle.std.specs.Prelude.{IsTrue};
    ghost use Rattle.desk_model.specs.{Name.Name, BaseName.is_base_name};

    ghost Value = { Name };

    ghost view = { λ n. record { base = n.base; wildcard = n.wildcard } };

    ghost invariant = { λ n. IsTrue (is_base_name n.base) };

    ghost inverse = { λ n. record { base = n.base; wildcard = n.wildcard } };
}

impl DnsName {
    /// The name with this base, or `None` where the base is not well formed.
    pub fn new(base: Text, wildcard: bool) -> Option<DnsName>
        ensures { MatchOption result (is_base_name base ≡ false)
            (λ name. (is_base_name base ≡ true) × (name ≡ record { base = base; wildcard = wildcard })) }
    {
        if is_well_formed(base.as_str()) {
            Some(DnsName { base, wildcard })
        } else {
            None
        }
    }

    /// The base name.
    pub fn base(&self) -> &str
        ensures base { result.now ≡ self.now.base }
        ensures well_formed { IsTrue (is_base_name self.now.base) }
    {
        self.base.as_str()
    }

    /// Whether `*.` stands before the base name.
    pub fn is_wildcard(&self) -> bool
        ensures { result ≡ self.now.wildcard }
    {
        self.wildcard
    }

    /// Whether it is the same name as another.
    pub fn is_same(&self, other: &DnsName) -> bool
        ensures { result ≡ same_name self.now other.now }
    {
        self.base() == other.base() && self.wildcard == other.wildcard
    }

    /// The types of the challenges that its authorization gets, in the order of their making: a wildcard name is tried by
    /// DNS alone (RFC 8555, 8.4).
    pub fn kinds(&self) -> &'static [Kind]
        ensures { result.now ≡ kinds_of self.now }
    {
        if self.wildcard {
            &[Kind::Dns01]
        } else {
            &[Kind::Http01, Kind::Dns01]
        }
    }

    /// The canonical text of the name.
    ///
    /// # Errors
    ///
    /// Where there is no memory for it.
    pub fn shown(&self, alloc: Global) -> Result<String, AllocError>
        ensures { IfOk result (λ text. string_bytes text ≡ shown_name self.now) }
    {
        let mut text = String::new(alloc);
        if self.wildcard {
            text.push_str("*.")?;
        }
        text.push_str(self.base.as_str())?;
        Ok(text)
    }
}

impl Clone for DnsName {
    ghost is_clone = { λ name copy. copy ≡ name };

    fn clone(&self) -> Result<DnsName, AllocError> {
        let base = self.base.clone()?;
        Ok(DnsName {
            base,
            wildcard: self.wildcard,
        })
    }
}

/// Whether a text has the form of a base name: two labels or more, 253 bytes at most, and a last label that is
/// not all digits.
pub fn is_well_formed(name: &str) -> bool
    ensures { result ≡ is_base_name name.now }
{
    name.len() <= 253 && has_labels(name) && has_top_label(name)
}

// Whether each part between full stops is a label.
fn has_labels(name: &str) -> bool
    ensures { result ≡ list_all is_label (labels_of name.now) }
{
    name.split('.').all(is_allowed_label)
}

// Whether there are two parts or more, of which the last one is not all digits.
#[tactic(auto, using(crate::proofs::Labels::last_full_stop, crate::proofs::Labels::no_full_stop))]
fn has_top_label(name: &str) -> bool
    ensures { result ≡ (nat_le 2 (length (labels_of name.now)) && not (list_all is_ascii_digit (last_label name.now))) }
{
    match name.rsplit_once('.') {
        Some((_, last)) => !is_all_digits(last),
        None => false,
    }
}

// Whether each byte is a digit.
fn is_all_digits(label: &str) -> bool
    ensures { result ≡ list_all is_ascii_digit label.now }
{
    label.bytes().all(|b| b.is_ascii_digit())
}

// Whether the part is a label.
fn is_allowed_label(label: &str) -> bool
    ensures { result ≡ is_label label.now }
{
    is_label_len(label.len()) && has_label_bytes(label) && !has_outer_hyphen(label.as_bytes())
}

// Whether a label may have this many bytes.
fn is_label_len(len: usize) -> bool
    ensures { result ≡ is_in_range 1 63 len }
{
    (1..=63).contains(&len)
}

// Whether a byte may stand in a label.
fn is_label_byte(byte: u8) -> bool
    ensures { result ≡ is_label_byte byte }
{
    byte.is_ascii_lowercase() || byte.is_ascii_digit() || byte == b'-'
}

// Whether each byte may stand in a label.
fn has_label_bytes(label: &str) -> bool
    ensures { result ≡ list_all is_label_byte label.now }
{
    label.bytes().all(is_label_byte)
}

// Whether a hyphen stands at an end.
fn has_outer_hyphen(label: &[u8]) -> bool
    ensures { result ≡ (slice_index label.now 0 == 45 || slice_index label.now (length label.now - 1) == 45) }
{
    label.first() == Some(&b'-') || label.last() == Some(&b'-')
}
