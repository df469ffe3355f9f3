//! The names of identifiers (RFC 8555, 7.1.3 and 7.1.4), and what those of a new order stand for.
ghost use Rattle.std.specs.Prelude.{◌≡◌, ◌==◌, ◌↔◌, ◌++◌, ◌∷◌, [], ℕ, Bool, List, None, Some, IsTrue, IfOk, nat_eq, codes, drop, if◌then◌else◌, string_bytes};
ghost use Rattle.std.specs.Prelude.{MatchResult, OnOk};
ghost use Rattle.std.specs.List.{list_any, starts_with};
ghost use Rattle.idna.specs.Errors.{Gives};
ghost use Rattle.desk_model.specs.Names.{IsNameOf, ascii_form, name_of, name_with as named_with};
ghost use Rattle.identifiers.specs.NameLaws.{FindsTheName, StandsForOneName};
ghost use Rattle.desk_model.specs.Name.{Name, same_name};
ghost use Rattle.desk_model.specs.Rules.{fault_of, kept, names_in, subproblems};

use desk_model::{DNS, DnsName, Identifier, Refusal, Subproblem, Text};
use idna::uts46::{DnsLength, Hyphens, Uts46};
use idna::{AsciiDenyList, Errors};
use std::alloc::{AllocError, Global};
use thiserror::Error;

/// Why a name was not read.
#[derive(Debug, Drop, Clone, Copy, Error)]
pub enum NameFault {
    /// The text stands for no name whose base has the form that is asked of it.
    #[error("not a name that is served")]
    Refused,
    /// A growth was refused; whether it is a name is not known.
    #[error("out of memory")]
    Memory,
}

/// The name that the text of an identifier stands for.
///
/// # Errors
///
/// `Refused` where it stands for none, `Memory` where there is no memory (RFC 8555, 7.1.3 and 7.1.4).
pub fn read_name(alloc: Global, text: &str) -> Result<DnsName, NameFault>
    ensures named { IfOk result (λ name. IsNameOf text.now name.base name.wildcard) }
    ensures refused { result ≡ Err NameFault.Refused
        → (base : List ℕ) (wildcard : Bool) → ¬ (IsNameOf text.now base wildcard) }
    ensures found { IfOk result (λ name. name_of text.now ≡ Some name) }
    ensures not_found { result ≡ Err NameFault.Refused → name_of text.now ≡ None }
{
    let (rest, wildcard) = without_mark(text);
    name_with(alloc, rest, wildcard)
}

/// A text stands for one name at most, and the function `name_of` finds it.
pub fn names_are_unique()
    ensures unique { StandsForOneName }
    ensures found { FindsTheName }
{}

// The text without the mark of a wildcard, and whether it had one.
fn without_mark(text: &str) -> (&str, bool)
    ensures { name_of text.now ≡ named_with result.1 result.0.now }
{
    match text.strip_prefix("*.") {
        Some(rest) => (rest, true),
        None => (text, false),
    }
}

// The name with this rest behind its mark.
fn name_with(alloc: Global, rest: &str, wildcard: bool) -> Result<DnsName, NameFault>
    ensures found { IfOk result (λ name. named_with wildcard rest.now ≡ Some name) }
    ensures not_found { result ≡ Err NameFault.Refused → named_with wildcard rest.now ≡ None }
{
    if has_star(rest) {
        return Err(NameFault::Refused);
    }
    match to_ascii(alloc, rest) {
        Ok(base) => DnsName::new(Text::new(base), wildcard).ok_or(NameFault::Refused),
        Err(Errors::Invalid) => Err(NameFault::Refused),
        Err(Errors::OutOfMemory) => Err(NameFault::Memory),
    }
}

// Whether an asterisk stands in the text.
fn has_star(text: &str) -> bool
    ensures { result ≡ list_any (λ c. c == 42) text.now }
{
    text.bytes().any(|b| b == b'*')
}

// The text in ASCII, with an empty deny list, hyphens allowed and DNS lengths unchecked (UTS 46).
fn to_ascii(alloc: Global, rest: &str) -> Result<String, Errors>
    ensures { Gives string_bytes result (ascii_form rest.now) }
{
    let name = Uts46::new().to_ascii(
        alloc,
        rest.as_bytes(),
        AsciiDenyList::EMPTY,
        Hyphens::Allow,
        DnsLength::Ignore,
    )?;
    Ok(name.into_owned(alloc)?)
}

// ---- what the identifiers of a new order stand for (RFC 8555, 7.4)

/// The names that identifiers stand for, those that are equal in their first place, and a subproblem for each that is
/// faulty, both in order.
#[derive(Drop)]
pub(crate) struct Identified {
    /// The names, each once.
    pub(crate) names: Vec<DnsName>,
    /// Why identifiers are refused.
    pub(crate) faulty: Vec<Subproblem>,
}

// The name that an identifier stands for, or why it is refused.
fn name_in(alloc: Global, identifier: &Identifier) -> Result<Result<DnsName, Refusal>, AllocError>
    ensures named { IfOk result (λ read. IfOk read (λ name. name_of identifier.now.value ≡ Some name)) }
    ensures faulty { IfOk result (λ read. MatchResult read (λ _. fault_of identifier.now ≡ None) (λ why. fault_of identifier.now ≡ Some why)) }
{
    if identifier.kind.as_str() != DNS {
        return Ok(Err(Refusal::UnsupportedIdentifier));
    }
    match read_name(alloc, identifier.value.as_str()) {
        Ok(name) => Ok(Ok(name)),
        Err(NameFault::Refused) => Ok(Err(Refusal::RejectedIdentifier)),
        Err(NameFault::Memory) => Err(AllocError),
    }
}

// A faulty identifier, with its type and value as received.
fn subproblem(identifier: &Identifier, refusal: Refusal) -> Result<Subproblem, AllocError>
    ensures { IfOk result (λ s. s ≡ record { refusal = refusal; kind = identifier.now.kind; value = identifier.now.value }) }
{
    Ok(Subproblem {
        refusal,
        kind: identifier.kind.clone()?,
        value: identifier.value.clone()?,
    })
}

// Whether a name is among those that were kept.
fn has_name(names: &[DnsName], name: &DnsName) -> bool
    ensures { result ≡ list_any (λ other. same_name other name.now) names.now }
{
    names.iter().any(|other| other.is_same(name))
}

// Adds a name, unless it is among those that were kept.
fn keep_name(names: &mut Vec<DnsName>, name: DnsName) -> Result<(), AllocError>
    ensures { OnOk result ((before : List Name) → names.old.items ≡ kept before → names.new.items ≡ kept (before ++ name ∷ [])) }
{
    if has_name(names.as_slice(), &name) {
        return Ok(());
    }
    names.push(name)?;
    Ok(())
}

// Reads identifiers, each once, into what was read before.
fn read_each(
    alloc: Global,
    identifiers: &[Identifier],
    read: &mut Identified,
) -> Result<(), AllocError>
    ensures { OnOk result (read.old.names.items ≡ [] → read.old.faulty.items ≡ [] → (read.new.faulty.items ≡ subproblems identifiers.now)
        × (read.new.faulty.items ≡ [] → read.new.names.items ≡ kept (names_in identifiers.now))) }
{
    for identifier in identifiers {
        match name_in(alloc, identifier)? {
            Ok(name) => keep_name(&mut read.names, name)?,
            Err(refusal) => read.faulty.push(subproblem(identifier, refusal)?)?,
        }
    }
    Ok(())
}

/// Reads identifiers, each once; the names are those of all where none is faulty.
///
/// # Errors
///
/// Where there is no memory for them.
pub(crate) fn identify(alloc: Global, identifiers: &[Identifier]) -> Result<Identified, AllocError>
    ensures faulty { IfOk result (λ read. read.faulty.items ≡ subproblems identifiers.now) }
    ensures named { IfOk result (λ read. read.faulty.items ≡ [] → read.names.items ≡ kept (names_in identifiers.now)) }
{
    let mut read = Identified {
        names: Vec::new(alloc),
        faulty: Vec::new(alloc),
    };
    read_each(alloc, identifiers, &mut read)?;
    Ok(read)
}
