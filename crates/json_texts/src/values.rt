//! The values of texts, their members, objects of strings, and lists of strings.
ghost use Rattle.std.specs.Prelude.{◌≡◌, IfOk, option_map, IfSome, Some, ◌++◌, [], ◌∷◌, map, codes, string_bytes, IsTrue};
ghost use Rattle.serde_json.specs.{Read.read, View.view};
ghost use Rattle.desk_model.specs.Keys.{text_member, text_members};
ghost use Rattle.std.specs.List.{list_all};
ghost use Rattle.json.specs.Value.{value_view};
ghost use Rattle.serde_json.specs.Data.{Data, string};
ghost use Rattle.serde_json.specs.Find.{as_str, get};
ghost use Rattle.json_texts.specs.Objects.{is_shallow, is_text, is_text_or_texts, plain_value};
ghost use Rattle.serde_json.specs.Written.{compact_text};
ghost use Rattle.serde_json.specs.View.{items_view};
ghost use Rattle.desk_model.specs.Json.{list};
ghost use Rattle.desk_model.specs.Payload.{each_in, texts_in};
ghost use Rattle.json.specs.Run.{is_plain};

use desk_model::{Sequence, Text, is_same_text};
use json::{Error, Reader, Scratch, Value as TextValue};
use serde_json::{Map, Value};
use std::alloc::{AllocError, Global};

/// The value that a text is, or `None` where it is no JSON.
///
/// # Errors
///
/// Where there is no memory for it.
pub fn value_of(alloc: Global, text: &str) -> Result<Option<Value>, AllocError>
    ensures { IfOk result (λ o. option_map view o ≡ read text.now) }
{
    // The shortest payloads are told without a reader, which clears room for itself whatever it reads.
    if is_same_text(text, "") {
        return Ok(None);
    }
    if is_same_text(text, "{}") {
        return Ok(Some(Value::Object(Map::new(alloc))));
    }
    read_value(alloc, text)
}

// The value that is read in a text.
fn read_value(alloc: Global, text: &str) -> Result<Option<Value>, AllocError>
    ensures { IfOk result (λ o. option_map view o ≡ read text.now) }
{
    match Value::from_str(alloc, text) {
        Ok(value) => Ok(Some(value)),
        Err(error) => {
            if error.is_memory() {
                Err(AllocError)
            } else {
                Ok(None)
            }
        }
    }
}

/// The string that is a value's member of this name, or `None` where it has no such string.
pub fn text_of<'v>(value: &'v Value, name: &str) -> Option<&'v str>
    ensures { option_map (λ s. s.now) result ≡ text_member name.now (view value.now) }
{
    value.get(name)?.as_str()
}

/// The two strings that are a value's members of these names, or `None` where it lacks one of them.
///
/// # Errors
///
/// Where there is no memory for them.
pub fn texts_of(
    alloc: Global,
    value: &Value,
    first: &str,
    second: &str,
) -> Result<Option<(Text, Text)>, AllocError>
    ensures { IfOk result (λ o. o ≡ text_members first.now second.now (view value.now)) }
{
    match text_of(value, first).zip(text_of(value, second)) {
        Some((first, second)) => {
            let first = Text::new(String::from_str(alloc, first)?);
            let second = Text::new(String::from_str(alloc, second)?);
            Ok(Some((first, second)))
        }
        None => Ok(None),
    }
}

// ---- objects of strings, read over their text without a map of values

// How deep arrays and objects may nest.
const MAX_DEPTH: usize = 127;

/// A JSON value, in whichever form it was read.
pub trait JsonValue {
    // The value.
    ghost meaning: { Self → Data };

    /// The member of a name, or `None` where it has none.
    fn member(&self, name: &str) -> Option<&Self>
        ensures { option_map (λ v. meaning v.now) result ≡ get name.now (meaning self.now) };

    /// The string that it is, or `None` where it is none.
    fn text(&self) -> Option<&str>
        ensures { option_map (λ s. s.now) result ≡ as_str (meaning self.now) };
}

impl JsonValue for Value {
    ghost meaning = { view };

    fn member(&self, name: &str) -> Option<&Value> {
        self.get(name)
    }

    fn text(&self) -> Option<&str> {
        self.as_str()
    }
}

// One that has neither numbers nor lists.
impl<'a> JsonValue for TextValue<'a> {
    ghost meaning = { λ v. plain_value (value_view v) };

    fn member(&self, name: &str) -> Option<&TextValue<'a>> {
        self.get(name)
    }

    fn text(&self) -> Option<&str> {
        self.as_str()
    }
}

/// The string that is a value's member of this name, or `None` where it has no such string.
pub fn text_member<'v, V: JsonValue>(value: &'v V, name: &str) -> Option<&'v str>
    ensures { option_map (λ s. s.now) result ≡ text_member name.now (V.meaning value.now) }
{
    value.member(name)?.text()
}

// Whether a value is a string.
fn is_text(value: &TextValue<'_>) -> bool
    ensures { result ≡ is_text (value_view value.now) }
{
    matches!(value, TextValue::String(_))
}

// Whether the value of a member is a string.
fn is_text_member<'a>(member: &(&'a str, TextValue<'a>)) -> bool
    ensures { result ≡ is_text (value_view member.now.1) }
{
    is_text(&member.1)
}

// Whether the values of members are strings.
fn are_texts<'a>(members: &[(&'a str, TextValue<'a>)]) -> bool
    ensures { result ≡ list_all (λ m. is_text (value_view m.1)) members.now }
{
    members.iter().all(is_text_member)
}

// Whether a value is a string, or an object of strings.
fn is_text_or_texts(value: &TextValue<'_>) -> bool
    ensures { result ≡ is_text_or_texts (value_view value.now) }
{
    match value {
        TextValue::String(_) => true,
        TextValue::Object(members) => are_texts(members.as_slice()),
        _ => false,
    }
}

// Whether the value of a member is a string, or an object of strings.
fn is_shallow_member<'a>(member: &(&'a str, TextValue<'a>)) -> bool
    ensures { result ≡ is_text_or_texts (value_view member.now.1) }
{
    is_text_or_texts(&member.1)
}

// Whether the values of members are strings or objects of strings.
fn are_shallow<'a>(members: &[(&'a str, TextValue<'a>)]) -> bool
    ensures { result ≡ list_all (λ m. is_text_or_texts (value_view m.1)) members.now }
{
    members.iter().all(is_shallow_member)
}

// Whether a value is an object of strings and of objects of strings.
fn is_shallow(value: &TextValue<'_>) -> bool
    ensures { result ≡ is_shallow (value_view value.now) }
{
    match value {
        TextValue::Object(members) => are_shallow(members.as_slice()),
        _ => false,
    }
}

/// The object that a text is, where each member is a string or an object of strings; `None` says nothing.
///
/// # Errors
///
/// Where there is no memory for it.
#[tactic(auto, using(crate::proofs::ReadObjects::whole_read))]
pub fn object_in<'a>(
    alloc: Global,
    text: &'a str,
    scratch: &'a mut Scratch,
) -> Result<Option<TextValue<'a>>, AllocError>
    ensures { IfOk result (λ o. IfSome o (λ v. read text.now ≡ Some (plain_value (value_view v)))) }
{
    let mut reader = Reader::new(text, scratch)?;
    let value = match TextValue::read(alloc, &mut reader, MAX_DEPTH) {
        Ok(value) => value,
        Err(Error::OutOfMemory) => return Err(AllocError),
        Err(_) => return Ok(None),
    };
    match reader.next() {
        None if is_shallow(&value) => Ok(Some(value)),
        _ => Ok(None),
    }
}

// ---- lists of strings, and their compact texts

/// The texts of a value, or `None` where it is no list of strings.
///
/// # Errors
///
/// Where there is no memory for them.
pub fn texts_in(alloc: Global, value: &Value) -> Result<Option<Sequence<Text>>, AllocError>
    ensures { IfOk result (λ o. o ≡ texts_in (view value.now)) }
{
    match value.as_array() {
        Some(items) => texts(alloc, items.as_slice()),
        None => Ok(None),
    }
}

// The texts of items, if each is a string.
fn texts(alloc: Global, items: &[Value]) -> Result<Option<Sequence<Text>>, AllocError>
    ensures { IfOk result (λ o. o ≡ each_in as_str (items_view items.now)) }
{
    let mut found = Vec::new(alloc);
    for item in items {
        let Some(text) = item.as_str() else {
            return Ok(None);
        };
        found.push(Text::new(String::from_str(alloc, text)?))?;
    }
    Ok(Some(Sequence::new(found)))
}

/// The list of these texts.
///
/// # Errors
///
/// Where there is no memory for it.
pub fn text_list(alloc: Global, texts: &[Text]) -> Result<Value, AllocError>
    ensures { IfOk result (λ v. view v ≡ list (map string texts.now)) }
{
    let mut items = Vec::new(alloc);
    for text in texts {
        items.push(Value::try_from_str(alloc, text.as_str())?)?;
    }
    Ok(Value::Array(items))
}

// ---- lists without white space

// Whether a byte stands in a JSON string as it is.
fn is_plain_byte(byte: u8) -> bool
    ensures { result ≡ is_plain byte }
{
    !(byte == b'"' || byte == b'\\' || byte < 32)
}

// Whether a text stands in a JSON string as it is.
fn is_plain(text: &str) -> bool
    ensures { result ≡ list_all is_plain text.now }
{
    text.bytes().all(is_plain_byte)
}

// What stands between the first quotation mark of a list and its last.
fn between_marks(written: &str) -> Option<&str>
    ensures { IfSome result (λ text. written.now ≡ codes "[\"" ++ (text.now ++ codes "\"]")) }
{
    written.strip_prefix("[\"")?.strip_suffix("\"]")
}

/// The string of a list that is written with no other and no escape, told without a reader; `None` says nothing.
pub fn lone_text(written: &str) -> Option<&str>
    ensures { IfSome result (λ text. written.now ≡ compact_text (list (map string (text.now ∷ [])))) }
{
    let text = between_marks(written)?;
    if is_plain(text) { Some(text) } else { None }
}

// The text of a list of one string that needs no escape.
fn lone_list(alloc: Global, text: &str) -> Result<String, AllocError>
    requires { IsTrue (list_all is_plain text.now) }
    ensures { IfOk result (λ s. string_bytes s ≡ compact_text (list (map string (text.now ∷ [])))) }
{
    format!(in alloc; "[\"{text}\"]")
}

// The text of a list, by its value.
#[tactic(auto, using(crate::proofs::PlainLists::no_float_in))]
fn valued_list(alloc: Global, texts: &[Text]) -> Result<String, AllocError>
    ensures { IfOk result (λ s. string_bytes s ≡ compact_text (list (map string texts.now))) }
{
    text_list(alloc, texts)?.to_string(alloc)
}

/// The compact text of the list of these texts.
///
/// # Errors
///
/// Where there is no memory for it.
pub fn written_list(alloc: Global, texts: &[Text]) -> Result<String, AllocError>
    ensures { IfOk result (λ s. string_bytes s ≡ compact_text (list (map string texts.now))) }
{
    match texts {
        [] => String::from_str(alloc, "[]"),
        [text] if is_plain(text.as_str()) => lone_list(alloc, text.as_str()),
        _ => valued_list(alloc, texts),
    }
}
