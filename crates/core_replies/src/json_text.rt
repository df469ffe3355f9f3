//! The text of a JSON value, written from its beginning to its end (RFC 8259): members of objects, values of lists.
ghost use Rattle.std.specs.Prelude.{◌≡◌, ◌∷◌, ◌++◌, [], IfOk, OnOk, List, ℕ, decimal, string_bytes, true, IsTrue, codes};
ghost use Rattle.json.specs.{Lex.tokens, Print.print};
ghost use Rattle.json.specs.Token.{Token as JsonToken, begin_array, begin_object, end_array, end_object, key};
ghost use Rattle.serde_json.specs.Data.{boolean, number, string, unsigned, Data};
ghost use Rattle.core_replies.specs.Texts.{HasMembers, HasValues, AreInOrder, IsText};
ghost use Rattle.desk_model.specs.Document.{error, identifier};
ghost use Rattle.desk_model.specs.Json.{document, list};
ghost use Rattle.desk_model.specs.Plain.{is_document};
ghost use Rattle.core_replies.specs.Shown.{error_members};
ghost use Rattle.std.specs.List.{flat_map};

use desk_book::{Row, Table};
use desk_model::{DNS, Document};
use json::Writer;
use json_texts::type_text;
use std::alloc::{AllocError, Global};
use std::marker::Model;

// How many bytes of a text are set aside at its beginning.
const ROOM: usize = 512;

/// The text of a JSON value as far as it is written, which contracts see as its tokens.
#[derive(Drop)]
pub(crate) struct JsonText {
    alloc: Global,
    writer: Writer,
}

impl Model for JsonText {
    ghost use Rattle.std.specs.Prelude.{List};
    ghost use Rattle.json.specs.Token.{Token, tokens_code};

    ghost Value = { List Token };

    ghost coded = { tokens_code };

    ghost use Rattle.std.specs.Prelude.{◌≡◌, []};

    ghost view = { λ t. t.writer.tokens };

    ghost invariant = { λ t. t.writer.before ≡ [] };
}

impl JsonText {
    /// A text of which nothing is written.
    pub(crate) fn new(alloc: Global) -> Result<JsonText, AllocError>
        ensures { IfOk result (λ t. t ≡ []) }
    {
        let writer = Writer::new(Vec::with_capacity(alloc, ROOM)?);
        Ok(JsonText { alloc, writer })
    }

    /// What the text grows by.
    pub(crate) fn alloc(&self) -> Global {
        self.alloc
    }

    /// The text of all that was written.
    pub(crate) fn into_string(self) -> String
        ensures text { string_bytes result ≡ print self }
        ensures reads_back { tokens (print self) ≡ self }
    {
        let JsonText { alloc: _, writer } = self;
        match String::from_utf8(writer.into_inner()) {
            Ok(text) => text,
            Err(_) => unreachable!(),
        }
    }

    /// Begins an object.
    pub(crate) fn begin_object(&mut self) -> Result<(), AllocError>
        ensures { OnOk result (self.new ≡ self.old ++ begin_object ∷ []) }
    {
        self.writer.begin_object()
    }

    /// Ends an object.
    pub(crate) fn end_object(&mut self) -> Result<(), AllocError>
        ensures { OnOk result (self.new ≡ self.old ++ end_object ∷ []) }
    {
        self.writer.end_object()
    }

    /// Begins a list.
    pub(crate) fn begin_list(&mut self) -> Result<(), AllocError>
        ensures { OnOk result (self.new ≡ self.old ++ begin_array ∷ []) }
    {
        self.writer.begin_array()
    }

    /// Ends a list.
    pub(crate) fn end_list(&mut self) -> Result<(), AllocError>
        ensures { OnOk result (self.new ≡ self.old ++ end_array ∷ []) }
    {
        self.writer.end_array()
    }

    /// Writes the name of a member, whose value follows.
    pub(crate) fn name(&mut self, name: &str) -> Result<(), AllocError>
        ensures { OnOk result (self.new ≡ self.old ++ key name.now ∷ []) }
    {
        self.writer.key(name)
    }

    // Writes the token of a string.
    fn string_token(&mut self, text: &str) -> Result<(), AllocError>
        ensures { OnOk result (self.new ≡ self.old ++ JsonToken.string text.now ∷ []) }
    {
        self.writer.string(text)
    }

    // Writes the token of a number.
    fn number_token(&mut self, value: u64) -> Result<(), AllocError>
        ensures { OnOk result (self.new ≡ self.old ++ JsonToken.number (decimal value) ∷ []) }
    {
        self.writer.u64(value)
    }

    // Writes the token that is true.
    fn true_token(&mut self) -> Result<(), AllocError>
        ensures { OnOk result (self.new ≡ self.old ++ JsonToken.boolean true ∷ []) }
    {
        self.writer.token(json::Token::Bool(true))
    }

    /// Writes a string.
    pub(crate) fn string(&mut self, text: &str) -> Result<(), AllocError>
        ensures { OnOk result (HasValues self.old self.new (string text.now ∷ [])) }
    {
        self.string_token(text)
    }

    /// Writes a member that is a string.
    pub(crate) fn member(&mut self, name: &str, text: &str) -> Result<(), AllocError>
        ensures { OnOk result (HasMembers self.old self.new ((name.now, string text.now) ∷ [])) }
    {
        self.name(name)?;
        self.string_token(text)
    }

    /// Writes a member that is a number.
    pub(crate) fn number_member(&mut self, name: &str, value: u64) -> Result<(), AllocError>
        ensures { OnOk result (HasMembers self.old self.new ((name.now, number (unsigned value)) ∷ [])) }
    {
        self.name(name)?;
        self.number_token(value)
    }

    /// Writes a member that is true.
    pub(crate) fn true_member(&mut self, name: &str) -> Result<(), AllocError>
        ensures { OnOk result (HasMembers self.old self.new ((name.now, boolean true) ∷ [])) }
    {
        self.name(name)?;
        self.true_token()
    }
}

// ---- objects by their members: identifiers and errors (RFC 8555, 6.7, 7.1)

/// What a JSON object shows, by what else it is told.
pub(crate) trait ShowsObject<C> {
    // The members.
    ghost members: { C → Self → List (List ℕ × Data) };

    /// Writes its members, in the order of their names.
    fn write_members(&self, text: &mut JsonText, by: &C) -> Result<(), AllocError>
        ensures written { OnOk result (HasMembers text.old text.new (members by.now self.now)) }
        ensures in_order { OnOk result (AreInOrder (members by.now self.now)) };
}

/// Writes the object that something shows.
pub(crate) fn write_object<C, T: ShowsObject<C>>(
    text: &mut JsonText,
    shown: &T,
    by: &C,
) -> Result<(), AllocError>
    ensures { OnOk result (HasValues text.old text.new (document (T.members by.now shown.now) ∷ [])) }
{
    text.begin_object()?;
    shown.write_members(text, by)?;
    text.end_object()
}

/// The document that something shows.
pub(crate) fn shown_document<C, T: ShowsObject<C>>(
    alloc: Global,
    shown: &T,
    by: &C,
) -> Result<Document, AllocError>
    requires { IsTrue (is_document (document (T.members by.now shown.now))) }
    ensures { IfOk result (λ d. d ≡ document (T.members by.now shown.now)) }
{
    let mut text = JsonText::new(alloc)?;
    write_object(&mut text, shown, by)?;
    Ok(document_of(text))
}

// The document of a text that was written as a whole.
fn document_of(text: JsonText) -> Document
    requires { (d : Data) × IsText text d }
    ensures { (d : Data) → IsText text d → result ≡ d }
{
    Document::of_text(text.into_string())
}

/// Writes an identifier with its text (RFC 8555, 7.1.3).
pub(crate) fn write_identifier(text: &mut JsonText, value: &str) -> Result<(), AllocError>
    ensures { OnOk result (HasValues text.old text.new (identifier value.now ∷ [])) }
{
    text.begin_object()?;
    text.member("type", DNS)?;
    text.member("value", value)?;
    text.end_object()
}

/// Writes a member `error`: its type without the prefix, a text for people, and a status (RFC 8555, 6.7).
pub(crate) fn write_error(
    text: &mut JsonText,
    kind: &str,
    detail: &str,
    status: u16,
) -> Result<(), AllocError>
    ensures { OnOk result (HasMembers text.old text.new ((codes "error", error kind.now detail.now status) ∷ [])) }
{
    text.name("error")?;
    text.begin_object()?;
    write_error_members(text, kind, detail, status)?;
    text.end_object()
}

// Writes the members of an error.
fn write_error_members(
    text: &mut JsonText,
    kind: &str,
    detail: &str,
    status: u16,
) -> Result<(), AllocError>
    ensures { OnOk result (HasMembers text.old text.new (error_members kind.now detail.now status)) }
{
    text.member("detail", detail)?;
    text.number_member("status", u64::from(status))?;
    let kind = type_text(text.alloc(), kind)?;
    text.member("type", &kind)
}

// ---- lists of what the items of a slice, or the rows of a table, show

/// What shows values in a list, by what else the list knows.
pub(crate) trait ListItem<C> {
    // The values.
    ghost values: { C → Self → List Data };

    /// Writes the values.
    fn write_shown(&self, text: &mut JsonText, by: &C) -> Result<(), AllocError>
        ensures { OnOk result (HasValues text.old text.new (values by.now self.now)) };
}

/// Writes what each item shows.
pub(crate) fn write_each<C, T: ListItem<C>>(
    text: &mut JsonText,
    items: &[T],
    by: &C,
) -> Result<(), AllocError>
    ensures { OnOk result (HasValues text.old text.new (flat_map (T.values by.now) items.now)) }
{
    for item in items {
        item.write_shown(text, by)?;
    }
    Ok(())
}

/// Writes a member that is the list of what the items show.
pub(crate) fn write_list<C, T: ListItem<C>>(
    text: &mut JsonText,
    name: &str,
    items: &[T],
    by: &C,
) -> Result<(), AllocError>
    ensures { OnOk result (HasMembers text.old text.new ((name.now, list (flat_map (T.values by.now) items.now)) ∷ [])) }
{
    text.name(name)?;
    text.begin_list()?;
    write_each(text, items, by)?;
    text.end_list()
}

// Writes what the rows of a table show.
fn write_rows<C, R: Row + Drop + ListItem<C>>(
    text: &mut JsonText,
    rows: &Table<R>,
    by: &C,
) -> Result<(), AllocError>
    ensures { OnOk result (HasValues text.old text.new (flat_map (R.values by.now) rows.now)) }
{
    for row in rows.iter() {
        row.write_shown(text, by)?;
    }
    Ok(())
}

// Writes an object whose one member is the list of what the rows of a table show.
fn write_listing<C, R: Row + Drop + ListItem<C>>(
    text: &mut JsonText,
    name: &str,
    rows: &Table<R>,
    by: &C,
) -> Result<(), AllocError>
    ensures { OnOk result (HasValues text.old text.new (document ((name.now, list (flat_map (R.values by.now) rows.now)) ∷ []) ∷ [])) }
{
    text.begin_object()?;
    text.name(name)?;
    text.begin_list()?;
    write_rows(text, rows, by)?;
    text.end_list()?;
    text.end_object()
}

/// The document of that object.
pub(crate) fn listing_document<C, R: Row + Drop + ListItem<C>>(
    alloc: Global,
    name: &str,
    rows: &Table<R>,
    by: &C,
) -> Result<Document, AllocError>
    requires { IsTrue (is_document (document ((name.now, list (flat_map (R.values by.now) rows.now)) ∷ []))) }
    ensures { IfOk result (λ d. d ≡ document ((name.now, list (flat_map (R.values by.now) rows.now)) ∷ [])) }
{
    let mut text = JsonText::new(alloc)?;
    write_listing(&mut text, name, rows, by)?;
    Ok(document_of(text))
}
