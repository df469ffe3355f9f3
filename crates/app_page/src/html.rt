//! Texts within HTML.
ghost use Rattle.std.specs.Prelude.{◌≡◌, ◌++◌, IfOk, OnOk};
ghost use Rattle.std.specs.Io.KnownBytes.{Appends};
ghost use Rattle.app_page.specs.Html.{escape, escaped};

use app_reports::push_visible;
use std::alloc::{AllocError, Global};
use std::io::{self, Write};

/// Writes a text as it stands.
pub(crate) fn write_text<W: Write>(out: &mut W, text: &str) -> io::Result<()>
    ensures { OnOk result (Appends (W.contents out.old) (W.contents out.new) text.now) }
{
    out.write_all(text.as_bytes())
}

/// Writes a text of a client so that HTML shows it in visible ASCII, within an element and within an attribute in quotes.
pub(crate) fn write_escaped<W: Write>(alloc: Global, out: &mut W, text: &str) -> io::Result<()>
    ensures { OnOk result (Appends (W.contents out.old) (W.contents out.new) (escaped text.now)) }
{
    let bytes = escape_all(alloc, text)?;
    out.write_all(&bytes)
}

// The bytes of a text, each character as HTML spells it.
fn escape_all(alloc: Global, text: &str) -> Result<Vec<u8>, AllocError>
    ensures { IfOk result (λ bytes. bytes.items ≡ escaped text.now) }
{
    let mut bytes = Vec::new(alloc);
    for c in text.chars() {
        push_escaped(&mut bytes, c)?;
    }
    Ok(bytes)
}

// Puts a character, or what stands for it.
fn push_escaped(bytes: &mut Vec<u8>, c: char) -> Result<(), AllocError>
    ensures { OnOk result (bytes.new.items ≡ bytes.old.items ++ escape c) }
{
    if c == '&' {
        return bytes.extend_from_slice(b"&amp;");
    }
    if c == '<' {
        return bytes.extend_from_slice(b"&lt;");
    }
    if c == '>' {
        return bytes.extend_from_slice(b"&gt;");
    }
    if c == '"' {
        return bytes.extend_from_slice(b"&quot;");
    }
    if c == '\'' {
        return bytes.extend_from_slice(b"&#39;");
    }
    if c == '\\' {
        return bytes.extend_from_slice(b"\\\\");
    }
    push_visible(bytes, c)
}
