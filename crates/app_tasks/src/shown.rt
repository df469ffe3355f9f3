//! How what came from outside is shown.
use std::fmt;

/// A path as a line has it, so that the line does not end in it, and no terminal obeys it or turns it round: in visible ASCII, each
/// other character escaped as JSON does it (RFC 8259, 7). Nothing is allocated, since a refused growth is told so, too.
#[derive(Clone, Copy)]
pub struct Visible<'a>(pub &'a str);

impl fmt::Display for Visible<'_> {
    fn fmt<W: fmt::Write>(&self, f: &mut fmt::Formatter<W>) -> fmt::Result {
        for character in self.0.chars() {
            write_visible(f, character)?;
        }
        Ok(())
    }
}

/// A text of lines so, but for their ends.
#[derive(Clone, Copy)]
pub struct VisibleLines<'a>(pub &'a str);

impl fmt::Display for VisibleLines<'_> {
    fn fmt<W: fmt::Write>(&self, f: &mut fmt::Formatter<W>) -> fmt::Result {
        for character in self.0.chars() {
            if character == '\n' {
                f.write_char(character)?;
            } else {
                write_visible(f, character)?;
            }
        }
        Ok(())
    }
}

// Writes a character, or the escapes of its units in UTF-16.
fn write_visible<W: fmt::Write>(f: &mut fmt::Formatter<W>, character: char) -> fmt::Result {
    let code = character as u32;
    if code > 31 && code < 127 {
        return f.write_char(character);
    }
    if code < 0x1_0000 {
        return write!(f, "\\u{code:04x}");
    }
    let over = code - 0x1_0000;
    let (high, low) = (0xD800 + over / 0x400, 0xDC00 + over % 0x400);
    write!(f, "\\u{high:04x}\\u{low:04x}")
}
