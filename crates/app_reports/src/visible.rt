//! Texts in the visible characters of ASCII.
ghost use Rattle.std.specs.Prelude.{◌≡◌, ◌<◌, ◌++◌, IfOk, OnOk};
ghost use Rattle.std.specs.Char.{digit_char};
ghost use Rattle.app_reports.specs.Visible.{unit_escape, visible, visible_char};

use std::alloc::{AllocError, Global};

/// The bytes of a text in visible ASCII: each other character is escaped as JSON does it (RFC 8259, 7).
///
/// # Errors
///
/// Where a growth was refused.
pub(crate) fn visible_text(alloc: Global, text: &str) -> Result<Vec<u8>, AllocError>
    ensures { IfOk result (λ bytes. bytes.items ≡ visible text.now) }
{
    let mut bytes = Vec::new(alloc);
    for c in text.chars() {
        push_visible(&mut bytes, c)?;
    }
    Ok(bytes)
}

/// Puts a character, or the escapes of its units in UTF-16.
///
/// # Errors
///
/// Where a growth was refused.
pub fn push_visible(bytes: &mut Vec<u8>, c: char) -> Result<(), AllocError>
    ensures { OnOk result (bytes.new.items ≡ bytes.old.items ++ visible_char c) }
{
    let code = c as u32;
    if code > 31 && code < 127 {
        bytes.push(code as u8)?;
        return Ok(());
    }
    if code < 0x1_0000 {
        return push_unit(bytes, code);
    }
    let over = code - 0x1_0000;
    push_unit(bytes, 0xD800 + over / 0x400)?;
    push_unit(bytes, 0xDC00 + over % 0x400)
}

// Puts the escape of a unit of UTF-16.
fn push_unit(bytes: &mut Vec<u8>, unit: u32) -> Result<(), AllocError>
    requires { unit < 65536 }
    ensures { OnOk result (bytes.new.items ≡ bytes.old.items ++ unit_escape unit) }
{
    bytes.extend_from_slice(&[
        b'\\',
        b'u',
        digit(unit / 4096),
        digit(unit / 256 % 16),
        digit(unit / 16 % 16),
        digit(unit % 16),
    ])
}

// A digit of a hexadecimal number.
fn digit(value: u32) -> u8
    requires { value < 16 }
    ensures { result ≡ digit_char value }
{
    if value < 10 {
        b'0' + value as u8
    } else {
        b'a' - 10 + value as u8
    }
}
