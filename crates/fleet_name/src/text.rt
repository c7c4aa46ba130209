//! The text of a name, with the escapes of master files (RFC 1035 5.1). It is for reading: `"`, `;`,
//! `(`, `)`, `@` and `$` are not escaped.

ghost use Rattle.std.specs.Prelude.{◌≡◌, ◌++◌, ◌∷◌, [], OnOk};
ghost use Rattle.std.specs.String.{string_bytes};
ghost use Rattle.fleet_name.specs.Text.{digits, octet_text, label_text};

use std::alloc::{AllocError, Allocator};

/// Adds an octet as a backslash and three decimal digits (RFC 1035 5.1).
fn push_digits<A: Allocator>(text: &mut String<A>, octet: u8) -> Result<(), AllocError>
    ensures { OnOk result (string_bytes text.new ≡ string_bytes text.old ++ digits octet) }
{
    text.push('\\')?;
    text.push(char::from(b'0' + octet / 100))?;
    text.push(char::from(b'0' + octet / 10 % 10))?;
    text.push(char::from(b'0' + octet % 10))
}

/// Adds an octet of a label: a dot and a backslash after a backslash, one outside 33 to 126 as
/// digits.
fn push_octet<A: Allocator>(text: &mut String<A>, octet: u8) -> Result<(), AllocError>
    ensures { OnOk result (string_bytes text.new ≡ string_bytes text.old ++ octet_text octet) }
{
    if octet == b'.' || octet == b'\\' {
        text.push('\\')?;
        return text.push(char::from(octet));
    }
    if octet >= 33 && octet <= 126 {
        return text.push(char::from(octet));
    }
    push_digits(text, octet)
}

/// Adds the text of a label, and a dot.
pub(crate) fn push_label<A: Allocator>(text: &mut String<A>, label: &[u8]) -> Result<(), AllocError>
    ensures { OnOk result (string_bytes text.new ≡ string_bytes text.old ++ label_text label.now) }
{
    for octet in label {
        push_octet(text, *octet)?;
    }
    text.push('.')
}
