//! Texts of tags in which neither a line nor a field ends.
ghost use Rattle.std.specs.Prelude.{◌≡◌, ◌<◌, ◌++◌, IfOk, OnOk, string_bytes};
ghost use Rattle.hir_input.specs.Id.{hex_digit as hex_digit_of};
ghost use Rattle.source_tags.specs.TagFields as spec;

use std::alloc::{AllocError, Global};

/// A digit of a number in hexadecimal.
fn hex_digit(value: u8) -> char
    requires { value < 16 }
    ensures value { result ≡ hex_digit_of value }
    ensures ascii { result < 128 }
{
    if value < 10 {
        (b'0' + value) as char
    } else {
        (b'A' + (value - 10)) as char
    }
}

/// What stands behind a backslash for a control character or a backslash.
fn push_escaped(byte: u8, out: &mut String) -> Result<(), AllocError>
    ensures { OnOk result (string_bytes out.new ≡ string_bytes out.old ++ spec.escaped_text byte) }
{
    match byte {
        7 => out.push_str("a"),
        8 => out.push_str("b"),
        b'\t' => out.push_str("t"),
        b'\n' => out.push_str("n"),
        11 => out.push_str("v"),
        12 => out.push_str("f"),
        b'\r' => out.push_str("r"),
        b'\\' => out.push_str("\\"),
        _ => {
            out.push_str("x")?;
            out.push(hex_digit(byte / 16))?;
            out.push(hex_digit(byte % 16))
        }
    }
}

/// A character of a path or a signature, as Universal Ctags writes it.
fn push_safe_char(c: char, out: &mut String) -> Result<(), AllocError>
    ensures { OnOk result (string_bytes out.new ≡ string_bytes out.old ++ spec.safe_char c) }
{
    match c {
        '\0'..='\x1F' | '\x7F' | '\\' => {
            out.push_str("\\")?;
            push_escaped(c as u8, out)
        }
        _ => out.push(c),
    }
}

/// A path or a signature, as Universal Ctags writes it.
pub(crate) fn safe_text(alloc: Global, text: &str) -> Result<String, AllocError>
    ensures { IfOk result (λ out. string_bytes out ≡ spec.safe_text text.now) }
{
    let mut out = String::new(alloc);
    for c in text.chars() {
        push_safe_char(c, &mut out)?;
    }
    Ok(out)
}
