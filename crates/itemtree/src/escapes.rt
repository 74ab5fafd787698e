//! Paths as a terminal can show them.
use std::alloc::{AllocError, Global};
use std::fmt;
use std::fmt::{Display, Formatter};

/// A path, with its control characters and backslashes escaped as `ls -b` does it: `\n`, `\033`, `\\`.
#[derive(Clone, Copy, Drop)]
pub(crate) struct Shown<'a>(pub(crate) &'a str);

impl Shown<'_> {
    /// The text that is shown.
    pub(crate) fn text(self, alloc: Global) -> Result<String, AllocError> {
        format!(in alloc; "{self}")
    }
}

/// The letter by which an escape names a character, if one does.
fn letter(c: char) -> Option<char> {
    match c {
        '\\' => Some('\\'),
        '\n' => Some('n'),
        '\r' => Some('r'),
        '\t' => Some('t'),
        '\u{7}' => Some('a'),
        '\u{8}' => Some('b'),
        '\u{b}' => Some('v'),
        '\u{c}' => Some('f'),
        _ => None,
    }
}

/// Writes the bytes of a control character in octal.
fn write_octal<W: fmt::Write>(c: char, f: &mut Formatter<W>) -> fmt::Result {
    if !c.is_ascii() {
        // (from U+0080 to U+009F)
        f.write_str("\\302")?;
    }
    write!(f, "\\{:03o}", u32::from(c))
}

impl Display for Shown<'_> {
    fn fmt<W: fmt::Write>(&self, f: &mut Formatter<W>) -> fmt::Result {
        for c in self.0.chars() {
            if let Some(letter) = letter(c) {
                f.write_char('\\')?;
                f.write_char(letter)?;
            } else if c.is_control() {
                write_octal(c, f)?;
            } else {
                f.write_char(c)?;
            }
        }
        Ok(())
    }
}
