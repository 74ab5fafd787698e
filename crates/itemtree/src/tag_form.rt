//! The form of tags, as a command line asks for it.
use crate::failure::Failure;
use itemtree_options::Command;
use source_tags::{Address, TagFields, TagForm, usual_fields};
use std::alloc::{AllocError, Global};

/// What Universal Ctags calls fields in braces, with their letters.
const LETTERS: [(&str, &str); 17] = [
    ("{access}", "a"),
    ("{compact}", "C"),
    ("{end}", "e"),
    ("{epoch}", "T"),
    ("{extras}", "E"),
    ("{file}", "f"),
    ("{implementation}", "m"),
    ("{inherits}", "i"),
    ("{input}", "F"),
    ("{language}", "l"),
    ("{line}", "n"),
    ("{name}", "N"),
    ("{nth}", "o"),
    ("{pattern}", "P"),
    ("{signature}", "S"),
    ("{typeref}", "t"),
    ("{xpath}", "x"),
];

/// The letters of fields that are given by letters and by names.
fn letters_of(alloc: Global, fields: &str) -> Result<String, AllocError> {
    let mut letters = String::from_str(alloc, fields)?;
    for (name, letter) in LETTERS {
        letters = letters.replace(alloc, name, letter)?;
    }
    Ok(letters)
}

/// All fields, or none.
fn all_fields(is_asked: bool) -> TagFields {
    TagFields {
        has_kind: is_asked,
        has_line: is_asked,
        has_language: is_asked,
        has_scope: is_asked,
        has_access: is_asked,
        has_signature: is_asked,
        has_end: is_asked,
    }
}

/// Fields that are read letter by letter.
#[derive(Drop)]
struct FieldReader {
    fields: TagFields,
    /// Whether the next letters ask for their fields, or take them away.
    is_asked: bool,
    /// The first letter of no field.
    fault: Option<char>,
}

impl FieldReader {
    /// Begins with the usual fields where a sign comes first, and else with none, or with all behind a star.
    fn new(letters: &str, usual: TagFields) -> Self {
        let is_beside = letters.starts_with("+") || letters.starts_with("-");
        FieldReader {
            fields: if is_beside {
                usual
            } else {
                all_fields(letters.starts_with("*"))
            },
            is_asked: true,
            fault: None,
        }
    }

    /// Takes a sign or a letter. Those that say nothing of Rust in Universal Ctags say nothing here.
    fn take(&mut self, letter: char) {
        match letter {
            '+' => self.is_asked = true,
            '-' => self.is_asked = false,
            'k' => self.fields.has_kind = self.is_asked,
            'n' => self.fields.has_line = self.is_asked,
            'l' => self.fields.has_language = self.is_asked,
            's' => self.fields.has_scope = self.is_asked,
            'a' => self.fields.has_access = self.is_asked,
            'S' => self.fields.has_signature = self.is_asked,
            'e' => self.fields.has_end = self.is_asked,
            'C' | 'E' | 'F' | 'N' | 'P' | 'R' | 'T' | 'f' | 'i' | 'm' | 'o' | 'p' | 't' | 'x' => {}
            _ => self.fault = self.fault.or(Some(letter)),
        }
    }
}

/// The fields that letters and names ask for, or the first letter of no field.
fn asked_fields(
    alloc: Global,
    fields: &str,
    usual: TagFields,
) -> Result<Result<TagFields, char>, AllocError> {
    let letters = letters_of(alloc, fields)?;
    let mut reader = FieldReader::new(&letters, usual);
    for letter in letters.strip_prefix("*").unwrap_or(&letters).chars() {
        reader.take(letter);
    }
    match reader.fault {
        Some(letter) => Ok(Err(letter)),
        None => Ok(Ok(reader.fields)),
    }
}

/// The form that a command line asks for; of another command, the usual one.
pub(crate) fn form_of(alloc: Global, command: Command<'_>) -> Result<TagForm, Failure> {
    let (excmd, fields) = match command {
        Command::Tags { excmd, fields, .. } => (excmd, fields),
        _ => ("pattern", None),
    };
    let address = match excmd {
        "number" => Address::Number,
        _ => Address::Pattern,
    };
    let usual = usual_fields(address);
    let Some(fields) = fields else {
        return Ok(TagForm {
            address,
            fields: usual,
        });
    };
    match asked_fields(alloc, fields, usual)? {
        Ok(fields) => Ok(TagForm { address, fields }),
        Err(letter) => Err(Failure::Usage(format!(in alloc;
            "--fields '{fields}': '{letter}' is none of k, n, l, s, a, S and e, which are written"
        )?)),
    }
}
