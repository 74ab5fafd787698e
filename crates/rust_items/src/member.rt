//! Members.

ghost use Rattle.std.specs.Prelude.{◌≡◌};

use hir_input::ast::Visibility;
use hir_input::{Meta, Name};
use rust_paths::TextRange;

/// What a member is.
#[derive(Clone, Copy, Debug, PartialEq, Eq)]
pub enum MemberKind {
    /// A function of a trait or an impl.
    Function,
    /// A constant of a trait or an impl.
    Constant,
    /// A type of a trait or an impl.
    TypeAlias,
    /// A macro call in a trait or an impl.
    MacroCall,
    /// A variant of an enum.
    Variant,
    /// A field of a struct or a union.
    Field,
}

/// A member of an item, with its places in bytes of the text.
#[derive(Debug)]
pub struct Member {
    pub kind: MemberKind,
    /// Its name, if it has one, without `r#`.
    pub identifier: Option<Name>,
    /// Where its name stands.
    pub name: Option<TextRange>,
    /// Where it stands with its attributes, up to the comma of a variant or a field.
    pub range: TextRange,
    /// The braces of a function.
    pub body: Option<TextRange>,
    /// Its attributes, and the inner ones of a function.
    pub attrs: Vec<Meta>,
    pub visibility: Option<Visibility>,
}

impl Member {
    /// Its name alone.
    pub fn into_identifier(self) -> Option<Name>
        ensures { result ≡ self.identifier }
    {
        let Member {
            kind: _,
            identifier,
            name: _,
            range: _,
            body: _,
            attrs: _,
            visibility: _,
        } = self;
        identifier
    }
}

// (Written out: what is derived is proved anew, field by field, in each crate that drops one.)
impl Drop for Member {
    fn drop(self) {
        let Member {
            kind: _,
            identifier: _,
            name: _,
            range: _,
            body: _,
            attrs: _,
            visibility: _,
        } = self;
    }
}
