//! What the words of a path mean, one behind the other.

ghost use Rattle.std.specs.Prelude.{◌≡◌, OnOk, Some, None, option_map, []};
ghost use Rattle.hir_input.specs.Words.{crate_word, name_word, self_word, super_word};
ghost use Rattle.rust_paths.specs.Inner.{meaning, path_start, then_word};

use hir_input::ast::PathNode;
use hir_input::{ModPath, Name, PathKind};
use std::alloc::{AllocError, Global};
use std::marker::Model;

/// What the words that were read mean so far.
#[derive(Debug, Drop)]
pub(crate) struct PathWords {
    kind: PathKind,
    names: Vec<Name>,
    is_readable: bool,
}

impl Model for PathWords {
    ghost use Rattle.std.specs.Prelude.{IsTrue, Option, Some, None, if◌then◌else◌};
    ghost use Rattle.hir_input.specs.Path.{Path};
    ghost use Rattle.rust_paths.specs.Meaning.{fits};

    ghost Value = { Option Path };

    ghost view = { λ w. if w.is_readable then Some (record { kind = w.kind; names = w.names.items }) else None };

    ghost invariant = { λ w. IsTrue (fits w.kind) };
}

impl PathWords {
    /// No words, or `::`.
    pub(crate) fn new(alloc: Global, is_absolute: bool) -> Self
        ensures { result ≡ Some (path_start is_absolute) }
    {
        let kind = if is_absolute {
            PathKind::Abs
        } else {
            PathKind::Plain
        };
        PathWords {
            kind,
            names: Vec::new(alloc),
            is_readable: true,
        }
    }

    /// Adds a word that has no meaning.
    pub(crate) fn refuse(&mut self)
        ensures { self.new ≡ None }
    {
        self.is_readable = false;
    }

    fn push_name(&mut self, name: Name) -> Result<(), AllocError>
        ensures { OnOk result (self.new ≡ then_word (self.old) (Some (name_word name))) }
    {
        self.names.push(name)?;
        Ok(())
    }

    /// Adds a name, or a word that has no meaning.
    pub(crate) fn push_or_refuse(&mut self, name: Option<Name>) -> Result<(), AllocError>
        ensures { OnOk result (self.new ≡ then_word (self.old) (option_map name_word name)) }
    {
        match name {
            Some(name) => self.push_name(name),
            None => {
                self.refuse();
                Ok(())
            }
        }
    }

    pub(crate) fn push_self(&mut self)
        ensures { self.new ≡ then_word (self.old) (Some self_word) }
    {
        match (self.kind, self.names.as_slice()) {
            (PathKind::Plain, []) => self.kind = PathKind::Super(0),
            _ => self.is_readable = false,
        }
    }

    pub(crate) fn push_super(&mut self)
        ensures { self.new ≡ then_word (self.old) (Some super_word) }
    {
        match (self.kind, self.names.as_slice()) {
            (PathKind::Plain, []) => self.kind = PathKind::Super(1),
            (PathKind::Super(n), []) if n < u32::MAX => self.kind = PathKind::Super(n + 1),
            _ => self.is_readable = false,
        }
    }

    pub(crate) fn push_crate(&mut self)
        ensures { self.new ≡ then_word (self.old) (Some crate_word) }
    {
        match (self.kind, self.names.as_slice()) {
            (PathKind::Plain, []) => self.kind = PathKind::Crate,
            _ => self.is_readable = false,
        }
    }

    /// The path of the words.
    pub(crate) fn into_node(self) -> PathNode
        ensures { result ≡ meaning self [] }
    {
        if !self.is_readable {
            return PathNode::Unreadable;
        }
        match ModPath::from_segments(self.kind, self.names) {
            Some(path) => PathNode::Readable(path),
            None => PathNode::Unreadable,
        }
    }
}
