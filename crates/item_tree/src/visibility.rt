//! Visibilities.
ghost use Rattle.std.specs.Prelude.{◌≡◌, ◌↔◌, ℕ, [], IsTrue, IfOk, option_copied};
ghost use Rattle.item_tree.specs.Visibility.{read_visibility};
ghost use Rattle.item_tree.specs.Layout.{fixed_visibilities};
ghost use Rattle.item_tree.specs.declared.visibility.VisibilityExplicitness.TheVariants.{Explicit};

use hir_input::ast::{PathNode, Visibility};
use hir_input::{Edition, ModPath, PathKind, Written};
use std::alloc::{AllocError, Global};
use std::fmt;
use std::marker::Model;

/// Whether a visibility that may be implied was written: that of the module itself, or of a module by its path.
/// rust-analyzer's `VisibilityExplicitness`.
#[derive(Clone, Copy, Debug, PartialEq, Eq, Hash)]
pub enum VisibilityExplicitness {
    /// It was written.
    Explicit,
    /// It was not.
    Implicit,
}

impl VisibilityExplicitness {
    /// Whether it was written. rust-analyzer's `VisibilityExplicitness::is_explicit`.
    pub fn is_explicit(&self) -> bool
        ensures { IsTrue result ↔ (self.now ≡ Explicit) }
    {
        matches!(self, VisibilityExplicitness::Explicit)
    }
}

/// A visibility that is not resolved.
///
/// Stands for rust-analyzer's `RawVisibility`.
#[derive(Debug, Drop, PartialEq, Eq, Hash)]
pub enum RawVisibility {
    /// `pub(in path)` or `pub(super)`: in the module of this path.
    Module(ModPath, VisibilityExplicitness),
    /// Private, or `pub(self)`: in the module around it.
    PubSelf(VisibilityExplicitness),
    /// `pub(crate)`
    PubCrate,
    /// `pub`
    Public,
}

impl Clone for RawVisibility {
    ghost is_clone = { λ visibility copy. copy ≡ visibility };

    fn clone(&self) -> Result<RawVisibility, AllocError> {
        match self {
            RawVisibility::Module(path, explicitness) => {
                Ok(RawVisibility::Module(path.clone()?, *explicitness))
            }
            RawVisibility::PubSelf(explicitness) => Ok(RawVisibility::PubSelf(*explicitness)),
            RawVisibility::PubCrate => Ok(RawVisibility::PubCrate),
            RawVisibility::Public => Ok(RawVisibility::Public),
        }
    }
}

/// Written with a space at its end.
impl Written for RawVisibility {
    ghost use Rattle.item_tree.specs.Page.{shown_visibility};

    ghost shown = { shown_visibility };

    fn write<W: fmt::Write>(&self, edition: &Edition, f: &mut fmt::Formatter<W>) -> fmt::Result {
        match self {
            RawVisibility::Public => f.write_str("pub "),
            RawVisibility::PubCrate => f.write_str("pub(crate) "),
            RawVisibility::PubSelf(_) => f.write_str("pub(self) "),
            RawVisibility::Module(path, _) => {
                let path = path.display(edition);
                write!(f, "pub(in {path}) ")
            }
        }
    }
}

pub(crate) const PUBLIC: u32 = u32::MAX;

pub(crate) const PRIVATE_IMPLICIT: u32 = u32::MAX - 1;

pub(crate) const PRIVATE_EXPLICIT: u32 = u32::MAX - 2;

pub(crate) const PUB_CRATE: u32 = u32::MAX - 3;

/// The id of a visibility in an item tree, by which the tree lends its value. rust-analyzer's `RawVisibilityId`.
#[derive(Clone, Copy, PartialEq, Eq)]
pub struct RawVisibilityId(u32);

impl Model for RawVisibilityId {
    ghost Value = { ℕ };

    ghost view = { λ i. i.0 };

    ghost inverse = { λ n. record { 0 = n } };
}

impl RawVisibilityId {
    pub(crate) fn number(self) -> u32
        ensures { result ≡ self }
    {
        self.0
    }

    pub(crate) fn from_number(id: u32) -> RawVisibilityId
        ensures { result ≡ id }
    {
        RawVisibilityId(id)
    }
}

/// The visibilities that every tree has, in the order of their ids, which a tree keeps so that it can lend them.
#[derive(Debug, Drop)]
pub(crate) struct FixedVisibilities {
    pub(crate) values: [RawVisibility; 4],
    ghost values_are: { values ≡ fixed_visibilities },
}

impl FixedVisibilities {
    pub(crate) fn new() -> FixedVisibilities {
        FixedVisibilities {
            values: [
                RawVisibility::PubCrate,
                RawVisibility::PubSelf(VisibilityExplicitness::Explicit),
                RawVisibility::PubSelf(VisibilityExplicitness::Implicit),
                RawVisibility::Public,
            ],
        }
    }
}

/// Shows the four ids that every tree has by what they stand for, and any other as its number.
impl fmt::Debug for RawVisibilityId {
    fn fmt<W: fmt::Write>(&self, f: &mut fmt::Formatter<W>) -> fmt::Result {
        match self.0 {
            PUBLIC => f.debug_tuple("RawVisibilityId").field(&"pub").finish(),
            PRIVATE_IMPLICIT | PRIVATE_EXPLICIT => {
                f.debug_tuple("RawVisibilityId")
                    .field(&"pub(self)")
                    .finish()
            }
            PUB_CRATE => f
                .debug_tuple("RawVisibilityId")
                .field(&"pub(crate)")
                .finish(),
            number => f.debug_tuple("RawVisibilityId").field(&number).finish(),
        }
    }
}

/// Reads a written visibility. Nothing written, and a path that is not readable, are private and implicit.
///
/// rust-analyzer's `visibility_from_ast`.
///
/// # Errors
///
/// Only if memory runs out, for a path.
pub fn visibility_from_ast(
    alloc: Global,
    visibility: Option<&Visibility>,
) -> Result<RawVisibility, AllocError>
    ensures { IfOk result (λ v. v ≡ read_visibility (option_copied visibility.entry)) }
{
    let Some(visibility) = visibility else {
        return Ok(RawVisibility::PubSelf(VisibilityExplicitness::Implicit));
    };
    match visibility {
        Visibility::Pub => Ok(RawVisibility::Public),
        Visibility::PubCrate => Ok(RawVisibility::PubCrate),
        Visibility::PubSelf => Ok(RawVisibility::PubSelf(VisibilityExplicitness::Explicit)),
        Visibility::PubSuper => {
            let path = ModPath::from_segments(PathKind::Super(1), Vec::new(alloc)).unwrap();
            Ok(RawVisibility::Module(path, VisibilityExplicitness::Explicit))
        }
        Visibility::InPath(PathNode::Readable(path)) => {
            Ok(RawVisibility::Module(path.clone()?, VisibilityExplicitness::Explicit))
        }
        Visibility::InPath(PathNode::Unreadable) => {
            Ok(RawVisibility::PubSelf(VisibilityExplicitness::Implicit))
        }
    }
}
