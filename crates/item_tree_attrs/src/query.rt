//! Attributes that are lent, and what is asked of them.
ghost use Rattle.std.specs.Prelude.{◌≡◌, ◌<◌, ◌^◌, length};
ghost use Rattle.std.specs.Iterator.{YieldsFirstBy, YieldsFirstRef, item_count};
ghost use Rattle.item_tree_attrs.specs.Key.{has_key, referred_attrs};

use crate::collect::AttrsOwned;
use hir_input::{Attr, AttrId, Span, TokenTree};
use std::alloc::AllocError;
use std::marker::Model;

/// The attributes of an owner, lent: u32::MAX at most.
///
/// Stands for rust-analyzer's `Attrs`.
#[derive(Clone, Copy, Debug)]
pub struct Attrs<'a> {
    // none: no attributes, since a constant cannot borrow a list of them
    attrs: Option<&'a [Attr]>,
    ghost few: { length (referred_attrs attrs) < 2 ^ 32 },
}

impl AttrsOwned {
    ghost use Rattle.std.specs.Prelude.{◌≡◌};
    ghost use Rattle.item_tree_attrs.specs.Query.{listed_attrs};

    /// The attributes, lent. rust-analyzer's `AttrsOwned::as_ref`.
    pub fn as_ref(&self) -> Attrs<'_>
        ensures { listed_attrs result ≡ self.now }
    {
        Attrs {
            attrs: Some(self.attrs.as_slice()),
        }
    }
}

impl<'a> Attrs<'a> {
    ghost use Rattle.std.specs.Prelude.{◌≡◌, ◌↔◌, ◌<◌, ◌≤◌, ◌^◌, length, codes, drop, filter, IsTrue};
    ghost use Rattle.std.specs.List.{enumerate_from};
    ghost use Rattle.std.specs.Option.{ForSome};
    ghost use Rattle.item_tree_attrs.specs.Key.{has_key};
    ghost use Rattle.item_tree_attrs.specs.Query.{asked_attrs, listed_attrs, place_after};

    /// No attributes. rust-analyzer's `Attrs::EMPTY`.
    pub const EMPTY: Attrs<'static> = Attrs { attrs: None };

    /// The attributes, in order. In place of rust-analyzer's `Deref` of `Attrs`.
    pub fn as_slice(self) -> &'a [Attr]
        ensures value { result.now ≡ listed_attrs self.entry }
        ensures few { length (listed_attrs self.entry) < 2 ^ 32 }
    {
        match self.attrs {
            Some(attrs) => attrs,
            None => &[],
        }
    }

    /// Asks for the attributes whose path is the one name `key`. rust-analyzer's `Attrs::by_key`.
    pub fn by_key(self, key: &'a str) -> AttrQuery<'a>
        ensures { asked_attrs result ≡ filter (has_key key.now) (listed_attrs self.entry) }
    {
        AttrQuery { attrs: self, key }
    }

    /// The attributes with their ids, in order. rust-analyzer's `Attrs::iter`.
    pub fn iter(self) -> AttrIter<'a>
        ensures value { result ≡ enumerate_from 0 (listed_attrs self.entry) }
        ensures few { length result < 2 ^ 32 }
    {
        self.iter_from(0)
    }

    /// The attributes after the one of this id, or all of them for `None`, with the ids that `iter` gives them.
    /// rust-analyzer's `Attrs::iter_after`. The caller shows that the id is that of one of the attributes.
    pub fn iter_after(self, after: Option<AttrId>) -> AttrIter<'a>
        requires { ForSome after (λ id. id < length (listed_attrs self)) }
        ensures value { result ≡ drop (place_after after) (enumerate_from 0 (listed_attrs self.entry)) }
        ensures few { length result < 2 ^ 32 }
    {
        match after {
            Some(id) => self.iter_from(id.item_tree_index() + 1),
            None => self.iter_from(0),
        }
    }

    // The attributes from a position on, with their ids.
    #[tactic(auto, using(crate::proofs::Places::positions, std::proofs::lemmas::Grind::common_steps))]
    fn iter_from(self, position: u32) -> AttrIter<'a>
        requires { position ≤ length (listed_attrs self) }
        ensures value { result ≡ drop position (enumerate_from 0 (listed_attrs self.entry)) }
        ensures few { length result < 2 ^ 32 }
    {
        let attrs = self.as_slice();
        AttrIter {
            attrs: &attrs[position as usize..],
            next: position,
        }
    }

    /// Whether there is an attribute `proc_macro`. rust-analyzer's `Attrs::is_proc_macro`.
    pub fn is_proc_macro(&self) -> bool
        ensures { let found = filter (has_key (codes "proc_macro")) (listed_attrs self.now) in
            IsTrue result ↔ (0 < length found) }
    {
        self.by_key("proc_macro").exists()
    }

    /// Whether there is an attribute `proc_macro_attribute`. rust-analyzer's `Attrs::is_proc_macro_attribute`.
    pub fn is_proc_macro_attribute(&self) -> bool
        ensures { let found = filter (has_key (codes "proc_macro_attribute")) (listed_attrs self.now) in
            IsTrue result ↔ (0 < length found) }
    {
        self.by_key("proc_macro_attribute").exists()
    }
}

/// Attributes with their ids. In place of the iterator of rust-analyzer's `Attrs::iter`.
#[derive(Drop)]
pub struct AttrIter<'a> {
    attrs: &'a [Attr],
    next: u32,
}

impl<'a> Model for AttrIter<'a> {
    ghost use Rattle.std.specs.Prelude.{ℕ, List, ◌+◌, ◌<◌, ◌^◌, length};
    ghost use Rattle.std.specs.List.{enumerate_from};
    ghost use Rattle.hir_input.specs.declared.attr.Attr.{Attr};

    ghost Value = { List (ℕ × Attr) };

    ghost view = { λ s. enumerate_from s.next s.attrs.now };

    ghost invariant = { λ s. s.next + length s.attrs.now < 2 ^ 32 };
}

impl<'a> Iterator for AttrIter<'a> {
    type Item = (AttrId, &'a Attr);

    ghost next_gives = { YieldsFirstBy (λ item. (item.0, item.1.now)) (λ s. s) };

    ghost remaining = { item_count (λ s. s) };

    fn next(&mut self) -> Option<(AttrId, &'a Attr)> {
        let (attr, rest) = self.attrs.split_first()?;
        let id = AttrId::from_item_tree_index(self.next);
        self.attrs = rest;
        self.next += 1;
        Some((id, attr))
    }
}

/// The attributes whose path is one plain name, the key.
///
/// Stands for rust-analyzer's `AttrQuery`.
#[derive(Clone, Copy, Debug)]
pub struct AttrQuery<'a> {
    attrs: Attrs<'a>,
    key: &'a str,
}

impl<'a> AttrQuery<'a> {
    ghost use Rattle.std.specs.Prelude.{◌≡◌, ◌↔◌, ◌<◌, ◌^◌, length, filter_map, option_map, IsTrue};
    ghost use Rattle.hir_input.specs.Attr.{token_tree_of, string_with_span_of};
    ghost use Rattle.item_tree_attrs.specs.Collected.{first};
    ghost use Rattle.item_tree_attrs.specs.Query.{asked_attrs};

    /// The attributes, in order. rust-analyzer's `AttrQuery::attrs`.
    #[tactic(auto, using(crate::proofs::Places::selections))]
    pub fn attrs(self) -> KeyedAttrs<'a>
        ensures value { result ≡ asked_attrs self.entry }
        ensures few { length result < 2 ^ 32 }
    {
        KeyedAttrs {
            attrs: self.attrs.as_slice(),
            key: self.key,
        }
    }

    /// The token trees of the attributes whose input is one, in order. rust-analyzer's `AttrQuery::tt_values`.
    #[tactic(auto, using(crate::proofs::Places::selections))]
    pub fn tt_values(self) -> TtValues<'a>
        ensures value { result ≡ filter_map token_tree_of (asked_attrs self.entry) }
        ensures few { length result < 2 ^ 32 }
    {
        TtValues {
            attrs: self.attrs(),
        }
    }

    /// The string of the first attribute that has one, and its span.
    /// rust-analyzer's `AttrQuery::string_value_with_span`.
    pub fn string_value_with_span(self) -> Option<(&'a str, Span)>
        ensures { option_map (λ found. (found.0.now, found.1)) result
            ≡ first (filter_map string_with_span_of (asked_attrs self.entry)) }
    {
        for attr in self.attrs() {
            if let Some(found) = attr.string_value_with_span() {
                return Some(found);
            }
        }
        None
    }

    /// Whether there is such an attribute. rust-analyzer's `AttrQuery::exists`.
    pub fn exists(self) -> bool
        ensures { IsTrue result ↔ (0 < length (asked_attrs self.entry)) }
    {
        self.attrs().next().is_some()
    }
}

/// The attributes of a query. In place of the iterator of rust-analyzer's `AttrQuery::attrs`.
#[derive(Drop)]
pub struct KeyedAttrs<'a> {
    attrs: &'a [Attr],
    key: &'a str,
}

impl<'a> Model for KeyedAttrs<'a> {
    ghost use Rattle.std.specs.Prelude.{List, filter};
    ghost use Rattle.hir_input.specs.declared.attr.Attr.{Attr};

    ghost Value = { List Attr };

    ghost use Rattle.item_tree_attrs.specs.Key.{has_key};

    ghost view = { λ s. filter (has_key s.key.now) s.attrs.now };
}

impl Clone for KeyedAttrs<'_> {
    ghost use Rattle.std.specs.Prelude.{◌≡◌, ⊤};

    ghost is_clone = { λ attrs copy. copy ≡ attrs };

    ghost is_infallible = { λ _. ⊤ };

    fn clone(&self) -> Result<Self, AllocError> {
        Ok(KeyedAttrs {
            attrs: self.attrs,
            key: self.key,
        })
    }
}

impl<'a> Iterator for KeyedAttrs<'a> {
    type Item = &'a Attr;

    ghost next_gives = { YieldsFirstRef (λ s. s) };

    ghost remaining = { item_count (λ s. s) };

    fn next(&mut self) -> Option<&'a Attr> {
        while let Some((attr, rest)) = self.attrs.split_first() {
            self.attrs = rest;
            if is_keyed(attr, self.key) {
                return Some(attr);
            }
        }
        None
    }
}

// Whether the path of an attribute is the one name `key`.
fn is_keyed(attr: &Attr, key: &str) -> bool
    ensures { result ≡ has_key key.now attr.now }
{
    match attr.path.as_ident() {
        Some(name) => name.text() == key,
        None => false,
    }
}

/// The token trees of a query's attributes. In place of the iterator of rust-analyzer's `AttrQuery::tt_values`.
#[derive(Drop)]
pub struct TtValues<'a> {
    attrs: KeyedAttrs<'a>,
}

impl<'a> Model for TtValues<'a> {
    ghost use Rattle.std.specs.Prelude.{ℕ, List, filter_map};
    ghost use Rattle.hir_input.specs.Attr.{token_tree_of};

    ghost Value = { List (List ℕ) };

    ghost view = { λ s. filter_map token_tree_of s.attrs };
}

impl<'a> Iterator for TtValues<'a> {
    type Item = &'a TokenTree;

    ghost next_gives = { YieldsFirstRef (λ s. s) };

    ghost remaining = { item_count (λ s. s) };

    fn next(&mut self) -> Option<&'a TokenTree> {
        while let Some(attr) = self.attrs.next() {
            if let Some(tokens) = attr.token_tree_value() {
                return Some(tokens);
            }
        }
        None
    }
}
