//! Sets of visibilities.
ghost use Rattle.std.specs.Prelude.{◌≡◌, ◌<◌, [], IfOk, length};
ghost use Rattle.std.specs.List.{position_or_len};
ghost use Rattle.indexmap.specs.IndexSet.{insert_key};

use crate::visibility::RawVisibility;
use indexmap::IndexSet;
use std::alloc::{AllocError, Global};
use std::fmt;
use std::marker::Model;

/// Visibilities, each once, in the order in which they were put. Takes no room before the first: most trees have none.
#[derive(Drop)]
pub(crate) struct VisibilitySet {
    set: Option<Box<IndexSet<RawVisibility>>>,
}

impl Model for VisibilitySet {
    ghost use Rattle.std.specs.Prelude.{List, []};
    ghost use Rattle.std.specs.Coded.{coded_list};
    ghost use Rattle.std.specs.Option.{option_map_or};
    ghost use Rattle.item_tree.specs.Code.Node.{vis_code};
    ghost use Rattle.item_tree.specs.declared.visibility.RawVisibility.{RawVisibility};

    ghost Value = { List RawVisibility };

    ghost coded = { coded_list vis_code };

    ghost view = { λ a. option_map_or (λ set. set.value.keys) a.set [] };
}

impl VisibilitySet {
    pub(crate) fn new() -> VisibilitySet
        ensures { result ≡ [] }
    {
        VisibilitySet { set: None }
    }

    // Lends them in their order.
    pub(crate) fn as_slice(&self) -> &[RawVisibility]
        ensures { result.now ≡ self.now }
    {
        match &self.set {
            Some(set) => set.as_slice(),
            None => &[],
        }
    }

    // The place of a visibility, which is put at the end unless it is there.
    pub(crate) fn insert(
        &mut self,
        alloc: Global,
        visibility: RawVisibility,
    ) -> Result<usize, AllocError>
        ensures keys { IfOk result
            (λ _. self.new ≡ insert_key ⟦<RawVisibility as PartialEq>⟧.eq self.old visibility) }
        ensures index { IfOk result
            (λ place. place ≡ position_or_len
            (⟦<RawVisibility as PartialEq>⟧.eq visibility) self.old) }
        ensures within { IfOk result (λ place. place < length self.new) }
    {
        let mut set = self.take_set(alloc)?;
        let inserted = set.insert_full(visibility);
        self.set = Some(set);
        let (place, _) = inserted?;
        Ok(place)
    }

    // Moves the set out, or a new one where there is none.
    fn take_set(&mut self, alloc: Global) -> Result<Box<IndexSet<RawVisibility>>, AllocError>
        ensures { IfOk result (λ set. set.value.keys ≡ self.old) }
    {
        match self.set.take() {
            Some(set) => Ok(set),
            None => Ok(Box::new(alloc, IndexSet::new(alloc))?),
        }
    }

    // Gives back the room that no visibility takes.
    pub(crate) fn shrink_to_fit(&mut self)
        ensures { self.new ≡ self.old }
    {
        if let Some(set) = &mut self.set {
            set.shrink_to_fit();
        }
    }
}

impl fmt::Debug for VisibilitySet {
    fn fmt<W: fmt::Write>(&self, f: &mut fmt::Formatter<W>) -> fmt::Result {
        match &self.set {
            Some(set) => fmt::Debug::fmt(set, f),
            None => f.write_str("{}"),
        }
    }
}
