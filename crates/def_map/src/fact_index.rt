//! Facts by the keys at which others meet them.

ghost use Rattle.std.specs.Prelude.{◌≡◌, [], OnOk};
ghost use Rattle.def_map.specs.Closure.{own_keys, met_keys, step_keys, name_at};
ghost use Rattle.def_map.specs.Inner.Closing.{PutsFact, Enters, places_at, fact_places};

use crate::facts::{Fact, ImportTable, Thing};
use std::alloc::{AllocError, Global};
use std::collections::HashMap;

/// Where facts meet.
#[derive(Clone, Copy, PartialEq, Eq, Hash)]
pub enum Key {
    /// What a name stands for in a module.
    Name(u32, u32),
    /// What any name stands for in a module.
    AnyName(u32),
    /// The veils of a module.
    Veil(u32),
    /// The paths in a module that go on by a name.
    Step(u32, u32),
    /// The paths in a module that go on.
    AnyStep(u32),
    /// The globs of a module.
    GlobOf(u32),
    /// What an import gives, and where its path is at its end.
    EndOf(u32),
}

impl ImportTable {
    // The name of a path behind so many others.
    pub(crate) fn name_at(&self, number: u32, count: usize) -> Option<u32>
        ensures { result ≡ name_at self.now number count }
    {
        let import = self.imports.get(number as usize)?;
        let name = import.path.get(count)?;
        Some(*name)
    }

    /// The keys at which a fact stands.
    #[tactic(auto, unfolding(crate::specs::Closure::own_keys))]
    pub fn own_keys(&self, fact: Fact) -> (Option<Key>, Option<Key>)
        ensures { result ≡ own_keys self.now fact }
    {
        match fact {
            Fact::Names(home, _, name, _, _) => {
                (Some(Key::Name(home, name)), Some(Key::AnyName(home)))
            }
            Fact::EveryName(home, _, _) => (Some(Key::Veil(home)), Some(Key::AnyName(home))),
            Fact::Stands(number, count, thing) => {
                let Some(name) = self.name_at(number, count) else {
                    return (Some(Key::EndOf(number)), None);
                };
                step_keys(thing, name)
            }
            Fact::Gives(number, _, _, _) => (Some(Key::EndOf(number)), None),
            Fact::Copies(from, _, _) => (Some(Key::GlobOf(from)), None),
        }
    }

    /// The keys at which a fact meets others.
    #[tactic(auto, unfolding(crate::specs::Closure::met_keys))]
    pub fn met_keys(&self, fact: Fact) -> (Option<Key>, Option<Key>)
        ensures { result ≡ met_keys self.now fact }
    {
        match fact {
            Fact::Names(home, _, name, _, _) => {
                (Some(Key::Step(home, name)), Some(Key::GlobOf(home)))
            }
            Fact::EveryName(home, _, _) => (Some(Key::AnyStep(home)), Some(Key::GlobOf(home))),
            Fact::Stands(number, count, Thing::Module(at)) => {
                let Some(name) = self.name_at(number, count) else {
                    return (None, None);
                };
                (Some(Key::Name(at, name)), Some(Key::Veil(at)))
            }
            Fact::Copies(from, _, _) => (Some(Key::AnyName(from)), None),
            _ => (None, None),
        }
    }
}

// The keys of a path that goes on by a name.
fn step_keys(thing: Thing, name: u32) -> (Option<Key>, Option<Key>)
    ensures { result ≡ step_keys thing name }
{
    match thing {
        Thing::Module(at) => (Some(Key::Step(at, name)), Some(Key::AnyStep(at))),
        _ => (None, None),
    }
}

/// The places of the facts that stand at each key, in rising order.
#[derive(Drop)]
pub struct FactIndex {
    alloc: Global,
    lists: HashMap<Key, Vec<u32>>,
}

impl FactIndex {
    /// An empty index.
    pub fn new(alloc: Global) -> FactIndex
        ensures { result.lists.entries ≡ [] }
    {
        FactIndex {
            alloc,
            lists: HashMap::new(alloc),
        }
    }

    /// The places of the facts at a key.
    pub fn places(&self, key: Option<Key>) -> &[u32]
        ensures { result.now ≡ fact_places self.now key }
    {
        let Some(key) = key else {
            return &[];
        };
        match self.lists.get(&key) {
            Some(places) => places.as_slice(),
            None => &[],
        }
    }

    /// Puts the place of a fact at its keys.
    pub fn enter(&mut self, keys: (Option<Key>, Option<Key>), place: u32) -> Result<(), AllocError>
        ensures { OnOk result (Enters keys place self.old self.new) }
    {
        self.put(keys.0, place)?;
        self.put(keys.1, place)
    }

    fn put(&mut self, key: Option<Key>, place: u32) -> Result<(), AllocError>
        ensures { OnOk result (PutsFact key place self.old self.new) }
    {
        let Some(key) = key else {
            return Ok(());
        };
        if let Some(places) = self.lists.get_mut(&key) {
            return places.push(place).map_err(AllocError::from);
        }
        let mut places = Vec::new(self.alloc);
        places.push(place).map_err(AllocError::from)?;
        self.lists.insert(key, places).map_err(AllocError::from)?;
        Ok(())
    }
}
