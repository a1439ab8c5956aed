//! Things under their IDs, each temporary or permanent (PCL 5 Printer Language Technical Reference Manual, Macros, Macro
//! Control command, and The PCL Print Model, Pattern Control command).

ghost use Rattle.std.specs.Prelude.{◌≡◌, ◌≤◌, option_copied, IsOk, IfOk, OnOk, OnErr};
ghost use Rattle.std.specs.FinMap as maps;
ghost use Rattle.press_store.specs.Things.{found, stored, made, permanent_only};

use crate::entry::{Duplicate, Entry};
use indexmap::IndexMap;
use std::alloc::{AllocError, Global};
use std::marker::Model;

/// Things under their IDs. Contracts see a finite map from IDs to things, each with whether it is permanent, and how many more
/// are sure to have room.
#[derive(Drop)]
pub struct Store<T> {
    entries: IndexMap<u16, Entry<T>>,
}

impl<T> Model for Store<T> {
    ghost use Rattle.indexmap.specs.IndexMap.{spare};
    ghost use Rattle.std.specs.FinMap as maps;
    ghost use Rattle.std.specs.List.{IsDistinct};
    ghost use Rattle.std.specs.Map.{keys_of};
    ghost use Rattle.std.specs.Prelude.{nat_eq};
    ghost use Rattle.press_store.specs.Things.{Stored, stored_code};

    ghost Value = { Stored T };

    ghost coded = { stored_code T.code };

    ghost view = { λ s. record {
      things = maps.from_entries s.entries.entries;
      room = spare s.entries;
    } };

    ghost invariant = { λ s. IsDistinct nat_eq (keys_of s.entries.entries) };
}

impl<T> Store<T> {
    /// Nothing.
    pub fn new(alloc: Global) -> Self
        ensures { result.things ≡ maps.empty }
    {
        Store {
            entries: IndexMap::new(alloc),
        }
    }

    /// Where the store takes its memory.
    pub fn allocator(&self) -> Global {
        *self.entries.allocator()
    }

    /// The thing with this ID, if there is one.
    pub fn get(&self, id: u16) -> Option<&T>
        ensures { option_copied result ≡ found self.now.things id }
    {
        match self.entries.get(&id) {
            Some(entry) => Some(&entry.value),
            None => None,
        }
    }

    /// Makes room for one more thing.
    ///
    /// # Errors
    ///
    /// Where memory ran out.
    pub fn reserve(&mut self) -> Result<(), AllocError>
        ensures things { self.new.things ≡ self.old.things }
        ensures room { OnOk result (1 ≤ self.new.room) }
    {
        self.entries.reserve(1)
    }
}

impl<T: Drop> Store<T> {
    /// Stores a thing, in place of an older one with this ID. It is temporary, also where the older one was permanent.
    ///
    /// # Errors
    ///
    /// Where memory ran out; the things are then as they were.
    pub fn store(&mut self, id: u16, value: T) -> Result<(), AllocError>
        ensures stored { OnOk result (self.new.things ≡ stored self.old.things id value) }
        ensures unchanged { OnErr result (self.new.things ≡ self.old.things) }
        ensures succeeds { 1 ≤ self.old.room → IsOk result }
    {
        let entry = Entry {
            value,
            permanent: false,
        };
        match self.entries.insert(id, entry) {
            Ok(_) => Ok(()),
            Err(_) => Err(AllocError),
        }
    }

    /// Deletes the thing with this ID, if there is one.
    pub fn delete(&mut self, id: u16)
        ensures { self.new.things ≡ maps.remove self.old.things id }
    {
        self.entries.swap_remove(&id);
    }

    /// Deletes all things.
    pub fn delete_all(&mut self)
        ensures { self.new.things ≡ maps.empty }
    {
        self.entries.clear();
    }

    /// Deletes the things that are not permanent.
    pub fn delete_temporary(&mut self)
        ensures { self.new.things ≡ permanent_only self.old.things }
    {
        self.entries.retain(
            |_id: &u16, entry: &mut Entry<T>| -> bool
                ensures { (result ≡ entry.old.permanent) × (entry.new ≡ entry.old) }
            { entry.permanent },
        );
    }

    /// Makes the thing with this ID permanent or temporary, if there is one.
    pub fn set_permanent(&mut self, id: u16, permanent: bool)
        ensures { self.new.things ≡ made self.old.things id permanent }
    {
        if let Some(entry) = self.entries.get_mut(&id) {
            entry.permanent = permanent;
        }
    }
}

impl<T: Duplicate + Drop> Store<T> {
    /// An equal store.
    ///
    /// # Errors
    ///
    /// Where memory ran out.
    pub fn copy(&self) -> Result<Self, AllocError>
        ensures { IfOk result (λ store. store.things ≡ self.now.things) }
    {
        Ok(Store {
            entries: self.entries.clone()?,
        })
    }
}
