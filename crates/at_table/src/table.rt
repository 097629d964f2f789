//! The table: an index from keys to places, and a slab with the values at these places.
ghost use Rattle.std.specs.Prelude.{◌≡◌, ◌+◌, ◌<◌, ◌≤◌, ◌++◌, ◌∷◌, Bool, [], find, length, map, remove, slice_get, set};
ghost use Rattle.std.specs.Prelude.{IfSome, OnOk, IsOk, None, Some};
ghost use Rattle.std.specs.Borrow.{sem};
ghost use Rattle.std.specs.List.{IsDistinct, position_from};
ghost use Rattle.std.specs.Option.{option_copied};
ghost use Rattle.at_table.specs.Rows.{AreKeyed, IsSameTest, found};

use indexmap::IndexMap;
use slab::Slab;
use std::alloc::{AllocError, Allocator, Global};
use std::hash::{BuildHasherDefault, FoldHasher, Hash};
use std::marker::Model;

/// Values in the order in which they were put in, each under a key of its own. A value is found by its key in a time
/// that does not grow with their number.
#[derive(Drop)]
pub struct Table<K: Eq + Hash, V, A: Allocator = Global> {
    // The place in the slab of each key's value, in the order of the entries.
    index: IndexMap<K, usize, BuildHasherDefault<FoldHasher>, A>,
    slab: Slab<V, A>,
}

impl<K: Eq + Hash, V, A: Allocator> Model for Table<K, V, A> {
    ghost use Rattle.at_table.specs.Rows.{Rows, rows_code};

    ghost Value = { Rows K V };

    ghost coded = { rows_code K.code V.code };

    ghost use Rattle.at_table.specs.Layout.{Agree, rows_of};
    ghost use Rattle.indexmap.specs.IndexMap.{values};
    ghost use Rattle.slab.specs.Slab.{get};

    ghost view = { λ t. rows_of t.index t.slab };

    ghost invariant = { λ t. Agree (get t.slab) (values t.index) };
}

impl<K: Eq + Hash, V, A: Allocator + Copy> Table<K, V, A> {
    /// A table without entries. It takes no memory.
    pub fn new(alloc: A) -> Table<K, V, A>
        ensures keys { result.keys ≡ [] }
        ensures items { result.items ≡ [] }
    {
        Table {
            index: IndexMap::new(alloc),
            slab: Slab::new(alloc),
        }
    }
}

impl<K: Eq + Hash, V, A: Allocator> Table<K, V, A> {
    ghost use Rattle.at_table.specs.Lends.{lends_item};

    /// How many entries there are.
    pub fn len(&self) -> usize
        ensures items { result ≡ length self.now.items }
        ensures keys { result ≡ length self.now.keys }
    {
        self.index.len()
    }

    /// The place of the entry with this key, from 0.
    pub fn index_of(&self, key: &K) -> Option<usize>
        ensures first { result ≡ position_from (K.eq key.now) 0 self.now.keys }
        ensures keyed { (key_of : V → K) (test : V → Bool) → AreKeyed key_of self.now
            → IsSameTest key_of (K.eq key.now) test → result ≡ position_from test 0 self.now.items }
        ensures within { IfSome result (λ index. index < length self.now.items) }
        ensures beside { length self.now.items ≡ length self.now.keys }
        ensures apart { IsDistinct K.eq self.now.keys }
    {
        self.index.get_index_of(key)
    }

    /// The keys in the order of the entries.
    pub fn keys(&self) -> &[K]
        ensures { result.now ≡ self.now.keys }
    {
        self.index.keys().as_slice()
    }

    /// The value at an index.
    pub fn at(&self, index: usize) -> &V
        requires { index < length self.now.items }
        ensures { slice_get self.now.items index ≡ Some result.now }
    {
        let place = self.index[index];
        &self.slab[place]
    }

    /// The value at an index, to be changed under its key.
    pub fn at_mut(&mut self, index: usize) -> &mut V
        requires { index < length self.old.items }
        ensures* writes_back { sem 𝓛 (lends_item K.row V.row A.row K.Hash A.Allocator self.entry index result) }
        ensures value { slice_get self.old.items index ≡ Some result.now }
        ensures keyed { (key_of : V → K) → AreKeyed key_of self.old → (now : V) → key_of now ≡ key_of result.now
            → self.old.keys ≡ map key_of (set self.old.items index now) }
    {
        let place = self.index[index];
        &mut self.slab[place]
    }

    /// The value under a key.
    pub fn get(&self, key: &K) -> Option<&V>
        ensures first { option_copied result ≡ found (K.eq key.now) self.now.keys self.now.items }
        ensures keyed { (key_of : V → K) (test : V → Bool) → AreKeyed key_of self.now
            → IsSameTest key_of (K.eq key.now) test → option_copied result ≡ find test self.now.items }
    {
        let index = self.index_of(key)?;
        Some(self.at(index))
    }

    /// Makes room for one entry more. The error is out of memory, which changes no entry.
    pub fn reserve(&mut self) -> Result<(), AllocError>
        ensures room { OnOk result (1 ≤ self.new.room) }
        ensures keys { self.new.keys ≡ self.old.keys }
        ensures items { self.new.items ≡ self.old.items }
        ensures kept { self.old.room ≤ self.new.room }
        ensures succeeds { 1 ≤ self.old.room → IsOk result }
    {
        self.index.reserve(1)?;
        self.slab.reserve(1)
    }

    /// Removes the entry at an index. Those behind it close up. This needs no memory.
    pub fn remove(&mut self, index: usize) -> V
    where
        K: Drop,
        requires { index < length self.old.items }
        ensures value { slice_get self.old.items index ≡ Some result }
        ensures keys { self.new.keys ≡ remove self.old.keys index }
        ensures items { self.new.items ≡ remove self.old.items index }
        ensures keyed { (key_of : V → K) → AreKeyed key_of self.old → AreKeyed key_of self.new }
        ensures apart { IsDistinct K.eq self.new.keys }

        // The room may be less than one more, since the index may give up some of its own.
        ensures kept { self.old.room ≤ self.new.room }
    {
        let (_key, place) = self.index.shift_remove_index(index).unwrap();
        self.slab.remove(place)
    }
}

impl<K: Eq + Hash + Drop, V, A: Allocator> Table<K, V, A> {
    /// Puts in an entry behind the others, under a key that no entry has. It needs no memory, since there is room.
    pub fn push(&mut self, key: K, value: V)
        requires room { 1 ≤ self.old.room }
        requires fresh { position_from (K.eq key) 0 self.old.keys ≡ None }
        ensures keys { self.new.keys ≡ self.old.keys ++ key ∷ [] }
        ensures items { self.new.items ≡ self.old.items ++ value ∷ [] }
        ensures keyed { (key_of : V → K) → AreKeyed key_of self.old → key_of value ≡ key → AreKeyed key_of self.new }
        ensures apart { IsDistinct K.eq self.new.keys }
        ensures kept { self.old.room ≤ self.new.room + 1 }
    {
        let place = self.slab.insert_reserved(value);
        self.index.insert(key, place).unwrap();
    }
}
