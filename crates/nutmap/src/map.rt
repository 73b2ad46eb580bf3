//! The map.
ghost use Rattle.std.specs.Prelude.{◌≡◌, ◌+◌, ◌≤◌, [], length, map, take, Some, IsNone, IsTrue, IsFalse, IfOk, OnOk, OnErr};
ghost use Rattle.std.specs.Option.{option_copied, option_map};
ghost use Rattle.std.specs.Map.{remove_entry};
ghost use Rattle.std.specs.BTreeMap.{insert_entry, is_at};
ghost use Rattle.nutmap.specs.Entries.{ChangesValue};
ghost use Rattle.nutmap.specs.Digits.{most_nodes};
ghost use Rattle.nutmap.specs.Entries.{value_at, entry_after, entries_after, HasRisingKeys};
ghost use Rattle.nutmap.specs.Marked.{marked_after, KeepsMarks};
ghost use Rattle.nutmap.specs.Tree.{entries_of};
ghost use Rattle.nutmap.specs.Meter.{counted_up};

use crate::change::change_in_place;
use crate::find;
use crate::insert::{insert, put_in_place};
use crate::marked::Marked;
use crate::meter::Meter;
use crate::remove::remove;
use crate::tree::{Entry, Link, height, shared};
use arrayvec::ArrayVec;
use std::alloc::{AllocError, Global};
use std::marker::Model;
use std::rc::Rc;

/// A map in the order of its keys, of which a version can be kept at no cost.
///
/// A version is a map of its own: it keeps its entries whatever is done to the map that it was
/// shared from, and the other way round. Versions share the nodes of a balanced binary tree and, by
/// `Rc`, the keys and values. A node that is shared is never changed, so a change makes new nodes
/// from the root to the place of the key. Only where nobody shares one of these is the value of a
/// key that is there put or changed in place.
///
/// Contracts see a map as the list of its entries, whose keys rise.
#[derive(Drop)]
pub struct Map<K: Ord + Drop, V: Marked> {
    alloc: Global,
    root: Link<K, V>,
    len: usize,
}

impl<K: Ord + Drop, V: Marked> Model for Map<K, V> {
    ghost use Rattle.std.specs.Prelude.{◌≡◌, List, length};
    ghost use Rattle.nutmap.specs.Tree.{entries_of};

    ghost Value = { List (K × V) };

    ghost view = { λ m. entries_of m.root };

    ghost invariant = { λ m. m.len ≡ length (entries_of m.root) };
}

impl<K: Ord + Drop, V: Marked> Map<K, V> {
    /// The empty map, which takes no memory.
    pub fn new(alloc: Global) -> Self
        ensures { result ≡ [] }
    {
        Map {
            alloc,
            root: None,
            len: 0,
        }
    }

    /// How many entries the map has.
    pub fn len(&self) -> usize
        ensures len { result ≡ length self.now }
        ensures rising { HasRisingKeys K.cmp self.now }
    {
        let Map { root, len, .. } = self;
        // What the root says of the entries: their keys rise.
        let _ = height(root);
        *len
    }

    /// The value at a key, or `None` where the map does not have the key.
    pub fn get(&self, key: &K) -> Option<&V>
        ensures { option_copied result ≡ value_at K.cmp self.now key.now }
    {
        Some(&**find::value(&self.root, key)?)
    }

    // The same, shared.
    fn held(&self, key: &K) -> Result<Option<Rc<V>>, AllocError>
        ensures { IfOk result (λ held. option_map (λ v. v.value) held
            ≡ value_at K.cmp self.now key.now) }
    {
        match find::value(&self.root, key) {
            None => Ok(None),
            Some(value) => Ok(Some(value.clone()?)),
        }
    }

    /// The entry with the least key above `above`, or with the least key of all where that is
    /// `None`.
    ///
    /// A walk that goes from each key to the next meets every entry once, and takes no memory.
    pub fn after(&self, above: Option<&K>) -> Option<(&K, &V)>
        ensures entry { option_map (λ e. (e.0.now, e.1.now)) result
            ≡ entry_after K.cmp self.now (option_map (λ k. k.now) above.entry) }
        ensures rising { HasRisingKeys K.cmp self.now }
    {
        // What the root says of the entries: their keys rise.
        let _ = height(&self.root);
        match above {
            None => find::first(&self.root),
            Some(key) => find::above(&self.root, key),
        }
    }

    /// The marked entry with the least key above `above`, or with the least key of all where that
    /// is `None`.
    ///
    /// It goes past the entries that aren't marked without a look at each: it looks at no more than
    /// about two nodes for each binary digit of the number of entries.
    pub fn marked_after(&self, above: Option<&K>) -> Option<(&K, &V)>
        ensures entry { option_map (λ e. (e.0.now, e.1.now)) result
            ≡ marked_after V.marked K.cmp self.now (option_map (λ k. k.now) above.entry) }
        ensures rising { HasRisingKeys K.cmp self.now }
    {
        // What the root says of the entries: their keys rise.
        let _ = height(&self.root);
        match above {
            None => find::first_marked(&self.root),
            Some(key) => find::marked_above(&self.root, key),
        }
    }

    /// Puts the first entries above `above`, or of all where that is `None`, into `out`, in the
    /// order of their keys: as many as there is room for. They take the place of what it held. One
    /// walk of the tree finds them all.
    pub fn collect_after<'a, const N: usize>(
        &'a self,
        above: Option<&K>,
        out: &mut ArrayVec<Option<(&'a K, &'a V)>, N>,
    )
        ensures entries { map (option_map {U = K × V} (λ e. (e.0.now, e.1.now))) out.new.items
            ≡ map Some (take N (entries_after K.cmp self.now
            (option_map (λ k. k.now) above.entry))) }
        ensures rising { HasRisingKeys K.cmp self.now }
    {
        // What the root says of the entries: their keys rise.
        let _ = height(&self.root);
        out.clear();
        match above {
            None => find::collect(&self.root, out),
            Some(key) => find::collect_above(&self.root, key, out),
        }
    }

    /// A version with the same entries, which no later change of this map reaches.
    ///
    /// It asks for no memory. The `Result` is that of `Rc::clone`, which fails where `usize::MAX`
    /// versions share a root.
    pub fn share(&self) -> Result<Self, AllocError>
        ensures { IfOk result (λ version. version ≡ self.now) }
    {
        Ok(Map {
            alloc: self.alloc,
            root: shared(&self.root)?,
            len: self.len,
        })
    }

    /// Its tree.
    pub(crate) fn into_root(self) -> Link<K, V>
        ensures { entries_of result ≡ self }
    {
        self.root
    }

    /// Changes the value of a key in its place, and answers whether it did: it doesn't, and the map
    /// is as it was, where the map doesn't have the key, or shares the value or a node on the way
    /// to it with a version.
    ///
    /// It makes no node. A value that it changes is counted by `meter` as one. The change leaves a
    /// value marked, or not, as it was.
    pub fn change_in_place<F: FnOnce(&mut V)>(
        &mut self,
        key: &K,
        change: F,
        meter: &mut Meter,
    ) -> bool
        requires callable { F.IsAlwaysCallable change }
        requires keeps_marks { KeepsMarks V.marked F.FnOnce change }
        ensures changed { IsTrue result
            → ChangesValue F.FnOnce change K.cmp self.old key.now self.new }
        ensures unchanged { IsFalse result → self.new ≡ self.old }
        ensures rising { HasRisingKeys K.cmp self.old }
        ensures not_less { meter.old ≤ meter.new }
        ensures most { meter.new ≤ meter.old + 1 }
        ensures counted { IsTrue result → counted_up meter.old ≤ meter.new }
        ensures uncounted { IsFalse result → meter.new ≡ meter.old }
    {
        // What the root says of the entries: their keys rise.
        let _ = height(&self.root);
        let is_changed = change_in_place(&mut self.root, key, change);
        if is_changed {
            meter.count();
        }
        is_changed
    }

    /// Sets the value of a key, and answers the earlier value. An equal key that is there stays.
    ///
    /// The nodes that it makes are counted by `meter`: at least one, and at most 8 d + 8, where d
    /// is how many binary digits write one more than the entries before. A value that is put in
    /// place makes none, and is counted as one.
    ///
    /// # Errors
    ///
    /// `AllocError` where memory is refused, or the map has `usize::MAX` entries and the value
    /// isn't put in place. The map is then as it was, and the meter keeps what was made.
    pub fn insert(
        &mut self,
        key: K,
        value: V,
        meter: &mut Meter,
    ) -> Result<Option<Rc<V>>, AllocError>
        ensures before { IfOk result (λ before. option_map
            (λ held. held.value) before ≡ value_at K.cmp self.old key) }
        ensures ok { OnOk result (self.new ≡ insert_entry K.cmp self.old key value) }
        ensures err { OnErr result (self.new ≡ self.old) }
        ensures rising { HasRisingKeys K.cmp self.old }
        ensures not_less { meter.old ≤ meter.new }
        ensures most { meter.new ≤ meter.old + most_nodes (length self.old) }
        ensures counted { OnOk result (counted_up meter.old ≤ meter.new) }
    {
        // What the root says of the entries: their keys rise.
        let _ = height(&self.root);
        let value = Rc::new(self.alloc, value)?;
        match put_in_place(&mut self.root, &key, value) {
            Ok(before) => {
                meter.count();
                Ok(Some(before))
            }
            Err(value) => {
                let key = Rc::new(self.alloc, key)?;
                self.put(&Entry { key, value }, meter)
            }
        }
    }

    // The same of an entry, by a new path to it.
    fn put(&mut self, entry: &Entry<K, V>, meter: &mut Meter) -> Result<Option<Rc<V>>, AllocError>
        ensures before { IfOk result (λ before. option_map
            (λ held. held.value) before ≡ value_at K.cmp self.old entry.now.key.value) }
        ensures ok { OnOk result (self.new
            ≡ insert_entry K.cmp self.old entry.now.key.value entry.now.value.value) }
        ensures err { OnErr result (self.new ≡ self.old) }
        ensures not_less { meter.old ≤ meter.new }
        ensures most { meter.new ≤ meter.old + most_nodes (length self.old) }
        ensures counted { OnOk result (counted_up meter.old ≤ meter.new) }
    {
        // What the root says of the entries: they are enough for its height.
        let _ = height(&self.root);
        if self.len == usize::MAX {
            return Err(AllocError);
        }
        let alloc = self.alloc;
        let before = self.held(&entry.key)?;
        let root = insert(alloc, &self.root, entry, meter)?;
        self.root = root;
        match before {
            None => {
                self.len += 1;
                Ok(None)
            }
            Some(before) => Ok(Some(before)),
        }
    }

    /// Takes out the entry of a key, and answers its value, or answers `None` where the map does
    /// not have the key.
    ///
    /// It adds nothing to `meter` where the key is absent, and at most 8 d + 8, where d is how many
    /// binary digits write one more than the entries before.
    ///
    /// # Errors
    ///
    /// `AllocError` where memory is refused. The map is then as it was, and the meter keeps what
    /// was made.
    pub fn remove(&mut self, key: &K, meter: &mut Meter) -> Result<Option<Rc<V>>, AllocError>
        ensures before { IfOk result (λ before. option_map
            (λ held. held.value) before ≡ value_at K.cmp self.old key.now) }
        ensures ok { OnOk result (self.new ≡ remove_entry (is_at (K.cmp key.now)) self.old) }
        ensures absent { IsNone (value_at K.cmp self.old key.now) → self.new ≡ self.old }
        ensures err { OnErr result (self.new ≡ self.old) }
        ensures rising { HasRisingKeys K.cmp self.old }
        ensures not_less { meter.old ≤ meter.new }
        ensures unmade { OnOk result (IsNone (value_at K.cmp self.old key.now)
            → meter.new ≡ meter.old) }
        ensures most { meter.new ≤ meter.old + most_nodes (length self.old) }
    {
        // What the root says of the entries: their keys rise, and they are enough for its height.
        let _ = height(&self.root);
        let Some(value) = self.held(key)? else {
            return Ok(None);
        };
        let rest = remove(self.alloc, &self.root, key, meter)?;
        self.root = rest;
        self.len -= 1;
        Ok(Some(value))
    }
}
