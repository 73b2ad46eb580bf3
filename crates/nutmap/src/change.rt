//! Changing a value in its place.
ghost use Rattle.std.specs.Prelude.{◌≡◌, IsTrue, IsFalse};
ghost use Rattle.std.specs.Fn.{FnOnceReturnsAtMut};
ghost use Rattle.std.specs.Map.{keys_of};
ghost use Rattle.nutmap.specs.Entries.{ChangesValue};
ghost use Rattle.nutmap.specs.Marked.{has_marked, KeepsMarks};
ghost use Rattle.nutmap.specs.Tree.{entries_of, height_of};

use crate::marked::Marked;
use crate::tree::Link;
use std::cmp::Ordering;
use std::rc::Rc;

/// Changes the value at the key. No node is made.
///
/// The answer is false, and the tree is as it was, where the tree doesn't have the key, or a node
/// on the way to it is shared, or the value: `Rc::get_mut` lets only the one owner change it.
pub(crate) fn change_in_place<K: Ord + Drop, V: Marked, F: FnOnce(&mut V)>(
    link: &mut Link<K, V>,
    key: &K,
    change: F,
) -> bool
    requires callable { F.IsAlwaysCallable change }
    requires keeps_marks { KeepsMarks V.marked F.FnOnce change }
    ensures changed { IsTrue result → ChangesValue F.FnOnce change K.cmp
        (entries_of link.old) key.now (entries_of link.new) }
    ensures unchanged { IsFalse result → entries_of link.new ≡ entries_of link.old }
    ensures keys { keys_of (entries_of link.new) ≡ keys_of (entries_of link.old) }
    ensures height { height_of link.new ≡ height_of link.old }
    ensures marks { has_marked V.marked (entries_of link.new)
        ≡ has_marked V.marked (entries_of link.old) }
{
    let Some(node) = link else {
        return false;
    };
    let Some(node) = Rc::get_mut(node) else {
        return false;
    };
    match key.cmp(&*node.entry.key) {
        Ordering::Less => change_in_place(&mut node.left, key, change),
        Ordering::Equal => change_unshared(&mut node.entry.value, change),
        Ordering::Greater => change_in_place(&mut node.right, key, change),
    }
}

/// Changes the value, unless it is shared.
fn change_unshared<V: Drop, F: FnOnce(&mut V)>(value: &mut Rc<V>, change: F) -> bool
    requires { F.IsAlwaysCallable change }
    ensures changed { IsTrue result
        → FnOnceReturnsAtMut F.FnOnce change value.old.value tt value.new.value }
    ensures unchanged { IsFalse result → value.new.value ≡ value.old.value }
{
    match Rc::get_mut(value) {
        Some(value) => {
            change(value);
            true
        }
        None => false,
    }
}
