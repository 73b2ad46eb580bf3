//! Trees that nobody has any more, which are taken apart some nodes at a time.
ghost use Rattle.std.specs.Prelude.{◌≡◌, ◌+◌, ◌<◌, ◌≤◌, ◌==◌, length, IfOk};
ghost use Rattle.nutmap.specs.Tree.{entries_of, height_of};
ghost use Rattle.nutmap.specs.Waste.{nodes_in, AreKept, nothing, IsWithTree};

use crate::map::Map;
use crate::marked::Marked;
use crate::tree::{Link, Node, height};
use std::alloc::{AllocError, Global};
use std::marker::Model;
use std::rc::Rc;

/// The most trees that wait, parts of trees among them: 96 trees of 24 levels. A tree of 32,768
/// entries has 21 at most, and leaves one part at most on each while it is taken apart.
pub const WASTE_LIMIT: usize = 96 * 24;

/// The most levels of a tree.
const HEIGHT_LIMIT: usize = 255;

/// Trees that wait to be taken apart: what no version shares is freed some nodes at a time.
///
/// Contracts see how many trees wait, and how many nodes they have.
#[derive(Drop)]
pub struct Waste<K: Ord + Drop, V: Marked> {
    trees: Vec<Rc<Node<K, V>>>,
}

impl<K: Ord + Drop, V: Marked> Model for Waste<K, V> {
    ghost use Rattle.std.specs.Prelude.{length};
    ghost use Rattle.nutmap.specs.Waste.{Waiting, nodes_in, AreKept};

    ghost Value = { Waiting };

    ghost view = { λ w. record { trees = length w.trees.items; nodes = nodes_in w.trees.items } };

    ghost invariant = { λ w. AreKept w.trees };
}

impl<K: Ord + Drop, V: Marked> Waste<K, V> {
    /// Nothing waits. Only here it asks for memory.
    ///
    /// # Errors
    ///
    /// `AllocError` where memory is refused.
    pub fn new(alloc: Global) -> Result<Self, AllocError>
        ensures { IfOk result (λ waste. waste ≡ nothing) }
    {
        Ok(Waste {
            trees: Vec::with_capacity(alloc, WASTE_LIMIT)?,
        })
    }

    /// Whether nothing waits.
    pub fn is_empty(&self) -> bool
        ensures { result ≡ (self.now.trees == 0) }
    {
        self.trees.is_empty()
    }

    /// The map waits to be taken apart. Where there is no room, it is dropped at once.
    pub fn add(&mut self, map: Map<K, V>)
        ensures { IsWithTree (length map) self.old self.new }
    {
        if self.trees.len() + HEIGHT_LIMIT <= WASTE_LIMIT {
            let root = map.into_root();
            // What a tree says of itself: its height is a number of 8 bits.
            let _ = height(&root);
            push(&mut self.trees, root);
        }
    }

    /// Takes so many nodes apart, or all that wait, and answers how many they were. One that a
    /// version shares stays as it is, and counts.
    pub fn take_apart(&mut self, most: usize) -> usize
        ensures most { result ≤ most }
        ensures fewer { self.new.nodes + result ≤ self.old.nodes }
        ensures all { result < most → self.new ≡ nothing }
    {
        take_apart(&mut self.trees, most)
    }
}

/// The height of a tree that has a node.
fn levels<K: Ord + Drop, V: Marked>(tree: &Rc<Node<K, V>>) -> u8
    ensures height { result ≡ tree.now.value.1 }
    ensures high { 0 < result }
    ensures some { 0 < length tree.now.value.0 }
{
    let node: &Node<K, V> = tree;
    node.height
}

/// The tree waits above the others.
fn push<K: Ord + Drop, V: Marked>(trees: &mut Vec<Rc<Node<K, V>>>, link: Link<K, V>)
    requires kept { AreKept trees.old }
    requires room { length trees.old.items + height_of link ≤ WASTE_LIMIT }
    ensures kept { AreKept trees.new }
    ensures nodes { nodes_in trees.new.items ≡ nodes_in trees.old.items + length (entries_of link) }
    ensures trees { length trees.new.items ≤ length trees.old.items + 1 }
{
    if let Some(tree) = link {
        // What a tree says of itself: it has a level.
        let _ = levels(&tree);
        trees.push(tree).unwrap();
    }
}

/// Takes the tree's highest node off, whose sides wait from now on, unless a version shares it.
fn open<K: Ord + Drop, V: Marked>(trees: &mut Vec<Rc<Node<K, V>>>, tree: Rc<Node<K, V>>)
    requires kept { AreKept trees.old }
    requires room { length trees.old.items + tree.value.1 ≤ WASTE_LIMIT }
    ensures kept { AreKept trees.new }
    ensures nodes { nodes_in trees.new.items + 1
        ≤ nodes_in trees.old.items + length tree.value.0 }
{
    // What a tree says of itself: it has a node.
    let _ = levels(&tree);
    if let Some(node) = Rc::into_inner(tree) {
        push(trees, node.left);
        push(trees, node.right);
    }
}

/// Takes so many nodes apart, or all.
fn take_apart<K: Ord + Drop, V: Marked>(trees: &mut Vec<Rc<Node<K, V>>>, most: usize) -> usize
    requires kept { AreKept trees.old }
    ensures kept { AreKept trees.new }
    ensures most { result ≤ most }
    ensures fewer { nodes_in trees.new.items + result ≤ nodes_in trees.old.items }
    ensures all { result < most → length trees.new.items ≡ 0 }
{
    let mut count = 0;
    while count < most {
        let Some(tree) = trees.pop() else {
            return count;
        };
        open(trees, tree);
        count += 1;
    }
    count
}
