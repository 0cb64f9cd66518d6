ghost use Rattle.std.specs.Prelude.{◌≡◌};
ghost use Rattle.abc_base_trees.specs.Classes.{apply_key, tree_keys_eq, leaf_key};

use crate::heads::Head;

/// The key of a class: a head alone, or the class of a tree and that of one more tree under its root.
#[derive(Clone, Copy, Debug, PartialEq, Eq, Hash)]
pub struct Key {
    /// 0 for a head alone, else 1.
    pub step: u8,
    /// The kind of the head; else 0.
    pub kind: u8,
    /// The value of the head; else the class of the tree.
    pub first: usize,
    /// 0 of a head; else the class of the tree that comes under the root.
    pub second: usize,
}

/// Whether two keys are equal.
pub(crate) fn are_equal(a: Key, b: Key) -> bool
    ensures { result ≡ tree_keys_eq a b }
{
    a == b
}

pub(crate) fn key_of_leaf(head: Head) -> Key
    ensures { result ≡ leaf_key head }
{
    Key {
        step: 0,
        kind: head.kind,
        first: head.value as usize,
        second: 0,
    }
}

pub(crate) fn key_of_apply(tree: usize, part: usize) -> Key
    ensures { result ≡ apply_key tree part }
{
    Key {
        step: 1,
        kind: 0,
        first: tree,
        second: part,
    }
}
