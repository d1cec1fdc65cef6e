//! Splits: nodes with two or more strong children in one entry.

ghost use Rattle.std.specs.Prelude.{◌≡◌, ◌<◌, ℕ, IfOk, IfSome, IfNone, length, map};
ghost use Rattle.source_pick.specs.Passes.{IsStrongChild, AreStrongChildCounts, AreAboveSplits, with_one_more, are_several};

use comp_tree::{NONE, Tree};
use costs::OutOfMemory;
use std::alloc::{AllocError, Global};

// How many strong children a node has in its entry, as far as it matters.
#[derive(Clone, Copy, PartialEq, Eq, Debug)]
pub(crate) enum StrongChildren {
    Zero,
    One,
    Several,
}

impl StrongChildren {
    fn and_one(self) -> StrongChildren
        ensures { result ≡ with_one_more self }
    {
        match self {
            StrongChildren::Zero => StrongChildren::One,
            StrongChildren::One => StrongChildren::Several,
            StrongChildren::Several => StrongChildren::Several,
        }
    }

    pub(crate) fn are_several(&self) -> bool
        ensures { result ≡ are_several self.now }
    {
        match self {
            StrongChildren::Zero => false,
            StrongChildren::One => false,
            StrongChildren::Several => true,
        }
    }
}

// For each node how many strong children it has in its entry.
pub(crate) fn strong_children(
    alloc: Global,
    tree: &Tree,
    entries: &[u32],
    strong: &[bool],
) -> Result<Vec<StrongChildren>, OutOfMemory>
    requires entries { length entries.now ≡ length tree.now.rows }
    requires strong { length strong.now ≡ length tree.now.rows }
    ensures { IfOk result (λ children.
        AreStrongChildCounts tree.now.rows entries.now strong.now (length tree.now.rows) children.items) }
{
    let mut children = vec![in alloc; StrongChildren::Zero; tree.rows().len()]?;
    count_children(tree, entries, strong, &mut children);
    Ok(children)
}

fn count_children(tree: &Tree, entries: &[u32], strong: &[bool], children: &mut [StrongChildren])
    requires entries { length entries.now ≡ length tree.now.rows }
    requires strong { length strong.now ≡ length tree.now.rows }
    requires none { AreStrongChildCounts tree.now.rows entries.now strong.now 0 children.old }
    ensures { AreStrongChildCounts tree.now.rows entries.now strong.now (length tree.now.rows) children.new }
{
    for n in 0..tree.node_count() {
        if let Some(parent) = inner_parent(tree, entries, strong, n) {
            let more = children[parent as usize].and_one();
            children[parent as usize] = more;
        }
    }
}

// The parent of a strong node, where it lies in an entry.
fn inner_parent(tree: &Tree, entries: &[u32], strong: &[bool], n: u32) -> Option<u32>
    requires node { n < length tree.now.rows }
    requires entries { length entries.now ≡ length tree.now.rows }
    requires strong { length strong.now ≡ length tree.now.rows }
    ensures inside { IfSome result (λ m. m < length tree.now.rows) }
    ensures found { IfSome result (λ m. IsStrongChild tree.now.rows entries.now strong.now m n) }
    ensures none { IfNone result ((m : ℕ) → m < length tree.now.rows
        → IsStrongChild tree.now.rows entries.now strong.now m n → ⊥) }
{
    if !strong[n as usize] {
        return None;
    }
    let parent = tree.parent(n);
    if parent == NONE {
        return None;
    }
    if entries[parent as usize] == NONE {
        return None;
    }
    Some(parent)
}

// For each node whether a split lies within it.
pub(crate) fn above_splits(
    alloc: Global,
    tree: &Tree,
    children: &[StrongChildren],
) -> Result<Vec<bool>, OutOfMemory>
    requires { length children.now ≡ length tree.now.rows }
    ensures { IfOk result (λ flags.
        AreAboveSplits tree.now.rows (map are_several children.now) flags.items) }
{
    let mut flags = split_flags(alloc, children)?;
    pass_up(tree, &mut flags);
    Ok(flags)
}

fn split_flags(alloc: Global, children: &[StrongChildren]) -> Result<Vec<bool>, AllocError>
    ensures { IfOk result (λ flags. flags.items ≡ map are_several children.now) }
{
    children.iter().map(|c| c.are_several()).collect(alloc)
}

// One pass from the last node: children have greater numbers.
fn pass_up(tree: &Tree, flags: &mut [bool])
    requires { length flags.old ≡ length tree.now.rows }
    ensures { AreAboveSplits tree.now.rows flags.old flags.new }
{
    for n in (0..tree.node_count()).rev() {
        let parent = tree.parent(n);
        if flags[n as usize] && parent != NONE {
            flags[parent as usize] = true;
        }
    }
}
