//! The numbers of disjoint nodes, and of all nodes that lie in them.

ghost use Rattle.std.specs.Prelude.{◌≡◌, ◌≤◌, ◌<◌, ℕ, List, IfOk, length, Some, slice_get, slice_index};
ghost use Rattle.node_sums.specs.DisjointNodes.{AreDisjointNodes, AreNumbered};
ghost use Rattle.node_sums.specs.NodeNumbers.{AreMarked};

use comp_tree::{NONE, Tree};
use costs::OutOfMemory;
use std::alloc::Global;

/// For each node of a tree the place, from 1, of the listed node in which it lies, else 0: one pass over the nodes from
/// the first to the last. The one error is that memory was refused.
pub fn numbers_of_nodes(alloc: Global, tree: &Tree, nodes: &[u32]) -> Result<Vec<u32>, OutOfMemory>
    requires { AreDisjointNodes tree.now nodes.now }
    ensures { IfOk result (λ numbers.
        AreNumbered tree.now nodes.now (length tree.now.rows) numbers.items) }
{
    let mut numbers = vec![in alloc; 0u32; tree.rows().len()]?;
    mark_nodes(nodes, &mut numbers);
    pass_down(tree, &mut numbers);
    Ok(numbers)
}

fn mark_nodes(nodes: &[u32], numbers: &mut [u32])
    requires inside { (i n : ℕ) → slice_get nodes.now i ≡ Some n → n < length numbers.old }
    requires few { length nodes.now ≤ 2147483647 }
    requires none { (n : ℕ) → slice_index numbers.old n ≡ 0 }
    ensures { AreMarked (length numbers.old) nodes.now (length nodes.now) numbers.new }
{
    for (i, n) in nodes.iter().enumerate() {
        numbers[*n as usize] = i as u32 + 1;
    }
}

// One pass from the roots: a node that isn't listed has the number of its parent.
fn pass_down(tree: &Tree, numbers: &mut [u32])
    requires { length numbers.old ≡ length tree.now.rows }
    ensures { (marked : List ℕ) → AreDisjointNodes tree.now marked
        → AreMarked (length tree.now.rows) marked (length marked) numbers.old
        → AreNumbered tree.now marked (length tree.now.rows) numbers.new }
{
    for n in 0..tree.node_count() {
        let parent = tree.parent(n);
        if numbers[n as usize] == 0 && parent != NONE {
            let number = numbers[parent as usize];
            numbers[n as usize] = number;
        }
    }
}
