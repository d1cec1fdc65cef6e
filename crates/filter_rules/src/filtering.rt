//! The plane that a filter leaves: the values of the nodes, and those of the pixels.

ghost use Rattle.std.specs.Prelude.{◌≡◌, ℕ, ◌*◌, ◌<◌, ◌≤◌, ◌⊎◌, ◌≤ℤ◌, IfOk, length, map, slice_index};
ghost use Rattle.comp_tree.specs.declared.shape.Connect.{Connect};
ghost use Rattle.comp_tree.specs.Limits.{IsWithin, IsWithinRange, value_bound};
ghost use Rattle.comp_tree.specs.Components.{tree_of, no_node};
ghost use Rattle.comp_tree.specs.Nesting.{level_in};
ghost use Rattle.node_sums.specs.Outlines.{outlines_in, AreOutlinesOfPlane};
ghost use Rattle.filter_rules.specs.Filtered.{filtered};
ghost use Rattle.filter_rules.specs.Passes.{HasRisingLevels, AreValues, value_of_node, filled_pixel as filled_pixel_of, value_in};

use crate::keeping::kept_nodes;
use crate::rule::{Criterion, Rule};
use comp_tree::{Canvas, NONE, NodeRow, Plane, Shape, Tree};
use costs::OutOfMemory;
use node_sums::Outline;
use std::alloc::Global;

/// The plane that a filter leaves of `plane`: each pixel gets the level of the smallest kept node that holds it, or under
/// `Rule::Subtractive` the sum of the rises of all kept nodes that hold it. Undefined pixels stay undefined.
///
/// It takes at most three passes over the nodes and one over the pixels. The outlines go as soon as it is known which nodes
/// are kept. The one error is that memory was refused.
pub fn filter(
    alloc: Global,
    plane: &Plane,
    tree: &Tree,
    outlines: Vec<Outline>,
    rule: Rule,
    criterion: &Criterion,
) -> Result<Plane, OutOfMemory>
    requires of_plane { AreOutlinesOfPlane plane.now tree.now outlines.items }
    requires fill { criterion.now.min_fill ≤ 1000 }
    ensures { IfOk result (λ left. (connect : Connect) → tree.now ≡ tree_of plane.now connect
        → outlines.items ≡ outlines_in plane.now connect
        → left ≡ filtered plane.now connect rule criterion.now) }
{
    let shape = plane.shape();
    let kept = kept_nodes(alloc, tree, &outlines, rule, criterion)?;
    drop(outlines);
    let values = node_values(alloc, tree.rows(), rule, &kept)?;
    fill(alloc, shape, tree.node_of(), &values)
}

// The value of the pixels whose smallest node it is, for each node: its own level, or what its parent, whose number is
// smaller, hands down.
fn node_values(
    alloc: Global,
    rows: &[NodeRow],
    rule: Rule,
    kept: &[bool],
) -> Result<Vec<i64>, OutOfMemory>
    requires rows { HasRisingLevels rows.now }
    requires one_each { length kept.now ≡ length rows.now }
    ensures one_each { IfOk result (λ values. length values.items ≡ length rows.now) }
    ensures values { IfOk result (λ values. AreValues rows.now rule kept.now values.items) }
{
    let mut values = Vec::with_capacity(alloc, rows.len())?;
    for n in 0..rows.len() {
        let value = node_value(rows, rule, kept, &values, n);
        values.push(value)?;
    }
    Ok(values)
}

// The value of node `n`, where those of the nodes before it are known.
fn node_value(rows: &[NodeRow], rule: Rule, kept: &[bool], values: &[i64], n: usize) -> i64
    requires rows { HasRisingLevels rows.now }
    requires one_each { length kept.now ≡ length rows.now }
    requires node { n < length rows.now }
    requires before { n ≡ length values.now }
    requires values { AreValues rows.now rule kept.now values.now }
    ensures exact { result ≡ value_of_node rows.now rule kept.now values.now n }
    ensures in_range { IsWithinRange result }
    ensures at_most { result ≤ℤ level_in rows.now n }
{
    let row = rows[n];
    if row.parent == NONE {
        return row.level;
    }
    let parent = row.parent as usize;
    let above = values[parent];
    if !kept[n] {
        return above;
    }
    match rule {
        Rule::Min | Rule::Max | Rule::Direct => row.level,
        Rule::Subtractive => above + (row.level - rows[parent].level),
    }
}

// A plane in which each pixel has the value of its smallest node.
fn fill(alloc: Global, shape: Shape, node_of: &[u32], values: &[i64]) -> Result<Plane, OutOfMemory>
    requires pixels { length node_of.now ≡ shape.width * shape.height }
    requires nodes { (p : ℕ) → p < length node_of.now → (slice_index node_of.now p ≡ no_node)
        ⊎ (slice_index node_of.now p < length values.now) }
    requires values { (n : ℕ) → n < length values.now
        → IsWithin (value_bound (shape.width * shape.height)) (value_in values.now n) }
    ensures shape { IfOk result (λ plane. plane.shape ≡ shape) }
    ensures values { IfOk result (λ plane.
        plane.values ≡ map (filled_pixel_of values.now) node_of.now) }
{
    let mut canvas = Canvas::blank(alloc, shape)?;
    for p in 0..shape.pixels() {
        canvas.set(p, filled_pixel(values, node_of[p as usize]));
    }
    Ok(canvas.into_plane())
}

// What a pixel gets whose smallest node is `n`.
fn filled_pixel(values: &[i64], n: u32) -> Option<i64>
    requires { (n ≡ no_node) ⊎ (n < length values.now) }
    ensures { result ≡ filled_pixel_of values.now n }
{
    if n == NONE {
        None
    } else {
        Some(values[n as usize])
    }
}
