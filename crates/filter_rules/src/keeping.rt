//! Which nodes a rule keeps.

ghost use Rattle.std.specs.Prelude.{◌≡◌, ℕ, ◌<◌, ◌≤◌, IfOk, length};
ghost use Rattle.comp_tree.specs.Raster.{IsPlane};
ghost use Rattle.node_sums.specs.Outlines.{AreOutlinesOfTree, ForEachPlaneOutlined};
ghost use Rattle.filter_rules.specs.Criteria.{satisfies as satisfies_criterion};
ghost use Rattle.filter_rules.specs.Filtered.{satisfies_rule};
ghost use Rattle.filter_rules.specs.Passes.{flag, HasRisingLevels, AreWithParents, AreWithChildren, AreKeptBy};

use crate::rule::{Criterion, Rule};
use comp_tree::{NONE, NodeRow, Tree};
use costs::OutOfMemory;
use node_sums::{Outline, flux_by_outlines};
use std::alloc::Global;

// For each node whether the rule keeps it. At a root the flag says nothing: roots are kept whatever it says.
pub(crate) fn kept_nodes(
    alloc: Global,
    tree: &Tree,
    outlines: &[Outline],
    rule: Rule,
    criterion: &Criterion,
) -> Result<Vec<bool>, OutOfMemory>
    requires outlines { AreOutlinesOfTree tree.now outlines.now }
    requires fill { criterion.now.min_fill ≤ 1000 }
    ensures one_each { IfOk result (λ kept. length kept.items ≡ length tree.now.rows) }
    ensures kept { IfOk result (λ kept. ForEachPlaneOutlined tree.now outlines.now (λ plane connect. IsPlane plane
        → (n : ℕ) → n < length tree.now.rows
        → flag kept.items n ≡ satisfies_rule plane connect rule criterion.now n)) }
{
    let mut kept = satisfying(alloc, tree, outlines, criterion)?;
    apply(rule, tree.rows(), &mut kept);
    Ok(kept)
}

// For each node whether it satisfies the criterion.
fn satisfying(
    alloc: Global,
    tree: &Tree,
    outlines: &[Outline],
    criterion: &Criterion,
) -> Result<Vec<bool>, OutOfMemory>
    requires outlines { AreOutlinesOfTree tree.now outlines.now }
    requires fill { criterion.now.min_fill ≤ 1000 }
    ensures one_each { IfOk result (λ flags. length flags.items ≡ length tree.now.rows) }
    ensures flags { IfOk result (λ flags. ForEachPlaneOutlined tree.now outlines.now (λ plane connect.
        (n : ℕ) → n < length tree.now.rows
        → flag flags.items n ≡ satisfies_criterion plane connect criterion.now n)) }
{
    let count = tree.rows().len() as u32;
    let mut flags = Vec::with_capacity(alloc, count as usize)?;
    for n in 0..count {
        flags.push(satisfies(tree, outlines, n, criterion))?;
    }
    Ok(flags)
}

// Whether a node satisfies the criterion.
fn satisfies(tree: &Tree, outlines: &[Outline], n: u32, criterion: &Criterion) -> bool
    requires node { n < length tree.now.rows }
    requires outlines { AreOutlinesOfTree tree.now outlines.now }
    requires fill { criterion.now.min_fill ≤ 1000 }
    ensures { ForEachPlaneOutlined tree.now outlines.now
        (λ plane connect. result ≡ satisfies_criterion plane connect criterion.now n) }
{
    criterion.admits(&outlines[n as usize], flux_by_outlines(tree, outlines, n))
}

// From the nodes that satisfy the criterion to those that the rule keeps.
fn apply(rule: Rule, rows: &[NodeRow], kept: &mut [bool])
    requires rows { HasRisingLevels rows.now }
    requires one_each { length kept.old ≡ length rows.now }
    ensures { AreKeptBy rule rows.now kept.old kept.new }
{
    match rule {
        Rule::Min => keep_with_parents(rows, kept),
        Rule::Max => keep_with_children(rows, kept),
        Rule::Direct | Rule::Subtractive => {}
    }
}

// Keeps a node only where its parent, whose number is smaller, has been kept.
fn keep_with_parents(rows: &[NodeRow], kept: &mut [bool])
    requires rows { HasRisingLevels rows.now }
    requires one_each { length kept.old ≡ length rows.now }
    ensures { AreWithParents rows.now kept.old kept.new (length rows.now) }
{
    for n in 0..rows.len() {
        let parent = rows[n].parent;
        if parent != NONE && !kept[parent as usize] {
            kept[n] = false;
        }
    }
}

// Keeps the parent of each node that is kept, from the last node to the first.
fn keep_with_children(rows: &[NodeRow], kept: &mut [bool])
    requires rows { HasRisingLevels rows.now }
    requires one_each { length kept.old ≡ length rows.now }
    ensures { AreWithChildren rows.now kept.old kept.new 0 }
{
    for n in (0..rows.len()).rev() {
        let parent = rows[n].parent;
        if parent != NONE && kept[n] {
            kept[parent as usize] = true;
        }
    }
}
