//! The nodes that lie in entries, and the strong ones among them.

ghost use Rattle.std.specs.Prelude.{◌≡◌, ◌<◌, ◌≤◌, ◌^◌, IfOk, length};
ghost use Rattle.comp_tree.specs.declared.shape.Connect.{Connect};
ghost use Rattle.comp_tree.specs.Raster.{Raster, IsPlane};
ghost use Rattle.comp_tree.specs.Components.{tree_of};
ghost use Rattle.node_sums.specs.Outlines.{AreOutlinesOfTree, ForEachPlaneOutlined};
ghost use Rattle.source_pick.specs.Sources.{is_large, is_lowest, is_entry, is_strong, has_contrast};
ghost use Rattle.source_pick.specs.Passes.{AreEntries, AreStrong, entry_number};

use crate::choice::Choice;
use comp_tree::{NONE, Tree};
use costs::OutOfMemory;
use node_sums::{Outline, flux_by_outlines};
use std::alloc::Global;

// For each node the entry in which it lies, or `NONE`.
pub(crate) fn entries_of_nodes(
    alloc: Global,
    tree: &Tree,
    outlines: &[Outline],
    choice: &Choice,
) -> Result<Vec<u32>, OutOfMemory>
    requires { AreOutlinesOfTree tree.now outlines.now }
    ensures { IfOk result (λ entries.
        AreEntries choice.now tree.now outlines.now (length tree.now.rows) entries.items) }
{
    let count = tree.node_count();
    let mut entries = vec![in alloc; NONE; count as usize]?;
    find_entries(tree, outlines, choice, &mut entries);
    Ok(entries)
}

// One pass from the roots: parents have smaller numbers.
fn find_entries(tree: &Tree, outlines: &[Outline], choice: &Choice, entries: &mut [u32])
    requires outlines { AreOutlinesOfTree tree.now outlines.now }
    requires one_each { length entries.old ≡ length tree.now.rows }
    ensures { AreEntries choice.now tree.now outlines.now (length tree.now.rows) entries.new }
{
    for n in 0..tree.node_count() {
        let entry = entry_of_node(tree, outlines, choice, entries, n);
        entries[n as usize] = entry;
    }
}

// An entry lies in itself, and any other node in the entry of its parent.
fn entry_of_node(tree: &Tree, outlines: &[Outline], choice: &Choice, entries: &[u32], n: u32) -> u32
    requires node { n < length tree.now.rows }
    requires outlines { AreOutlinesOfTree tree.now outlines.now }
    requires parents { AreEntries choice.now tree.now outlines.now n entries.now }
    ensures { ForEachPlaneOutlined tree.now outlines.now (λ r connect. IsPlane r
        → result ≡ entry_number r connect choice.now n) }
{
    if passes_as_entry(tree, outlines, choice, n) {
        return n;
    }
    let parent = tree.parent(n);
    if parent == NONE {
        return NONE;
    }
    entries[parent as usize]
}

fn passes_as_entry(tree: &Tree, outlines: &[Outline], choice: &Choice, n: u32) -> bool
    requires node { n < length tree.now.rows }
    requires outlines { AreOutlinesOfTree tree.now outlines.now }
    ensures { ForEachPlaneOutlined tree.now outlines.now (λ r connect. IsPlane r
        → result ≡ is_entry r connect choice.now n) }
{
    if tree.rows()[n as usize].level < choice.threshold {
        return false;
    }
    if !lies_lowest(tree, choice, n) {
        return false;
    }
    has_size(tree, outlines, choice, n)
}

// Whether a node is a root, or its parent lies below the threshold.
fn lies_lowest(tree: &Tree, choice: &Choice, n: u32) -> bool
    requires { n < length tree.now.rows }
    ensures { (r : Raster) (connect : Connect) → tree.now ≡ tree_of r connect
        → result ≡ is_lowest r connect choice.now n }
{
    let parent = tree.parent(n);
    if parent == NONE {
        return true;
    }
    tree.rows()[parent as usize].level < choice.threshold
}

// Whether a node has the area and the flux that are asked for.
fn has_size(tree: &Tree, outlines: &[Outline], choice: &Choice, n: u32) -> bool
    requires node { n < length tree.now.rows }
    requires outlines { AreOutlinesOfTree tree.now outlines.now }
    ensures { ForEachPlaneOutlined tree.now outlines.now (λ r connect. IsPlane r
        → result ≡ is_large r connect choice.now n) }
{
    if outlines[n as usize].area < choice.min_area {
        return false;
    }
    flux_by_outlines(tree, outlines, n) >= choice.min_flux
}

pub(crate) fn strong_nodes(
    alloc: Global,
    tree: &Tree,
    outlines: &[Outline],
    choice: &Choice,
    entries: &[u32],
) -> Result<Vec<bool>, OutOfMemory>
    requires outlines { AreOutlinesOfTree tree.now outlines.now }
    requires entries { AreEntries choice.now tree.now outlines.now (length tree.now.rows) entries.now }
    ensures { IfOk result (λ strong.
        AreStrong choice.now tree.now outlines.now (length tree.now.rows) strong.items) }
{
    let count = tree.node_count();
    let mut strong = vec![in alloc; false; count as usize]?;
    find_strong(tree, outlines, choice, entries, &mut strong);
    Ok(strong)
}

fn find_strong(
    tree: &Tree,
    outlines: &[Outline],
    choice: &Choice,
    entries: &[u32],
    strong: &mut [bool],
)
    requires outlines { AreOutlinesOfTree tree.now outlines.now }
    requires entries { AreEntries choice.now tree.now outlines.now (length tree.now.rows) entries.now }
    requires one_each { length strong.old ≡ length tree.now.rows }
    ensures { AreStrong choice.now tree.now outlines.now (length tree.now.rows) strong.new }
{
    for n in 0..tree.node_count() {
        let is_strong_node = passes_as_strong(tree, outlines, choice, entries, n);
        strong[n as usize] = is_strong_node;
    }
}

fn passes_as_strong(
    tree: &Tree,
    outlines: &[Outline],
    choice: &Choice,
    entries: &[u32],
    n: u32,
) -> bool
    requires node { n < length tree.now.rows }
    requires outlines { AreOutlinesOfTree tree.now outlines.now }
    requires entries { AreEntries choice.now tree.now outlines.now (length tree.now.rows) entries.now }
    ensures { ForEachPlaneOutlined tree.now outlines.now (λ r connect. IsPlane r
        → result ≡ is_strong r connect choice.now n) }
{
    let entry = entries[n as usize];
    if entry == NONE {
        return false;
    }
    if !has_size(tree, outlines, choice, n) {
        return false;
    }
    has_part(tree, outlines, choice, n, entry)
}

// Whether node `n` has its part of the flux of its entry.
fn has_part(tree: &Tree, outlines: &[Outline], choice: &Choice, n: u32, entry: u32) -> bool
    requires node { n < length tree.now.rows }
    requires entry { entry < length tree.now.rows }
    requires outlines { AreOutlinesOfTree tree.now outlines.now }
    ensures { ForEachPlaneOutlined tree.now outlines.now (λ r connect. IsPlane r
        → result ≡ has_contrast r connect choice.now n entry) }
{
    let whole = flux_by_outlines(tree, outlines, entry) as i128;
    let part = flux_by_outlines(tree, outlines, n) as i128;
    1000 * part >= choice.contrast as i128 * whole
}
