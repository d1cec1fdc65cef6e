//! What follows from the sums of a node: its base and its flux.

ghost use Rattle.std.specs.Prelude.{◌≡◌, ◌<◌, pos, ◌-ℤ◌, ◌*ℤ◌, ◌≤ℤ◌, length, slice_get, Some};
ghost use Rattle.comp_tree.specs.declared.shape.Connect.{Connect};
ghost use Rattle.comp_tree.specs.Raster.{Raster};
ghost use Rattle.comp_tree.specs.Components.{tree_of};
ghost use Rattle.node_sums.specs.declared.outline.Outline.{Outline as Outlined};
ghost use Rattle.node_sums.specs.Sums.{sums_of, AreSumsOfNode};
ghost use Rattle.node_sums.specs.Flux.{base_of, flux_of};
ghost use Rattle.node_sums.specs.Sizes.{HasFluxSizes};
ghost use Rattle.node_sums.specs.Outlines.{AreOutlinesOfTree, ForEachPlaneOutlined};

use crate::entry::Sums;
use crate::outline::Outline;
use comp_tree::{NONE, Tree};

/// The base of a node: the level of its parent, and at a root its own level.
pub fn base(tree: &Tree, n: u32) -> i64
    requires { n < length tree.now.rows }
    ensures { result ≡ base_of tree.now n }
{
    let parent = tree.parent(n);
    let rows = tree.rows();
    if parent == NONE {
        rows[n as usize].level
    } else {
        rows[parent as usize].level
    }
}

/// The flux of a node, by its sums: the sum of value less base over its component.
pub fn flux(tree: &Tree, sums: &Sums, n: u32) -> i64
    requires node { n < length tree.now.rows }
    requires sums { AreSumsOfNode tree.now n sums.now }
    ensures exact { (plane : Raster) (connect : Connect) → tree.now ≡ tree_of plane connect
        → sums.now ≡ sums_of plane connect n → result ≡ flux_of plane connect n }
    ensures of_sums { result ≡ sums.now.r -ℤ base_of tree.now n *ℤ pos sums.now.area }
    ensures never_negative { pos 0 ≤ℤ result }
{
    above_base(tree, n, sums.area, sums.r)
}

/// The flux of a node, by the outlines of all.
pub fn flux_by_outlines(tree: &Tree, outlines: &[Outline], n: u32) -> i64
    requires node { n < length tree.now.rows }
    requires outlines { AreOutlinesOfTree tree.now outlines.now }
    ensures exact { ForEachPlaneOutlined tree.now outlines.now
        (λ plane connect. result ≡ flux_of plane connect n) }
    ensures of_outlines { (outline : Outlined) → slice_get outlines.now n ≡ Some outline
        → result ≡ outline.r -ℤ base_of tree.now n *ℤ pos outline.area }
    ensures never_negative { pos 0 ≤ℤ result }
{
    let outline = outlines[n as usize];
    above_base(tree, n, outline.area, outline.r)
}

// The sum of value less the node's base over so many pixels, whose values have the sum `r`.
fn above_base(tree: &Tree, n: u32, area: u32, r: i64) -> i64
    requires node { n < length tree.now.rows }
    requires sizes { HasFluxSizes area r (base_of tree.now n) }
    ensures { result ≡ r -ℤ base_of tree.now n *ℤ pos area }
{
    r - base(tree, n) * area as i64
}
