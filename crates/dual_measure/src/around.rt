//! Means, and the values around a node.

ghost use Rattle.std.specs.Prelude.{◌≡◌, ◌<◌, length};
ghost use Rattle.comp_tree.specs.declared.shape.Connect.{Connect};
ghost use Rattle.comp_tree.specs.Raster.{Raster, IsPlane};
ghost use Rattle.comp_tree.specs.Components.{tree_of};
ghost use Rattle.dual_measure.specs.Measures.{floor_mean, measures_of, back_of, IsSumOf, AreTheTreesMeasures};

use crate::values::Measure;
use comp_tree::{NONE, Tree};

/// The mean of the values around a node, in thousandths: over the pixels seen in its parent and not in the node itself,
/// rounded towards minus infinity. It is 0 at a root, and where no such pixel is seen.
pub fn back(tree: &Tree, measures: &[Measure], n: u32) -> i64
    requires node { n < length tree.now.rows }
    requires measures { AreTheTreesMeasures tree.now measures.now }
    ensures { (values plane : Raster) (connect : Connect) → IsPlane plane
        → tree.now ≡ tree_of plane connect → measures.now ≡ measures_of values plane connect
        → result ≡ back_of values plane connect n }
{
    let parent = tree.rows()[n as usize].parent;
    if parent == NONE {
        return 0;
    }
    let whole = measures[parent as usize];
    let part = measures[n as usize];
    mean(whole.v - part.v, whole.seen - part.seen)
}

// The mean of so many values with this sum, in thousandths, rounded towards minus infinity; 0 of none.
#[tactic(auto, unfolding(crate::specs::Measures::floor_mean))]
pub(crate) fn mean(sum: i64, count: u32) -> i64
    requires { IsSumOf count sum }
    ensures { result ≡ floor_mean sum count }
{
    if count == 0 {
        return 0;
    }
    (1000 * sum as i128).div_euclid(count as i128) as i64
}
