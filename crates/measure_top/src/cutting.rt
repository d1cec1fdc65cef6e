//! Planes of which a part is left out, and why two small trees serve in the place of the whole one.
//!
//! A node is a component of the pixels of at least its level. So the nodes from a level `h` on depend on the pixels of at least `h` alone: without all
//! others the components of the levels from `h` on are the same sets of pixels, and a parent that lies at `h` or above is the same set too. Only the
//! numbers of nodes change, since they count all of them. A node is therefore carried from one tree to another by the pixel that represents it.
//!
//! **The near tree, for the sources.** A source lies at the threshold or above, so its pixels, and the nodes above it, are those of the pixels of at
//! least the threshold. Its base is its parent's level. Where the parent lies below the threshold, that is the greatest value beside the source's
//! component, so it shows as soon as the neighbours of those pixels are kept too. All other pixels are left out, and rows and map stay the same.
//!
//! **The deep tree, for the measures.** What is around a source are the pixels of its parent that aren't its own. A parent below the threshold has pixels
//! that aren't near any of at least the threshold, so the near tree has the parent's level, but not its pixels. A parent has the pixels of at least its
//! level that it reaches, and its level is the source's base. With the cut at the least of the threshold and of all bases each source and each parent
//! lies at the cut or above, so all of them are nodes of the deep tree, with all their pixels. A higher cut would take pixels from the deepest
//! parent; a lower one would only make the tree larger. No neighbours are kept here: the tree needs no level below the cut.
ghost use Rattle.std.specs.Prelude.{◌≡◌};
ghost use Rattle.measure_top.specs.Cuts.{cut};

use comp_tree::Plane;

/// Makes each pixel undefined that is below this level. The nodes of at least the level stay as they are.
pub(crate) fn cut_below(plane: &mut Plane, level: i64)
    ensures { plane.new ≡ cut plane.old level }
{
    let count = plane.shape().pixels();
    for p in 0..count {
        if !plane.is_at_least(level, p) {
            plane.clear(p);
        }
    }
}
