//! Forests of links between the pixels of a plane.

ghost use Rattle.std.specs.Prelude.{◌≡◌, ◌+◌, ◌<◌, ◌≤◌, ◌↔◌, length, IsTrue};
ghost use Rattle.comp_tree.specs.Forest.{LiesInStretch, LinksToEarlier, IsForest};

use crate::NONE;
use crate::plane::Plane;
use std::marker::Model;

/// A link for each pixel of a plane: another pixel, or `NONE`.
///
/// In a forest of a plane each link leads to an earlier pixel: to one of a smaller value, or of the same value and a
/// smaller number. So a walk along links never comes back, and goes down. At each level the pixels whose walks have
/// the same last pixel of at least this level belong together, so links hold a whole component tree (Wilkinson et al.
/// 2008). The type does not hold the plane: what needs it, as `is_forest`, names the plane.
#[derive(Drop)]
pub struct Forest {
    parents: Vec<u32>,
}

impl Model for Forest {
    ghost use Rattle.std.specs.Prelude.{ℕ, List};

    ghost Value = { List ℕ };

    ghost view = { λ forest. forest.parents.items };
}

impl Forest {
    /// The forest of these links, the link of pixel 0 first.
    pub fn of(parents: Vec<u32>) -> Forest
        ensures { result ≡ parents.items }
    {
        Forest { parents }
    }

    /// The links, the link of pixel 0 first.
    pub fn parents(&self) -> &[u32]
        ensures { result.now ≡ self.now }
    {
        &self.parents
    }
}

/// Whether these links are a forest: the link of each pixel from `first` on is `NONE`, or one of these pixels and
/// earlier. An undefined pixel is never earlier or later, so its link has to be `NONE`, and nothing may link to it.
pub fn is_forest(plane: &Plane, first: u32, parents: &[u32]) -> bool
    requires { first + length parents.now ≤ length plane.now.values }
    ensures { IsTrue result ↔ IsForest plane.now.values first parents.now }
{
    let count = plane.shape().pixels();
    for p in first..count {
        if ((p - first) as usize) < parents.len() && !is_kept(plane, first, parents, p) {
            return false;
        }
    }
    true
}

// Whether the link of `p` is `NONE`, or one of these pixels and earlier.
fn is_kept(plane: &Plane, first: u32, parents: &[u32], p: u32) -> bool
    requires rows { first + length parents.now ≤ length plane.now.values }
    requires pixel { LiesInStretch first (length parents.now) p }
    ensures { IsTrue result ↔ LinksToEarlier plane.now.values first parents.now p }
{
    let link = parents[(p - first) as usize];
    if link == NONE {
        return true;
    }
    if link < first || (link - first) as usize >= parents.len() {
        return false;
    }
    plane.is_earlier(link, p)
}
