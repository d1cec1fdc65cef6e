//! The four rules, and what a node has to meet.

ghost use Rattle.std.specs.Prelude.{◌≡◌, ◌≤◌, ◌^◌};
ghost use Rattle.node_sums.specs.declared.entry.Sums.{Sums};
ghost use Rattle.node_sums.specs.Outlines.{outline_of};
ghost use Rattle.filter_rules.specs.Criteria.{admits, is_filled, box_of};
ghost use Rattle.filter_rules.specs.Passes.{HasBox};

use node_sums::Outline;

/// How a filter decides which nodes of a component tree are kept, and what a pixel gets of the nodes that hold it. A root
/// is kept under every rule.
///
/// `Min`, `Max` and `Direct` are those of Salembier, Oliveras and Garrido 1998; `Subtractive` is this project's.
#[derive(Clone, Copy, PartialEq, Eq, Debug)]
pub enum Rule {
    /// A node is kept where it and every node that contains it satisfy the criterion.
    Min,
    /// A node is kept where it or some node within it satisfies the criterion.
    Max,
    /// A node is kept where it satisfies the criterion.
    Direct,
    /// As `Direct`, but a pixel gets the sum of the rises of the kept nodes that hold it, each above its parent.
    Subtractive,
}

/// What a node has to meet: bounds that are met themselves are fine.
#[derive(Clone, Copy, PartialEq, Eq, Debug)]
pub struct Criterion {
    /// The least and the greatest number of pixels.
    pub min_area: u32,
    pub max_area: u32,
    /// The least flux: the sum of value less base over the component.
    pub min_flux: i64,
    /// How much of the node's box it fills at least, in thousandths.
    pub min_fill: u32,
}

impl Criterion {
    // Whether a node whose sums have this outline satisfies it, with this flux.
    pub(crate) fn admits(&self, outline: &Outline, flux: i64) -> bool
        requires pixels { HasBox outline.now }
        requires fill { self.now.min_fill ≤ 1000 }
        ensures { (s : Sums) → outline.now ≡ outline_of s → result ≡ admits self.now s flux }
    {
        self.min_area <= outline.area
            && outline.area <= self.max_area
            && self.min_flux <= flux
            && self.is_filled(outline)
    }

    // Whether a node whose sums have this outline fills enough of its box.
    fn is_filled(&self, outline: &Outline) -> bool
        requires pixels { HasBox outline.now }
        requires fill { self.now.min_fill ≤ 1000 }
        ensures { (s : Sums) → outline.now ≡ outline_of s → result ≡ is_filled self.now s }
    {
        self.min_fill as u64 * places(outline) <= 1000 * outline.area as u64
    }
}

// The number of grid places in a node's box.
fn places(outline: &Outline) -> u64
    requires { HasBox outline.now }
    ensures exact { (s : Sums) → outline.now ≡ outline_of s → result ≡ box_of s }
    ensures few { result ≤ 2 ^ 32 }
{
    let columns = outline.xmax - outline.xmin + 1;
    let rows = outline.ymax - outline.ymin + 1;
    columns as u64 * rows as u64
}
