//! What the component tree of a job is made of.
ghost use Rattle.std.specs.Prelude.{◌≡◌};
ghost use Rattle.tree_products.specs.Grounds.{ground_plane};

use comp_tree::Plane;
use source_sheet::Sheet;

/// What stands for a plane while a job works on it.
#[derive(Drop)]
pub enum Ground {
    /// A plane of the same shape.
    Whole(Plane),
    /// A sheet with its high pixels.
    Sheet(Sheet),
}

impl Ground {
    /// The plane whose component tree the job wants.
    pub fn plane(&self) -> &Plane
        ensures { result.now ≡ ground_plane self.now }
    {
        match self {
            Ground::Whole(plane) => plane,
            Ground::Sheet(sheet) => &sheet.plane,
        }
    }
}
