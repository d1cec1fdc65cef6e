//! The cells of a mesh over an image.

ghost use Rattle.std.specs.Prelude.{◌≡◌, ◌+◌, ◌-◌, ◌*◌, ◌/◌, ◌%◌, ◌<◌, ◌≤◌, ◌^◌};
ghost use Rattle.mesh_background.specs.Bounds.{IsCell};
ghost use Rattle.mesh_background.specs.Mesh.{cells_along, cell_count};
ghost use Rattle.mesh_background.specs.Slopes.{first_before};

use comp_tree::Shape;

// A mesh over an image of some shape, which it cuts from pixel 0 into cells of `mesh` by `mesh` pixels.
#[derive(Clone, Copy)]
pub(crate) struct Grid {
    pub(crate) shape: Shape,
    pub(crate) mesh: u32,
    pub(crate) columns: u32,
    pub(crate) rows: u32,
    pub ghost some: { 0 < mesh },
    pub ghost few: { mesh ≤ 65535 },
    pub ghost columns_is: { columns ≡ cells_along mesh shape.width },
    pub ghost rows_is: { rows ≡ cells_along mesh shape.height },
}

// The pixels of one cell: those in the columns from `left` up to `right` and in the rows from `top` up to `bottom`.
#[derive(Clone, Copy)]
pub(crate) struct Cell {
    pub(crate) left: u32,
    pub(crate) right: u32,
    pub(crate) top: u32,
    pub(crate) bottom: u32,
}

impl Grid {
    pub(crate) fn of(shape: Shape, mesh: u32) -> Grid
        requires some { 0 < mesh }
        requires few { mesh ≤ 65535 }
        ensures shape { result.shape ≡ shape }
        ensures mesh { result.mesh ≡ mesh }
    {
        Grid {
            shape,
            mesh,
            columns: cells_over(mesh, shape.width),
            rows: cells_over(mesh, shape.height),
        }
    }

    // How many cells there are: at most as many as pixels.
    pub(crate) fn cells(&self) -> u32
        ensures count { result ≡ cell_count self.now.mesh self.now.shape }
        ensures few { result ≤ 2147483647 }
    {
        self.columns * self.rows
    }

    // The column of pixels from which on `next` is the first column of cells whose centre lies past theirs.
    pub(crate) fn run_start(&self, next: u32) -> u32
        requires { next ≤ self.now.columns + 1 }
        ensures { result ≡ first_before self.now.mesh self.now.shape.width next }
    {
        let half = (self.mesh + 1) / 2;
        ((next * self.mesh).max(half) - half).min(self.shape.width)
    }

    // The pixels of a cell. Those at the right and at the bottom may be short.
    pub(crate) fn cell(&self, number: u32) -> Cell
        requires { number < cell_count self.now.mesh self.now.shape }
        ensures { IsCell self.now.mesh self.now.shape.width self.now.shape.height number
            result.left result.right result.top result.bottom }
    {
        let left = number % self.columns * self.mesh;
        let top = number / self.columns * self.mesh;
        Cell {
            left,
            right: (left + self.mesh).min(self.shape.width),
            top,
            bottom: (top + self.mesh).min(self.shape.height),
        }
    }
}

// How many cells cover a side of so many pixels.
fn cells_over(mesh: u32, side: u32) -> u32
    requires some { 0 < mesh }
    requires few { mesh ≤ 65535 }
    requires side { side ≤ 65535 }
    ensures { result ≡ cells_along mesh side }
{
    (side + (mesh - 1)) / mesh
}
